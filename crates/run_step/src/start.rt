//! The initial state.
ghost use Rattle.std.specs.Prelude.{◌≡◌, false, IfOk, MatchOption};
ghost use Rattle.scr_spec.specs.Shown.{data_of};
ghost use Rattle.scr_spec.specs.Domains.{IsTyped};
ghost use Rattle.scr_spec.specs.Relations.{has_condition_table};
ghost use Rattle.run_step.specs.Runs.{IsInitial};
ghost use Rattle.run_step.specs.Settled.{start_code, start_codes, IsOwnAt};

use crate::given::{code_after, set_code};
use base::NoMemory;
use scr_depend::Checked;
use scr_spec::{Spec, State, TypeDef, Variable};
use sqlite_items::Items;
use std::alloc::Global;

fn start_code(types: &[TypeDef], variable: &Variable) -> i64
    ensures { result ≡ start_code types.now variable.now }
{
    match variable.init {
        Some(code) => code,
        None => variable.kind.domain(types).lo,
    }
}

fn start_codes(alloc: Global, spec: &Spec) -> Result<Items<i64>, NoMemory>
    ensures { IfOk result (λ codes. codes ≡ start_codes (data_of spec.now)) }
{
    let mut codes = Items::new(alloc);
    for variable in spec.variables.as_slice() {
        codes.push(start_code(spec.types.as_slice(), variable))?;
    }
    Ok(codes)
}

/// The code that a condition table gives its variable at this state. None where the variable has
/// another table.
#[tactic(auto, using(scr_spec::proofs::Found::found_laws))]
fn own_code(spec: &Spec, at: &State, v: usize) -> Option<i64>
    requires { IsTyped (data_of spec.now) at.now.codes }
    ensures { MatchOption result
        (has_condition_table (data_of spec.now) v ≡ false)
        (λ code. IsOwnAt (data_of spec.now) v at.now.codes code) }
{
    match spec.table_of(v) {
        Some(table) => {
            if table.heading.is_condition() {
                Some(code_after(spec, table, at, at))
            } else {
                None
            }
        }
        None => None,
    }
}

/// The one initial state.
pub fn initial(alloc: Global, checked: &Checked) -> Result<State, NoMemory>
    ensures { IfOk result (λ first. IsInitial (data_of checked.now.spec) first.codes) }
{
    let spec = checked.spec();
    let codes = start_codes(alloc, spec)?;
    let mut first = State { codes };
    for v in checked.order.list.as_slice() {
        if let Some(code) = own_code(spec, &first, *v) {
            set_code(&mut first.codes, *v, code);
        }
    }
    Ok(first)
}

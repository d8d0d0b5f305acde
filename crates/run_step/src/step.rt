//! The next state.
ghost use Rattle.std.specs.Prelude.{◌≡◌, length, IsTrue, not, MatchOption};
ghost use Rattle.std.specs.List.{list_any};
ghost use Rattle.std.specs.Ordering.{int_eq};
ghost use Rattle.scr_spec.specs.Shown.{data_of};
ghost use Rattle.scr_spec.specs.Meaning.{code_of};
ghost use Rattle.scr_spec.specs.Domains.{IsTyped};
ghost use Rattle.run_step.specs.Runs.{IsConsistent, IsInput, IsStep};
ghost use Rattle.run_step.specs.Settled.{IsUntouched, IsGivenAt};

use crate::given::{code_after, code_at, set_code};
use scr_depend::Checked;
use scr_spec::{Input, State};

/// Whether one of the variables has another code in the new state.
fn has_changed(variables: &[usize], old: &State, new: &State) -> bool
    ensures { result ≡ list_any (λ w. not (int_eq (code_of old.now.codes w) (code_of new.now.codes w))) variables.now }
{
    variables
        .iter()
        .any(|w| code_at(&old.codes, *w) != code_at(&new.codes, *w))
}

/// Gives the second state the codes of the first one.
pub fn copy_codes(from: &State, to: &mut State)
    requires { length to.old.codes ≡ length from.now.codes }
    ensures { to.new.codes ≡ from.now.codes }
{
    let codes = from.codes.as_slice();
    for (v, code) in codes.iter().enumerate() {
        to.codes.set(v, *code);
    }
}

/// The code of a dependent variable in the new state, as far as that is settled. None where nothing
/// that it reads has changed: its old code is right then.
#[tactic(auto, using(scr_spec::proofs::Found::found_laws))]
fn next_code(checked: &Checked, old: &State, new: &State, v: usize) -> Option<i64>
    requires old_typed { IsTyped (data_of checked.now.spec) old.now.codes }
    requires new_typed { IsTyped (data_of checked.now.spec) new.now.codes }
    ensures { MatchOption result
        (IsUntouched (data_of checked.now.spec) v old.now.codes new.now.codes)
        (λ code. IsGivenAt (data_of checked.now.spec) v old.now.codes new.now.codes code) }
{
    let spec = checked.spec();
    if !has_changed(checked.order().reads(v), old, new) {
        return None;
    }
    match spec.table_of(v) {
        Some(table) => Some(code_after(spec, table, old, new)),
        None => None,
    }
}

/// Takes an input. Afterwards `new` is the one next state. A table is evaluated only where a variable
/// that it reads has changed.
pub fn step_into(checked: &Checked, old: &State, input: Input, new: &mut State)
    requires consistent { IsConsistent (data_of checked.now.spec) old.now.codes }
    requires may_come { IsInput (data_of checked.now.spec) old.now.codes input }
    requires places { length new.old.codes ≡ length checked.now.spec.variables }
    ensures { IsStep (data_of checked.now.spec) old.now.codes input new.new.codes }
{
    copy_codes(old, new);
    set_code(&mut new.codes, input.variable, input.code);
    for v in checked.order.list.as_slice() {
        if let Some(code) = next_code(checked, old, new, *v) {
            set_code(&mut new.codes, *v, code);
        }
    }
}

//! The inputs that may come in a state.
ghost use Rattle.std.specs.Prelude.{◌≡◌, ◌<◌, ◌≤◌, ◌++◌, unsigned_abs, length, IsTrue, MatchOption, OnOk, IfOk};
ghost use Rattle.scr_spec.specs.Shown.{data_of};
ghost use Rattle.scr_spec.specs.Meaning.{code_of};
ghost use Rattle.scr_spec.specs.Domains.{IsTyped};
ghost use Rattle.scr_spec.specs.Relations.{is_monitored};
ghost use Rattle.scr_depend.specs.Related.{bound_of};
ghost use Rattle.run_reach.specs.Inputs as listed;

use base::NoMemory;
use scr_spec::{Input, Spec, State};
use sqlite_items::Items;
use std::alloc::Global;

/// Appends an input, where it gives another code than the present one.
fn push_unless(inputs: &mut Items<Input>, input: Input, present: i64) -> Result<(), NoMemory>
    ensures { OnOk result (inputs.new ≡ inputs.old ++ listed.unless_present input.variable present input.code) }
{
    if input.code != present {
        inputs.push(input)?;
    }
    Ok(())
}

/// Appends the inputs with so many codes from the least on, without the present one.
fn push_from(
    inputs: &mut Items<Input>,
    variable: usize,
    present: i64,
    least: i64,
    count: usize,
) -> Result<(), NoMemory>
    requires near { unsigned_abs least ≤ 2000000 }
    requires few { count ≤ 4000001 }
    ensures { OnOk result (inputs.new ≡ inputs.old ++ listed.inputs_from variable present least count) }
{
    for k in 0..count {
        let code = least + k as i64;
        push_unless(inputs, Input { variable, code }, present)?;
    }
    Ok(())
}

#[tactic(auto, using(scr_spec::proofs::Lookup::lookup_laws))]
fn bound_of(spec: &Spec, v: usize) -> Option<i64>
    ensures { result ≡ bound_of (data_of spec.now) v }
{
    match spec.variables.get(v) {
        Some(variable) => variable.bound,
        None => None,
    }
}

fn least_code(bound: Option<i64>, present: i64, lo: i64) -> i64
    requires present { unsigned_abs present ≤ 1000000 }
    requires bound { MatchOption bound (Unit {0}) (λ k. unsigned_abs k ≤ 1000000) }
    requires lo { unsigned_abs lo ≤ 1000000 }
    ensures value { result ≡ listed.least_code bound present lo }
    ensures near { unsigned_abs result ≤ 2000000 }
{
    match bound {
        None => lo,
        Some(k) => {
            let least = present - k;
            lo.max(least)
        }
    }
}

fn greatest_code(bound: Option<i64>, present: i64, hi: i64) -> i64
    requires present { unsigned_abs present ≤ 1000000 }
    requires bound { MatchOption bound (Unit {0}) (λ k. unsigned_abs k ≤ 1000000) }
    requires hi { unsigned_abs hi ≤ 1000000 }
    ensures value { result ≡ listed.greatest_code bound present hi }
    ensures near { unsigned_abs result ≤ 2000000 }
{
    match bound {
        None => hi,
        Some(k) => {
            let greatest = present + k;
            hi.min(greatest)
        }
    }
}

fn count_codes(lo: i64, hi: i64) -> usize
    requires lo { unsigned_abs lo ≤ 2000000 }
    requires hi { unsigned_abs hi ≤ 2000000 }
    ensures count { result ≡ listed.count_codes lo hi }
    ensures few { result ≤ 4000001 }
{
    if hi < lo { 0 } else { (hi - lo) as usize + 1 }
}

/// Appends the inputs that give a new code to a monitored variable.
fn push_variable(
    inputs: &mut Items<Input>,
    spec: &Spec,
    at: &State,
    v: usize,
) -> Result<(), NoMemory>
    requires typed { IsTyped (data_of spec.now) at.now.codes }
    requires there { v < length spec.now.variables }
    requires monitored { IsTrue (is_monitored (data_of spec.now) v) }
    ensures { OnOk result (inputs.new ≡ inputs.old ++ listed.inputs_at (data_of spec.now) at.now.codes v) }
{
    let present = at.codes.as_slice()[v];
    let domain = spec.domain(v);
    let bound = bound_of(spec, v);
    let least = least_code(bound, present, domain.lo);
    let count = count_codes(least, greatest_code(bound, present, domain.hi));
    push_from(inputs, v, present, least, count)
}

fn push_at(inputs: &mut Items<Input>, spec: &Spec, at: &State, v: usize) -> Result<(), NoMemory>
    requires typed { IsTyped (data_of spec.now) at.now.codes }
    requires there { v < length spec.now.variables }
    ensures { OnOk result (inputs.new ≡ inputs.old ++ listed.inputs_at (data_of spec.now) at.now.codes v) }
{
    if spec.is_monitored(v) {
        push_variable(inputs, spec, at, v)
    } else {
        Ok(())
    }
}

/// The inputs that may come in a state: the monitored variables in order of declaration, and for each its
/// values, ascending.
pub fn inputs_of(alloc: Global, spec: &Spec, at: &State) -> Result<Items<Input>, NoMemory>
    requires { IsTyped (data_of spec.now) at.now.codes }
    ensures { IfOk result (λ inputs. inputs ≡ listed.inputs_of (data_of spec.now) at.now.codes) }
{
    let mut inputs = Items::new(alloc);
    for v in 0..spec.variables.len() {
        push_at(&mut inputs, spec, at, v)?;
    }
    Ok(inputs)
}

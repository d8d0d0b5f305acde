//! The formulas that say that a pair of states is related.
ghost use Rattle.std.specs.Prelude.{◌≡◌, ◌++◌, ◌<◌, ◌≤◌, IsTrue, OnOk, IfOk, MatchOption, unsigned_abs};
ghost use Rattle.scr_spec.specs.Shown.{data_of};
ghost use Rattle.scr_spec.specs.Relations.{is_monitored, has_condition_table};
ghost use Rattle.dd_formula.specs.declared.formula.Formula.TheVariants.{Not};
ghost use Rattle.prove_formula.specs.Measure.{IsOver};
ghost use Rattle.prove_formula.specs.Events.{same_code};
ghost use Rattle.scr_depend.specs.Graphs.{is_among};
ghost use Rattle.scr_depend.specs.Results.{IsOrderOf};
ghost use Rattle.scr_depend.specs.Related.{bound_of};
ghost use Rattle.prove_goals.specs.Pairs.{at_most_above, bounded_change, change_formula, need_formulas, pair_formulas, ArePairs, TellRelated, AreOver};

use base::NoMemory;
use prove_formula::{Formula, Linear, Op, Term, keeps_code, level_at, of_own, of_relation};
use scr_depend::{Order, is_among, need};
use scr_spec::Spec;
use sqlite_items::Items;
use std::alloc::Global;

/// The variable has another code in the new state.
fn differs(alloc: Global, x: usize) -> Result<Formula, NoMemory>
    requires { x < 128 }
    ensures { IfOk result (λ f. f ≡ Not (same_code x)) }
{
    let same = keeps_code(alloc, x)?;
    Formula::negation(alloc, same)
}

/// One level of the variable is at most k above the other.
fn at_most_above(alloc: Global, new: bool, x: usize, k: i64) -> Result<Formula, NoMemory>
    requires number { x < 128 }
    requires narrow { unsigned_abs k ≤ 1000000 }
    ensures { IfOk result (λ f. f ≡ at_most_above new x k) }
{
    let mut terms = Items::new(alloc);
    terms.push(Term {
        factor: 1,
        level: level_at(x, new),
    })?;
    terms.push(Term {
        factor: -1,
        level: level_at(x, !new),
    })?;
    Ok(Formula::Atom(Linear {
        terms,
        constant: -k,
        op: Op::Le,
    }))
}

fn bounded_change(alloc: Global, x: usize, bound: Option<i64>) -> Result<Formula, NoMemory>
    requires number { x < 128 }
    requires narrow { MatchOption bound (Unit {0}) (λ k. unsigned_abs k ≤ 1000000) }
    ensures { IfOk result (λ f. f ≡ bounded_change x bound) }
{
    let change = differs(alloc, x)?;
    match bound {
        None => Ok(change),
        Some(k) => {
            let rise = at_most_above(alloc, true, x, k)?;
            let fall = at_most_above(alloc, false, x, k)?;
            let mut members = Items::new(alloc);
            members.push(change)?;
            members.push(rise)?;
            members.push(fall)?;
            Ok(Formula::And(members))
        }
    }
}

#[tactic(auto, using(scr_spec::proofs::Lookup::lookup_laws))]
fn bound_of(spec: &Spec, x: usize) -> Option<i64>
    ensures { result ≡ bound_of (data_of spec.now) x }
{
    match spec.variables.get(x) {
        Some(variable) => variable.bound,
        None => None,
    }
}

fn change_at(alloc: Global, spec: &Spec, x: usize) -> Result<Formula, NoMemory>
    requires { IsTrue (is_monitored (data_of spec.now) x) }
    ensures { IfOk result (λ f. f ≡ change_formula (data_of spec.now) x) }
{
    bounded_change(alloc, x, bound_of(spec, x))
}

/// The variable changes, and by no more than its bound where it has one.
pub fn change(alloc: Global, spec: &Spec, x: usize) -> Result<Formula, NoMemory>
    requires { IsTrue (is_monitored (data_of spec.now) x) }
    ensures formula { IfOk result (λ f. f ≡ change_formula (data_of spec.now) x) }
    ensures narrow { IfOk result (λ f. IsOver (data_of spec.now) f) }
{
    change_at(alloc, spec, x)
}

fn has_condition_table(spec: &Spec, v: usize) -> bool
    ensures { result ≡ has_condition_table (data_of spec.now) v }
{
    match spec.table_of(v) {
        Some(table) => table.heading.is_condition(),
        None => false,
    }
}

/// Adds the formulas that say that the variable meets its relation, and with a condition table has its
/// own value in the old state, too.
#[tactic(auto, using(crate::proofs::Growth::need_steps))]
pub fn push_need(
    out: &mut Items<Formula>,
    alloc: Global,
    spec: &Spec,
    w: usize,
) -> Result<(), NoMemory>
    ensures { OnOk result (out.new ≡ out.old ++ need_formulas (data_of spec.now) w) }
{
    out.push(of_relation(alloc, spec, w)?)?;
    if has_condition_table(spec, w) {
        out.push(of_own(alloc, spec, w, false)?)?;
    }
    Ok(())
}

#[tactic(auto, using(crate::proofs::Growth::need_steps))]
pub(crate) fn pairs_for(
    alloc: Global,
    spec: &Spec,
    order: &[usize],
    need: &[usize],
    x: usize,
) -> Result<Items<Formula>, NoMemory>
    requires { IsTrue (is_monitored (data_of spec.now) x) }
    ensures { IfOk result (λ fs. fs ≡ pair_formulas (data_of spec.now) order.now need.now x) }
{
    let mut formulas = Items::new(alloc);
    for w in order {
        if is_among(need, *w) {
            push_need(&mut formulas, alloc, spec, *w)?;
        }
    }
    formulas.push(change_at(alloc, spec, x)?)?;
    Ok(formulas)
}

#[tactic(auto, using(crate::proofs::Calls::are_pairs))]
fn pairs_at(
    alloc: Global,
    spec: &Spec,
    order: &Order,
    v: usize,
    x: usize,
) -> Result<Items<Formula>, NoMemory>
    requires { IsTrue (is_monitored (data_of spec.now) x) }
    ensures { IfOk result (ArePairs (data_of spec.now) order.now.list v x) }
{
    let need = need(alloc, spec, v)?;
    pairs_for(alloc, spec, order.list.as_slice(), need.as_slice(), x)
}

/// The formulas that say that a pair of states in which `changed` changes is related for `v`. They
/// are all true at exactly these pairs, among those at which no other monitored variable changes.
pub fn pairs(
    alloc: Global,
    spec: &Spec,
    order: &Order,
    v: usize,
    changed: usize,
) -> Result<Items<Formula>, NoMemory>
    requires order { IsOrderOf (data_of spec.now) order.now }
    requires monitored { IsTrue (is_monitored (data_of spec.now) changed) }
    ensures formulas { IfOk result (ArePairs (data_of spec.now) order.now.list v changed) }
    ensures truth { IfOk result (TellRelated (data_of spec.now) v changed) }
    ensures narrow { IfOk result (AreOver (data_of spec.now)) }
{
    pairs_at(alloc, spec, order, v, changed)
}

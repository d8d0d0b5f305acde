//! The formula of an event.
ghost use Rattle.std.specs.Prelude.{◌≡◌, ◌<◌, IsTrue, IfOk};
ghost use Rattle.scr_spec.specs.Shown.{data_of};
ghost use Rattle.scr_spec.specs.Events.{is_change_over, is_guard_over, is_prim_over, is_event_over};
ghost use Rattle.prove_formula.specs.Events.{same_code, change_formula, guarded_formula, prim_formula, event_formula, HasTruthOfEvent};
ghost use Rattle.prove_formula.specs.Measure.{IsOver};

use crate::condition::of_cond;
use crate::level::level_at;
use crate::{Formula, Linear, Op, Term};
use base::NoMemory;
use scr_spec::{Change, Cond, Event, Primitive, Spec};
use sqlite_items::Items;
use std::alloc::Global;

/// The variable has the same code in both states.
pub fn keeps_code(alloc: Global, v: usize) -> Result<Formula, NoMemory>
    requires { v < 128 }
    ensures { IfOk result (λ f. f ≡ same_code v) }
{
    let mut terms = Items::new(alloc);
    terms.push(Term {
        factor: 1,
        level: level_at(v, true),
    })?;
    terms.push(Term {
        factor: -1,
        level: level_at(v, false),
    })?;
    Ok(Formula::Atom(Linear {
        terms,
        constant: 0,
        op: Op::Eq,
    }))
}

fn change_at(alloc: Global, spec: &Spec, change: &Change) -> Result<Formula, NoMemory>
    requires { IsTrue (is_change_over (data_of spec.now) change.now) }
    ensures { IfOk result (λ f. f ≡ change_formula (data_of spec.now) change.now) }
{
    match change {
        Change::Becomes(c) => {
            let before = of_cond(alloc, spec, c, false)?;
            let after = of_cond(alloc, spec, c, true)?;
            Formula::both(alloc, Formula::negation(alloc, before)?, after)
        }
        Change::Ceases(c) => {
            let before = of_cond(alloc, spec, c, false)?;
            let after = of_cond(alloc, spec, c, true)?;
            Formula::both(alloc, before, Formula::negation(alloc, after)?)
        }
        Change::Changes(v) => {
            let same = keeps_code(alloc, *v)?;
            Formula::negation(alloc, same)
        }
        Change::Never => Ok(Formula::False),
    }
}

fn guarded_at(
    alloc: Global,
    spec: &Spec,
    f: Formula,
    guard: &Option<Cond>,
) -> Result<Formula, NoMemory>
    requires { IsTrue (is_guard_over (data_of spec.now) guard.now) }
    ensures { IfOk result (λ g. g ≡ guarded_formula (data_of spec.now) f guard.now) }
{
    match guard {
        None => Ok(f),
        Some(c) => {
            let condition = of_cond(alloc, spec, c, false)?;
            Formula::both(alloc, f, condition)
        }
    }
}

fn prim_at(alloc: Global, spec: &Spec, prim: &Primitive) -> Result<Formula, NoMemory>
    requires { IsTrue (is_prim_over (data_of spec.now) prim.now) }
    ensures { IfOk result (λ f. f ≡ prim_formula (data_of spec.now) prim.now) }
{
    let change = change_at(alloc, spec, &prim.change)?;
    guarded_at(alloc, spec, change, &prim.guard)
}

fn event_at(alloc: Global, spec: &Spec, e: &Event) -> Result<Formula, NoMemory>
    requires { IsTrue (is_event_over (data_of spec.now) e.now) }
    ensures { IfOk result (λ f. f ≡ event_formula (data_of spec.now) e.now) }
{
    let mut members = Items::new(alloc);
    for prim in e.prims.as_slice() {
        let member = prim_at(alloc, spec, prim)?;
        members.push(member)?;
    }
    Ok(Formula::disjunction(members))
}

/// The formula of an event between the old and the new state.
#[tactic(auto, using(crate::proofs::EventTruth::event_truth_ok))]
pub fn of_event(alloc: Global, spec: &Spec, e: &Event) -> Result<Formula, NoMemory>
    requires { IsTrue (is_event_over (data_of spec.now) e.now) }
    ensures formula { IfOk result (λ f. f ≡ event_formula (data_of spec.now) e.now) }
    ensures truth { IfOk result (λ f. HasTruthOfEvent (data_of spec.now) e.now f) }
    ensures narrow { IfOk result (λ f. IsOver (data_of spec.now) f) }
{
    event_at(alloc, spec, e)
}

//! The formulas of the test of a candidate.
ghost use Rattle.std.specs.Prelude.{◌≡◌, ◌<◌, ◌≤◌, ◌++◌, map, unsigned_abs, IsTrue, OnOk, IfOk};
ghost use Rattle.scr_spec.specs.Shown.{data_of};
ghost use Rattle.scr_spec.specs.Tables.{is_class_at};
ghost use Rattle.prove_formula.specs.Conditions.{has_code};
ghost use Rattle.prove_formula.specs.Frozen.{frozen};
ghost use Rattle.prove_formula.specs.Measure.{IsOver};
ghost use Rattle.prove_candidates.specs.Candidates.{is_candidate_over, AreOver};
ghost use Rattle.prove_invariants.specs.Formulas.{candidate_formula, HasTruthOfCandidate, before_formula, own_formulas};

use base::NoMemory;
use prove_candidates::Candidate;
use prove_formula::{Formula, Linear, Op, Term, level_at, of_cond, only_changed};
use scr_spec::Spec;
use sqlite_items::Items;
use std::alloc::Global;

/// The class has the mode in the new state, or in the old.
fn has_mode(alloc: Global, class: usize, new: bool, mode: i64) -> Result<Formula, NoMemory>
    requires number { class < 128 }
    requires narrow { unsigned_abs mode ≤ 1000000 }
    ensures { IfOk result (λ f. f ≡ has_code new class mode) }
{
    let mut terms = Items::new(alloc);
    terms.push(Term {
        factor: 1,
        level: level_at(class, new),
    })?;
    Ok(Formula::Atom(Linear {
        terms,
        constant: -mode,
        op: Op::Eq,
    }))
}

#[tactic(auto, using(crate::proofs::Narrow::mode_laws))]
fn candidate_at(
    alloc: Global,
    spec: &Spec,
    class: usize,
    candidate: &Candidate,
    new: bool,
) -> Result<Formula, NoMemory>
    requires class { IsTrue (is_class_at (data_of spec.now) class) }
    requires over { IsTrue (is_candidate_over (data_of spec.now) class candidate.now) }
    ensures { IfOk result (λ f. f ≡ candidate_formula (data_of spec.now) new class candidate.now) }
{
    let mode = has_mode(alloc, class, new, candidate.mode)?;
    let other = Formula::negation(alloc, mode)?;
    let cond = of_cond(alloc, spec, &candidate.cond, new)?;
    Formula::either(alloc, other, cond)
}

/// The formula that says that the candidate holds, in the new state where `new` is true and in the
/// old one else.
#[tactic(auto, using(crate::proofs::Breaks::candidate_truth_ok))]
pub fn of_candidate(
    alloc: Global,
    spec: &Spec,
    class: usize,
    candidate: &Candidate,
    new: bool,
) -> Result<Formula, NoMemory>
    requires class { IsTrue (is_class_at (data_of spec.now) class) }
    requires over { IsTrue (is_candidate_over (data_of spec.now) class candidate.now) }
    ensures formula { IfOk result (λ f. f ≡ candidate_formula (data_of spec.now) new class candidate.now) }
    ensures truth { IfOk result (λ f. HasTruthOfCandidate (data_of spec.now) new class candidate.now f) }
    ensures narrow { IfOk result (λ f. IsOver (data_of spec.now) f) }
{
    candidate_at(alloc, spec, class, candidate, new)
}

/// The candidate holds before.
fn before(
    alloc: Global,
    spec: &Spec,
    class: usize,
    candidate: &Candidate,
) -> Result<Formula, NoMemory>
    requires class { IsTrue (is_class_at (data_of spec.now) class) }
    requires over { IsTrue (is_candidate_over (data_of spec.now) class candidate.now) }
    ensures { IfOk result (λ f. f ≡ before_formula (data_of spec.now) class candidate.now) }
{
    candidate_at(alloc, spec, class, candidate, false)
}

/// What the formula of a test says of its candidate: it does not hold after, and it holds before.
#[tactic(auto, using(crate::proofs::Narrow::mode_laws))]
pub(crate) fn own(
    alloc: Global,
    spec: &Spec,
    class: usize,
    candidate: &Candidate,
) -> Result<Items<Formula>, NoMemory>
    requires class { IsTrue (is_class_at (data_of spec.now) class) }
    requires over { IsTrue (is_candidate_over (data_of spec.now) class candidate.now) }
    ensures { IfOk result (λ fs. fs ≡ own_formulas (data_of spec.now) class candidate.now) }
{
    let mode = has_mode(alloc, class, true, candidate.mode)?;
    let cond = of_cond(alloc, spec, &candidate.cond, true)?;
    let mut out = Items::new(alloc);
    out.push(mode)?;
    out.push(Formula::negation(alloc, cond)?)?;
    out.push(before(alloc, spec, class, candidate)?)?;
    Ok(out)
}

/// Each of the candidates holds before.
pub(crate) fn all_before(
    alloc: Global,
    spec: &Spec,
    class: usize,
    known: &[Candidate],
) -> Result<Items<Formula>, NoMemory>
    requires class { IsTrue (is_class_at (data_of spec.now) class) }
    requires known { AreOver (data_of spec.now) class known.now }
    ensures { IfOk result (λ fs. fs ≡ map (before_formula (data_of spec.now) class) known.now) }
{
    let mut out = Items::new(alloc);
    for candidate in known {
        out.push(before(alloc, spec, class, candidate)?)?;
    }
    Ok(out)
}

/// Adds the formulas, with the old level of each monitored variable other than x in place of its new one.
pub fn push_frozen(
    out: &mut Items<Formula>,
    alloc: Global,
    spec: &Spec,
    x: usize,
    formulas: &[Formula],
) -> Result<(), NoMemory>
    ensures { OnOk result (out.new ≡ out.old ++ map (frozen (data_of spec.now) x) formulas.now) }
{
    for f in formulas {
        out.push(only_changed(alloc, spec, f, x)?)?;
    }
    Ok(())
}

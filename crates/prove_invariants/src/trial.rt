//! The test of a candidate.
ghost use Rattle.std.specs.Prelude.{◌≡◌, ◌<◌, [], length, IsTrue, IfOk};
ghost use Rattle.scr_spec.specs.Shown.{data_of};
ghost use Rattle.scr_spec.specs.Domains.{IsTyped};
ghost use Rattle.scr_spec.specs.Tables.{is_class_at};
ghost use Rattle.prove_candidates.specs.Candidates.{is_candidate_over};
ghost use Rattle.prove_invariants.specs.Holds.{holds_in};
ghost use Rattle.prove_invariants.specs.Derivations.{classes_of};
ghost use Rattle.prove_goals.specs.Goals.{monitored_variables};
ghost use Rattle.prove_invariants.specs.Settings.{spec_in, IsBegun, IsMovedIn};
ghost use Rattle.prove_invariants.specs.Outcomes.{IsOutcome, IsNextOutcome};

use crate::change::{Tested, test_change};
use crate::moves::Moved;
use crate::setting::Round;
use crate::standing::Standing;
use base::NoMemory;
use prove_candidates::Candidate;
use scr_eval::cond_holds;
use scr_spec::{Spec, State};
use sqlite_items::Items;
use std::alloc::Global;

/// The monitored variables, in order of declaration.
#[tactic(auto, using(crate::proofs::Testing::monitored_laws))]
pub fn monitored(alloc: Global, spec: &Spec) -> Result<Items<usize>, NoMemory>
    ensures { IfOk result (λ xs. xs ≡ monitored_variables (data_of spec.now)) }
{
    let mut out = Items::new(alloc);
    for v in 0..spec.variables.len() {
        if spec.is_monitored(v) {
            out.push(v)?;
        }
    }
    Ok(out)
}

/// Whether the variable is a mode class.
#[tactic(auto, using(scr_spec::proofs::Lookup::lookup_laws))]
pub fn is_class(spec: &Spec, v: usize) -> bool
    ensures { result ≡ is_class_at (data_of spec.now) v }
{
    match spec.variables.get(v) {
        Some(variable) => variable.role.is_class(),
        None => false,
    }
}

/// The mode classes, in order of declaration.
#[tactic(auto, using(crate::proofs::Testing::monitored_laws))]
pub fn classes(alloc: Global, spec: &Spec) -> Result<Items<usize>, NoMemory>
    ensures { IfOk result (λ list. list ≡ classes_of (data_of spec.now)) }
{
    let mut out = Items::new(alloc);
    for v in 0..spec.variables.len() {
        if is_class(spec, v) {
            out.push(v)?;
        }
    }
    Ok(out)
}

/// Whether the class has another mode, or the condition is true.
fn holds(spec: &Spec, class: usize, at: &State, candidate: &Candidate) -> bool
    requires typed { IsTyped (data_of spec.now) at.now.codes }
    requires class { class < length spec.now.variables }
    requires over { IsTrue (is_candidate_over (data_of spec.now) class candidate.now) }
    ensures { result ≡ holds_in (data_of spec.now) class at.now.codes candidate.now }
{
    at.codes.as_slice()[class] != candidate.mode || cond_holds(spec, &candidate.cond, at)
}

/// How the tests of a candidate begin. One that has not passed is kept if it holds in the initial state.
pub(crate) fn first_outcome(round: &Round, standing: &Standing) -> Tested
    requires begun { IsBegun round.now }
    requires over { IsTrue (is_candidate_over (spec_in round.now.setting.now) round.now.setting.now.class standing.now.candidate) }
    ensures { IsOutcome round.now [] standing.now result }
{
    let setting = round.setting;
    let spec = &setting.checked.spec;
    match standing.round {
        Some(_) => Tested::Broken,
        None => {
            if !holds(spec, setting.class, setting.first, &standing.candidate) {
                return Tested::Broken;
            }
            Tested::Kept
        }
    }
}

/// Tests a candidate that is kept so far where this variable changes.
pub(crate) fn next_outcome(
    alloc: Global,
    round: &Round,
    moved: &Moved,
    standing: &Standing,
    outcome: Tested,
) -> Result<Tested, NoMemory>
    requires begun { IsBegun round.now }
    requires moved { IsMovedIn round.now moved.now }
    requires over { IsTrue (is_candidate_over (spec_in round.now.setting.now) round.now.setting.now.class standing.now.candidate) }
    ensures { IfOk result (IsNextOutcome round.now moved.now.changed standing.now outcome) }
{
    match outcome {
        Tested::Kept => test_change(alloc, round, moved, &standing.candidate),
        Tested::Broken => Ok(Tested::Broken),
        Tested::Past => Ok(Tested::Past),
    }
}

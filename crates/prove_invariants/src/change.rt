//! The test of a candidate in which one monitored variable changes.
ghost use Rattle.std.specs.Prelude.{◌≤◌, IsTrue, IfOk};
ghost use Rattle.prove_goals.specs.Pairs.{AreOver as AreFormulasOver};
ghost use Rattle.prove_candidates.specs.Candidates.{is_candidate_over};
ghost use Rattle.prove_decide.specs.Levels.{level_domains};
ghost use Rattle.prove_decide.specs.Alone.{IsDecided};
ghost use Rattle.prove_invariants.specs.Settings.{spec_in, IsBegun, IsMovedIn, front_in, formula_in, change_test_in};
ghost use Rattle.dd_store.specs.declared.store.TheConstants.{SPLIT_LIMIT};

use crate::formula::{own, push_frozen};
use crate::moves::Moved;
use crate::setting::Round;
use base::NoMemory;
use prove_candidates::Candidate;
use prove_decide::{Decision, decide_conjunction};
use prove_formula::Formula;
use sqlite_items::Items;
use std::alloc::Global;

/// How a test ends: nothing breaks the candidate; it is false at first, or a change breaks it; or a
/// count is past the limit.
#[derive(Clone, Copy, Debug, PartialEq, Eq)]
pub(crate) enum Tested {
    Kept,
    Broken,
    Past,
}

/// Decides whether this change breaks the candidate of which `own` speaks.
fn decide_change(
    alloc: Global,
    round: &Round,
    own: &[Formula],
    moved: &Moved,
) -> Result<Decision, NoMemory>
    requires limit { round.now.setting.now.limit ≤ SPLIT_LIMIT }
    requires front { AreFormulasOver (spec_in round.now.setting.now) (front_in round.now own.now moved.now) }
    requires members { AreFormulasOver (spec_in round.now.setting.now) moved.now.members }
    ensures { IfOk result (IsDecided (level_domains (spec_in round.now.setting.now)) round.now.setting.now.limit (formula_in round.now own.now moved.now)) }
{
    let spec = &round.setting.checked.spec;
    let mut first = Items::new(alloc);
    push_frozen(&mut first, alloc, spec, moved.changed, own)?;
    push_frozen(&mut first, alloc, spec, moved.changed, round.before)?;
    let rest = moved.members.as_slice();
    decide_conjunction(alloc, spec, first.as_slice(), rest, round.setting.limit)
}

/// Tests the candidate where this variable changes.
pub(crate) fn test_change(
    alloc: Global,
    round: &Round,
    moved: &Moved,
    candidate: &Candidate,
) -> Result<Tested, NoMemory>
    requires begun { IsBegun round.now }
    requires moved { IsMovedIn round.now moved.now }
    requires over { IsTrue (is_candidate_over (spec_in round.now.setting.now) round.now.setting.now.class candidate.now) }
    ensures { IfOk result (change_test_in round.now candidate.now moved.now.changed) }
{
    let setting = round.setting;
    let own = own(alloc, &setting.checked.spec, setting.class, candidate)?;
    match decide_change(alloc, round, own.as_slice(), moved)? {
        Decision::Over => Ok(Tested::Past),
        Decision::Satisfied(_) => Ok(Tested::Broken),
        Decision::Unsatisfiable => Ok(Tested::Kept),
    }
}

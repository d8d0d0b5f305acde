//! One round of tests.
ghost use Rattle.std.specs.Prelude.{IfOk};
ghost use Rattle.prove_goals.specs.Goals.{monitored_variables};
ghost use Rattle.prove_invariants.specs.Settings.{spec_in, IsBegun, test_in};
ghost use Rattle.prove_invariants.specs.Outcomes.{AreOutcomes};
ghost use Rattle.prove_invariants.specs.Steps.{AreStandingOver, IsRoundEnd};

use crate::change::Tested;
use crate::outcomes::outcomes;
use crate::setting::Round;
use crate::standing::Standing;
use base::NoMemory;
use prove_candidates::Candidate;
use sqlite_items::Items;
use std::alloc::Global;

/// How a round ends: none passed, these stand now, or the test of this candidate is past the limit.
#[derive(Drop)]
pub(crate) enum RoundEnd {
    Fixed,
    Gained(Items<Standing>),
    Stopped(Candidate),
}

/// What the round makes of the candidates whose tests end so.
fn mark(
    alloc: Global,
    round: &Round,
    standings: &[Standing],
    outcomes: &[Tested],
) -> Result<RoundEnd, NoMemory>
    requires { AreOutcomes round.now (monitored_variables (spec_in round.now.setting.now)) standings.now outcomes.now }
    ensures { IfOk result (IsRoundEnd (test_in round.now.setting.now) round.now.number round.now.known.now standings.now) }
{
    let mut out = Items::new(alloc);
    let mut gained = false;
    for (standing, outcome) in standings.iter().zip(outcomes) {
        match outcome {
            Tested::Kept => {
                out.push(standing.passed(alloc, round.number)?)?;
                gained = true;
            }
            Tested::Broken => out.push(standing.copy(alloc)?)?,
            Tested::Past => return Ok(RoundEnd::Stopped(standing.candidate.copy(alloc)?)),
        }
    }
    if gained {
        return Ok(RoundEnd::Gained(out));
    }
    Ok(RoundEnd::Fixed)
}

/// Tests each candidate that has not passed.
pub(crate) fn run_round(
    alloc: Global,
    round: &Round,
    standings: &[Standing],
) -> Result<RoundEnd, NoMemory>
    requires begun { IsBegun round.now }
    requires over { AreStandingOver (spec_in round.now.setting.now) round.now.setting.now.class standings.now }
    ensures { IfOk result (IsRoundEnd (test_in round.now.setting.now) round.now.number round.now.known.now standings.now) }
{
    let outcomes = outcomes(alloc, round, standings)?;
    mark(alloc, round, standings, outcomes.as_slice())
}

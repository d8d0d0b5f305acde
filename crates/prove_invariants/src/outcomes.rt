//! The tests of all candidates of a round. All are made where one variable changes before the next does,
//! so that only the formulas of one change stand in memory.
ghost use Rattle.std.specs.Prelude.{[], IfOk};
ghost use Rattle.prove_goals.specs.Goals.{monitored_variables};
ghost use Rattle.prove_invariants.specs.Settings.{spec_in, IsBegun, IsMovedIn};
ghost use Rattle.prove_invariants.specs.Steps.{AreStandingOver};
ghost use Rattle.prove_invariants.specs.Outcomes.{AreOutcomes, AreNextOutcomes};

use crate::change::Tested;
use crate::moves::{Moved, of_change};
use crate::setting::Round;
use crate::standing::Standing;
use crate::trial::{first_outcome, next_outcome};
use base::NoMemory;
use sqlite_items::Items;
use std::alloc::Global;

/// How the tests of each candidate begin.
fn first_outcomes(
    alloc: Global,
    round: &Round,
    standings: &[Standing],
) -> Result<Items<Tested>, NoMemory>
    requires begun { IsBegun round.now }
    requires over { AreStandingOver (spec_in round.now.setting.now) round.now.setting.now.class standings.now }
    ensures { IfOk result (AreOutcomes round.now [] standings.now) }
{
    let mut out = Items::new(alloc);
    for standing in standings {
        out.push(first_outcome(round, standing))?;
    }
    Ok(out)
}

/// Tests each candidate that is kept so far where this variable changes, up to the first test that is
/// past the limit.
fn next_outcomes(
    alloc: Global,
    round: &Round,
    moved: &Moved,
    standings: &[Standing],
    outcomes: &[Tested],
) -> Result<Items<Tested>, NoMemory>
    requires begun { IsBegun round.now }
    requires moved { IsMovedIn round.now moved.now }
    requires over { AreStandingOver (spec_in round.now.setting.now) round.now.setting.now.class standings.now }
    ensures { IfOk result (AreNextOutcomes round.now moved.now.changed standings.now outcomes.now) }
{
    let mut out = Items::new(alloc);
    for (standing, outcome) in standings.iter().zip(outcomes) {
        let next = next_outcome(alloc, round, moved, standing, *outcome)?;
        out.push(next)?;
        if next == Tested::Past {
            return Ok(out);
        }
    }
    Ok(out)
}

/// How the tests of the candidates end, in order, up to the first that is past the limit.
pub(crate) fn outcomes(
    alloc: Global,
    round: &Round,
    standings: &[Standing],
) -> Result<Items<Tested>, NoMemory>
    requires begun { IsBegun round.now }
    requires over { AreStandingOver (spec_in round.now.setting.now) round.now.setting.now.class standings.now }
    ensures { IfOk result (AreOutcomes round.now (monitored_variables (spec_in round.now.setting.now)) standings.now) }
{
    let setting = round.setting;
    let mut outcomes = first_outcomes(alloc, round, standings)?;
    for x in setting.monitored {
        let moved = of_change(alloc, setting.checked, setting.need, setting.class, *x)?;
        outcomes = next_outcomes(alloc, round, &moved, standings, outcomes.as_slice())?;
    }
    Ok(outcomes)
}

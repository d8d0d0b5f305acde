//! Candidates, and in which round each has passed.
ghost use Rattle.std.specs.Prelude.{◌≡◌, IfOk, map};
ghost use Rattle.prove_invariants.specs.Rounds.{standing_of, passed_in, known_of, found_of};

use crate::derived::Found;
use base::NoMemory;
use prove_candidates::Candidate;
use sqlite_items::Items;
use std::alloc::Global;

/// A candidate, with the round in which it passed if it has.
#[derive(Drop)]
pub(crate) struct Standing {
    pub candidate: Candidate,
    pub round: Option<u64>,
}

impl Standing {
    pub(crate) fn copy(&self, alloc: Global) -> Result<Standing, NoMemory>
        ensures { IfOk result (λ copy. copy ≡ self.now) }
    {
        Ok(Standing {
            candidate: self.candidate.copy(alloc)?,
            round: self.round,
        })
    }

    /// The candidate, which passes in this round.
    pub(crate) fn passed(&self, alloc: Global, round: u64) -> Result<Standing, NoMemory>
        ensures { IfOk result (λ standing. standing ≡ passed_in round self.now.candidate) }
    {
        Ok(Standing {
            candidate: self.candidate.copy(alloc)?,
            round: Some(round),
        })
    }
}

/// Before the first round.
pub(crate) fn begin(alloc: Global, candidates: &[Candidate]) -> Result<Items<Standing>, NoMemory>
    ensures { IfOk result (λ standings. standings ≡ map standing_of candidates.now) }
{
    let mut standings = Items::new(alloc);
    for candidate in candidates {
        standings.push(Standing {
            candidate: candidate.copy(alloc)?,
            round: None,
        })?;
    }
    Ok(standings)
}

/// Those that have passed.
#[tactic(auto, using(crate::proofs::Standings::known_laws))]
pub(crate) fn known(alloc: Global, standings: &[Standing]) -> Result<Items<Candidate>, NoMemory>
    ensures { IfOk result (λ known. known ≡ known_of standings.now) }
{
    let mut out = Items::new(alloc);
    for standing in standings {
        if let Some(_) = standing.round {
            out.push(standing.candidate.copy(alloc)?)?;
        }
    }
    Ok(out)
}

/// Those that have passed, each with its round.
#[tactic(auto, using(crate::proofs::Standings::found_laws))]
pub(crate) fn found(alloc: Global, standings: &[Standing]) -> Result<Items<Found>, NoMemory>
    ensures { IfOk result (λ found. found ≡ found_of standings.now) }
{
    let mut out = Items::new(alloc);
    for standing in standings {
        if let Some(round) = standing.round {
            out.push(Found {
                candidate: standing.candidate.copy(alloc)?,
                round,
            })?;
        }
    }
    Ok(out)
}

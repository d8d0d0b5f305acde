//! Rounds of tests, up to the first in which no candidate passes.
ghost use Rattle.std.specs.Prelude.{◌≡◌, ◌≤◌, IsTrue, IfOk};
ghost use Rattle.scr_spec.specs.Shown.{data_of};
ghost use Rattle.scr_spec.specs.Tables.{is_class_at};
ghost use Rattle.prove_candidates.specs.Candidates.{AreOver};
ghost use Rattle.prove_invariants.specs.Settings.{spec_in, IsSetUp, test_in};
ghost use Rattle.prove_invariants.specs.Rounds.{known_of, IsDerived};
ghost use Rattle.prove_invariants.specs.Steps.{AreStandingOver, IsRoundEnd};
ghost use Rattle.prove_invariants.specs.Derivations.{HasDerived, IsDerivedOver};
ghost use Rattle.dd_store.specs.declared.store.TheConstants.{SPLIT_LIMIT};

use crate::derived::Derived;
use crate::formula::all_before;
use crate::round::{RoundEnd, run_round};
use crate::setting::{Round, Setting};
use crate::standing::{Standing, begin, found, known};
use crate::trial::monitored;
use base::NoMemory;
use prove_candidates::{Candidate, candidates};
use run_step::initial;
use scr_depend::{Checked, need};
use std::alloc::Global;

/// One round over these, of which those that have passed are known.
fn next_round(
    alloc: Global,
    setting: &Setting,
    standings: &[Standing],
    number: u64,
) -> Result<RoundEnd, NoMemory>
    requires set_up { IsSetUp setting.now }
    requires over { AreStandingOver (spec_in setting.now) setting.now.class standings.now }
    ensures { IfOk result (IsRoundEnd (test_in setting.now) number (known_of standings.now) standings.now) }
{
    let known = known(alloc, standings)?;
    let known = known.as_slice();
    let before = all_before(alloc, &setting.checked.spec, setting.class, known)?;
    let before = before.as_slice();
    let round = Round {
        setting,
        number,
        known,
        before,
    };
    run_round(alloc, &round, standings)
}

/// Round after round. In each but the last some candidate passes, so there are at most as many of these
/// as there are candidates.
fn run_rounds(
    alloc: Global,
    setting: &Setting,
    candidates: &[Candidate],
) -> Result<Derived, NoMemory>
    requires set_up { IsSetUp setting.now }
    requires over { AreOver (spec_in setting.now) setting.now.class candidates.now }
    ensures { IfOk result (IsDerived (test_in setting.now) candidates.now) }
{
    let mut standings = begin(alloc, candidates)?;
    let count = candidates.len();
    for rounds in 0..count {
        let round = rounds as u64 + 1;
        match next_round(alloc, setting, standings.as_slice(), round)? {
            RoundEnd::Stopped(candidate) => return Ok(Derived::Undecided(round, candidate)),
            RoundEnd::Fixed => return Ok(Derived::All(found(alloc, standings.as_slice())?)),
            RoundEnd::Gained(next) => standings = next,
        }
    }
    Ok(Derived::All(found(alloc, standings.as_slice())?))
}

fn derive_at(
    alloc: Global,
    checked: &Checked,
    class: usize,
    limit: u32,
) -> Result<Derived, NoMemory>
    requires limit { limit ≤ SPLIT_LIMIT }
    requires class { IsTrue (is_class_at (data_of checked.now.spec) class) }
    ensures { IfOk result (HasDerived (data_of checked.now.spec) checked.now.order.list class limit) }
{
    let spec = checked.spec();
    let listed = candidates(alloc, spec, class)?;
    let needed = need(alloc, spec, class)?;
    let first = initial(alloc, checked)?;
    let monitored = monitored(alloc, spec)?;
    let setting = Setting {
        checked,
        class,
        need: needed.as_slice(),
        limit,
        first: &first,
        monitored: monitored.as_slice(),
    };
    run_rounds(alloc, &setting, listed.as_slice())
}

/// Derives invariants of the modes of a class: the candidates that pass in some round, each with the
/// first; or the first test whose formula and its listing have more distinct splits than the limit.
#[tactic(auto, using(crate::proofs::DerivedOver::derived_over_ok))]
pub fn derive(
    alloc: Global,
    checked: &Checked,
    class: usize,
    limit: u32,
) -> Result<Derived, NoMemory>
    requires limit { limit ≤ SPLIT_LIMIT }
    requires class { IsTrue (is_class_at (data_of checked.now.spec) class) }
    ensures derived { IfOk result (HasDerived (data_of checked.now.spec) checked.now.order.list class limit) }
    ensures over { IfOk result (IsDerivedOver (data_of checked.now.spec) class) }
{
    derive_at(alloc, checked, class, limit)
}

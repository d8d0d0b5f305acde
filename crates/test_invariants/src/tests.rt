//! Invariants of two small mode classes, with the rounds and the limit that are wanted.
ghost use Rattle.std.specs.Prelude.{◌≤◌};

use prove_candidates::Candidate;
use prove_invariants::{Derived, derive, is_class};
use scr_spec::Cond;
use std::alloc::Global;
use std::test::Fail;
use test_runs::checked;

const ENGINE: &str =
    "SPECIFICATION Motor\nMONITORED Key : BOOLEAN INIT FALSE\nMONITORED Start : BOOLEAN INIT FALSE\nMODECLASS Engine = { Off, Ready, Run } INIT Off\nMODES Engine\nFROM Off TO Ready : @T(Key)\nFROM Ready TO Off : @F(Key)\nFROM Ready TO Run : @T(Start)\nFROM Run TO Off : @F(Key)\nEND\nFINISH\n";

const SWITCH: &str =
    "SPECIFICATION Switch\nMONITORED k : BOOLEAN INIT FALSE\nMODECLASS M = { A, B } INIT A\nMODES M\nFROM A TO B : @T(k)\nEND\nFINISH\n";

fn derived(alloc: Global, text: &str, class: usize, limit: u32) -> Result<Derived, Fail>
    requires { limit ≤ 40000 }
{
    let checked = checked(alloc, text.as_bytes()).ok_or("it does not pass")?;
    if !is_class(checked.spec(), class) {
        return Err("no class".into());
    }
    match derive(alloc, &checked, class, limit) {
        Ok(derived) => Ok(derived),
        Err(_) => Err("no memory".into()),
    }
}

/// The mode, and whether the first variable is true in it.
fn told(candidate: &Candidate) -> Option<(i64, bool)> {
    match &candidate.cond {
        Cond::Holds(0) => Some((candidate.mode, true)),
        Cond::Not(member) => match member.get() {
            Cond::Holds(0) => Some((candidate.mode, false)),
            _ => None,
        },
        _ => None,
    }
}

#[test]
fn strengthens_round_by_round(rt: HostRuntime) -> Result<(), Fail> {
    let found = match derived(rt.alloc(), ENGINE, 2, 40_000)? {
        Derived::All(found) => found,
        Derived::Undecided(_, _) => return Err("past the limit".into()),
    };
    let wanted = [
        (1, Some((0, false))),
        (1, Some((1, true))),
        (2, Some((2, true))),
    ];
    assert_eq!(rt; found.len(), wanted.len());
    for (f, wanted) in found.as_slice().iter().zip(wanted) {
        assert_eq!(rt; (f.round, told(&f.candidate)), wanted);
    }
    Ok(())
}

#[test]
fn is_undecided_past_the_limit(rt: HostRuntime) -> Result<(), Fail> {
    match derived(rt.alloc(), SWITCH, 1, 1)? {
        Derived::Undecided(round, candidate) => {
            assert_eq!(rt; (round, told(&candidate)), (1, Some((0, false))));
            Ok(())
        }
        Derived::All(_) => Err("within the limit".into()),
    }
}

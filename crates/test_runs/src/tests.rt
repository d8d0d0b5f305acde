//! Runs of a small specification, with the states and faults that are wanted.

use crate::checked;
use run_script::{ScriptFault, Simulator};
use run_step::initial;
use std::test::Fail;

const TEXT: &str =
    "SPECIFICATION Demo\nTYPE Level = 0 .. 50\nMONITORED n : Level INIT 14\nNAT n STEP 10\nMONITORED a : BOOLEAN INIT FALSE\nTERM t : BOOLEAN INIT FALSE\nEVENT t\nROW : @T(a) WHEN n > 20 | @T(n <= 20)\nVALUES TRUE | FALSE\nEND\nFINISH\n";

#[test]
fn begins_at_the_initial_state(rt: HostRuntime) -> Result<(), Fail> {
    let checked = checked(rt.alloc(), TEXT.as_bytes()).ok_or("it does not pass")?;
    let first = initial(rt.alloc(), &checked).map_err(|_| "no state")?;
    assert_eq!(rt; first.codes.as_slice(), [14, 0, 0].as_slice());
    Ok(())
}

#[test]
fn goes_on_line_by_line(rt: HostRuntime) -> Result<(), Fail> {
    let checked = checked(rt.alloc(), TEXT.as_bytes()).ok_or("it does not pass")?;
    let mut simulator = Simulator::new(rt.alloc(), &checked).map_err(|_| "no simulator")?;
    for (line, held, codes) in [
        ("SET n 24", true, [24, 0, 0]),
        ("SET a TRUE", true, [24, 1, 1]),
        (" # nothing", false, [24, 1, 1]),
        ("SET n 20", true, [20, 1, 0]),
    ] {
        assert_eq!(rt; simulator.feed_line(line.as_bytes()), Ok(held));
        assert_eq!(rt; simulator.state().codes.as_slice(), codes.as_slice());
    }
    Ok(())
}

#[test]
fn tells_the_first_fault(rt: HostRuntime) -> Result<(), Fail> {
    let checked = checked(rt.alloc(), TEXT.as_bytes()).ok_or("it does not pass")?;
    let mut simulator = Simulator::new(rt.alloc(), &checked).map_err(|_| "no simulator")?;
    for (line, fault) in [
        ("SET t 51 0", ScriptFault::Syntax),
        ("SET t 51", ScriptFault::Unknown),
        ("SET n 51", ScriptFault::Value),
        ("SET n 14", ScriptFault::NoChange),
        ("SET n 25", ScriptFault::Nat),
    ] {
        assert_eq!(rt; simulator.feed_line(line.as_bytes()), Err(fault));
        assert_eq!(rt; simulator.state().codes.as_slice(), [14, 0, 0].as_slice());
    }
    Ok(())
}

//! The run of the script.
ghost use Rattle.std.specs.Prelude.{◌≡◌, IfOk, MatchResult};
ghost use Rattle.scr_spec.specs.Shown.{data_of};
ghost use Rattle.run_script.specs.Feeds.{Feeds};
ghost use Rattle.cmd_large.specs.Summaries.{TakesAll, FailsAt, RunSummary};
ghost use Rattle.cmd_large.specs.Script.{IsRefusedAt};

use crate::text::number_line;
use base::NoMemory;
use base_script::push_script_fault;
use cmd_report::push_state;
use cmd_work::Status;
use run_script::{ScriptFault, Simulator, kind_of};
use scr_depend::Checked;
use std::alloc::Global;

/// A line of the script, by its number from 1, and what is wrong with it.
#[derive(Clone, Copy, Debug, PartialEq, Eq)]
pub(crate) struct FaultyLine {
    pub number: u32,
    pub fault: ScriptFault,
}

/// Takes the line of this number.
fn feed(simulator: &mut Simulator, number: u32, line: &[u8]) -> Result<bool, FaultyLine>
    ensures same { simulator.new.checked.now ≡ simulator.old.checked.now }
    ensures fed { MatchResult result
        (λ held. Feeds (data_of simulator.old.checked.now.spec) line.now simulator.old.state.codes simulator.new.state.codes held)
        (IsRefusedAt (data_of simulator.old.checked.now.spec) number line.now simulator.old.state.codes simulator.new.state.codes) }
{
    match simulator.feed_line(line) {
        Ok(held) => Ok(held),
        Err(fault) => Err(FaultyLine { number, fault }),
    }
}

/// Takes the lines of the script in turn, up to the first that is faulty.
fn feed_all(simulator: &mut Simulator) -> Result<(), FaultyLine>
    ensures same { simulator.new.checked.now ≡ simulator.old.checked.now }
    ensures fed { MatchResult result
        (λ _. TakesAll (data_of simulator.old.checked.now.spec) simulator.old.state.codes simulator.new.state.codes)
        (λ faulty. FailsAt (data_of simulator.old.checked.now.spec) simulator.old.state.codes faulty.number faulty.fault) }
{
    feed(simulator, 1, b"SET Input 60")?;
    feed(simulator, 2, b"SET Input 0")?;
    feed(simulator, 3, b"SET Reset TRUE")?;
    Ok(())
}

/// What comes of the script: the state after its last line, or the line on its first fault.
pub(crate) fn summarize_run(alloc: Global, checked: &Checked) -> Result<(Vec<u8>, Status), NoMemory>
    ensures { IfOk result (λ r. RunSummary (data_of checked.now.spec) r.0.items r.1) }
{
    let mut simulator = Simulator::new(alloc, checked)?;
    match feed_all(&mut simulator) {
        Ok(()) => {
            let mut out = number_line(alloc, "inputs", 3)?.into_bytes();
            push_state(&mut out, checked.spec(), 3, simulator.state())?;
            Ok((out, Status::Done))
        }
        Err(faulty) => {
            let mut out = Vec::new(alloc);
            push_script_fault(&mut out, faulty.number, kind_of(faulty.fault))?;
            Ok((out, Status::ScriptRefused))
        }
    }
}

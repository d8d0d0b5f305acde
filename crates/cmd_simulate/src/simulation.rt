//! A simulation between two lines of its script.
ghost use Rattle.std.specs.Prelude.{◌≡◌, ◌≢◌, ◌++◌, OnOk, IfOk};
ghost use Rattle.scr_spec.specs.Shown.{data_of};
ghost use Rattle.run_step.specs.Runs.{IsInitial};

use base::NoMemory;
use base_io::Piece;
use base_script::push_script_fault;
use cmd_report::push_state;
use cmd_work::{Session, Status, push_closing};
use run_script::{Simulator, kind_of};
use scr_depend::Checked;
use std::alloc::Global;

/// A simulation between two lines of its script.
#[derive(Drop)]
pub(crate) struct Simulation<'a> {
    pub simulator: Simulator<'a>,
    /// The number of the present state, from 0.
    pub count: u64,
}

impl<'a> Simulation<'a> {
    /// A simulation that stands at the initial state.
    pub(crate) fn new(alloc: Global, checked: &'a Checked) -> Result<Simulation<'a>, NoMemory>
        ensures same { IfOk result (λ s. s.simulator.checked.now ≡ checked.now) }
        ensures initial { IfOk result (λ s. IsInitial (data_of checked.now.spec) s.simulator.state.codes) }
        ensures first { IfOk result (λ s. s.count ≡ 0) }
    {
        let simulator = Simulator::new(alloc, checked)?;
        Ok(Simulation {
            simulator,
            count: 0,
        })
    }
}

impl<'a> Session for Simulation<'a> {
    ghost use Rattle.std.specs.Prelude.{◌<◌};
    ghost use Rattle.scr_spec.specs.Shown.{data_of};
    ghost use Rattle.cmd_report.specs.Runs.{state_text};
    ghost use Rattle.cmd_simulate.specs.Simulates.{Simulates};

    ghost answers = { λ s. Simulates (data_of s.simulator.checked.now.spec) s.simulator.state.codes s.count };

    ghost stands = { λ s number. s.count < number };

    ghost opening = { λ s. state_text (data_of s.simulator.checked.now.spec) s.count s.simulator.state.codes };

    fn open(&self, out: &mut Vec<u8>) -> Result<(), NoMemory> {
        push_state(
            out,
            self.simulator.checked.spec(),
            self.count,
            self.simulator.state(),
        )
    }

    fn line(
        &mut self,
        number: u32,
        line: &[u8],
        out: &mut Vec<u8>,
    ) -> Result<Option<Status>, NoMemory> {
        match self.simulator.feed_line(line) {
            Ok(true) => {
                self.count += 1;
                push_state(
                    out,
                    self.simulator.checked.spec(),
                    self.count,
                    self.simulator.state(),
                )?;
                Ok(None)
            }
            Ok(false) => Ok(None),
            Err(fault) => {
                push_script_fault(out, number, kind_of(fault))?;
                Ok(Some(Status::ScriptRefused))
            }
        }
    }

    fn close(&self, number: u32, piece: Piece, out: &mut Vec<u8>) -> Result<Status, NoMemory> {
        push_closing(out, number, piece)
    }
}

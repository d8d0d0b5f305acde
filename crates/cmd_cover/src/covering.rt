//! The coverage of a script between two of its lines.
ghost use Rattle.std.specs.Prelude.{◌≡◌, ◌++◌, [], IfOk, OnOk};
ghost use Rattle.scr_spec.specs.Shown.{data_of};
ghost use Rattle.run_step.specs.Runs.{IsInitial};
ghost use Rattle.run_cover.specs.Tallies.{IsTally};
ghost use Rattle.cmd_cover.specs.Text.{tally_text};

use crate::text::push_tally;
use base::NoMemory;
use base_io::Piece;
use base_script::push_script_fault;
use cmd_work::{Session, Status, push_closing};
use run_cover::Tally;
use run_script::{Simulator, kind_of};
use scr_depend::Checked;
use std::alloc::Global;

/// The coverage of a script between two of its lines.
#[derive(Drop)]
pub(crate) struct Covering<'a> {
    pub simulator: Simulator<'a>,
    pub tally: Tally<'a>,
    // behind `∥ ∥₁`, since no test tells whether two specifications are one
    pub ghost same: { ∥ tally.checked.now ≡ simulator.checked.now ∥₁ },
    pub ghost present: { tally.at.codes ≡ simulator.state.codes },
}

impl<'a> Covering<'a> {
    /// The coverage before the first line.
    pub(crate) fn new(alloc: Global, checked: &'a Checked) -> Result<Covering<'a>, NoMemory>
        ensures same { IfOk result (λ c. c.simulator.checked.now ≡ checked.now) }
        ensures initial { IfOk result (λ c. IsInitial (data_of checked.now.spec) c.simulator.state.codes) }
        ensures none { IfOk result (λ c. IsTally (data_of checked.now.spec) c.simulator.state.codes [] c.tally.counts c.tally.at.codes c.tally.notes) }
    {
        let simulator = Simulator::new(alloc, checked)?;
        let tally = Tally::new(alloc, checked, simulator.state())?;
        Ok(Covering { simulator, tally })
    }

    /// Appends the lines on the inputs so far.
    fn tell(&self, out: &mut Vec<u8>) -> Result<(), NoMemory>
        ensures { OnOk result (out.new.items ≡ out.old.items
            ++ tally_text (data_of self.now.simulator.checked.now.spec) self.now.tally.counts self.now.tally.notes) }
    {
        push_tally(
            out,
            self.simulator.checked.spec(),
            self.tally.counts.as_slice(),
            self.tally.notes,
        )
    }
}

impl<'a> Session for Covering<'a> {
    ghost use Rattle.std.specs.Prelude.{◌<◌, []};
    ghost use Rattle.scr_spec.specs.Shown.{data_of};
    ghost use Rattle.cmd_cover.specs.Covers.{CoversTally};

    ghost answers = { λ s. CoversTally (data_of s.simulator.checked.now.spec) s.tally.counts s.tally.at.codes s.tally.notes };

    ghost stands = { λ s number. s.tally.notes < number };

    ghost opening = { λ s. [] };

    fn open(&self, _out: &mut Vec<u8>) -> Result<(), NoMemory> {
        Ok(())
    }

    fn line(
        &mut self,
        number: u32,
        line: &[u8],
        out: &mut Vec<u8>,
    ) -> Result<Option<Status>, NoMemory> {
        match self.simulator.feed_line(line) {
            Ok(true) => {
                self.tally.note(self.simulator.state());
                Ok(None)
            }
            Ok(false) => Ok(None),
            Err(fault) => {
                self.tell(out)?;
                push_script_fault(out, number, kind_of(fault))?;
                Ok(Some(Status::ScriptRefused))
            }
        }
    }

    fn close(&self, number: u32, piece: Piece, out: &mut Vec<u8>) -> Result<Status, NoMemory> {
        self.tell(out)?;
        push_closing(out, number, piece)
    }
}

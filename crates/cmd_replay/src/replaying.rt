//! A replay between two lines of its script.
ghost use Rattle.std.specs.Prelude.{◌≡◌, ◌++◌, ◌<◌, [], IfOk, OnOk};
ghost use Rattle.scr_spec.specs.Shown.{data_of};
ghost use Rattle.run_step.specs.Runs.{IsInitial};
ghost use Rattle.cmd_report.specs.Runs.{state_text};

use base::NoMemory;
use base_io::Piece;
use base_script::push_script_fault;
use cmd_report::push_state;
use cmd_work::{Session, Status, push_closing};
use run_back::{History, Replayed, kind_of};
use scr_depend::Checked;
use std::alloc::Global;

/// A replay between two lines of its script.
#[derive(Drop)]
pub(crate) struct Replaying<'a> {
    pub history: History<'a>,
}

impl<'a> Replaying<'a> {
    /// A replay that stands at the initial state.
    pub(crate) fn new(alloc: Global, checked: &'a Checked) -> Result<Replaying<'a>, NoMemory>
        ensures same { IfOk result (λ r. r.history.checked.now ≡ checked.now) }
        ensures initial { IfOk result (λ r. IsInitial (data_of checked.now.spec) r.history.state.codes) }
        ensures none { IfOk result (λ r. (r.history.earlier.items ≡ []) × (r.history.number ≡ 0)) }
    {
        Ok(Replaying {
            history: History::new(alloc, checked)?,
        })
    }

    /// Appends the line on the present state, with the number of the inputs that are held.
    fn tell(&self, out: &mut Vec<u8>) -> Result<(), NoMemory>
        ensures { OnOk result (out.new.items ≡ out.old.items
            ++ state_text (data_of self.now.history.checked.now.spec) self.now.history.number self.now.history.state.codes) }
    {
        push_state(
            out,
            self.history.checked.spec(),
            self.history.number(),
            self.history.state(),
        )
    }
}

impl<'a> Session for Replaying<'a> {
    ghost use Rattle.std.specs.Prelude.{◌<◌};
    ghost use Rattle.scr_spec.specs.Shown.{data_of};
    ghost use Rattle.run_back.specs.Kept.{kept};
    ghost use Rattle.cmd_report.specs.Runs.{state_text};
    ghost use Rattle.cmd_replay.specs.Replays.{ReplaysKept};

    ghost answers = { λ s. ReplaysKept (data_of s.history.checked.now.spec) (kept s.history.earlier.items s.history.state.codes s.history.number) };

    ghost stands = { λ s number. s.history.number < number };

    ghost opening = { λ s. state_text (data_of s.history.checked.now.spec) s.history.number s.history.state.codes };

    fn open(&self, out: &mut Vec<u8>) -> Result<(), NoMemory> {
        self.tell(out)
    }

    fn line(
        &mut self,
        number: u32,
        line: &[u8],
        out: &mut Vec<u8>,
    ) -> Result<Option<Status>, NoMemory> {
        match self.history.feed_line(line) {
            Ok(Replayed::Blank) => Ok(None),
            Ok(Replayed::Forward) => {
                self.tell(out)?;
                Ok(None)
            }
            Ok(Replayed::Back) => {
                self.tell(out)?;
                Ok(None)
            }
            Err(fault) => {
                push_script_fault(out, number, kind_of(fault))?;
                Ok(Some(Status::ScriptRefused))
            }
        }
    }

    fn close(&self, number: u32, piece: Piece, out: &mut Vec<u8>) -> Result<Status, NoMemory> {
        push_closing(out, number, piece)
    }
}

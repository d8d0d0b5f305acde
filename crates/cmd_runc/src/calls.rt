//! A unit between two lines of a file of calls.
ghost use Rattle.std.specs.Prelude.{◌≡◌, IfOk};
ghost use Rattle.c_subset.specs.Runs.{initial_objects};

use crate::call::{Taken, take_line};
use crate::texts::{push_objects, push_overflow};
use base::NoMemory;
use base_io::Piece;
use base_script::push_script_fault;
use c_machine::Machine;
use c_subset::CUnit;
use cmd_work::{Session, Status, push_closing};
use std::alloc::Global;

/// A unit between two lines of a file of calls.
#[derive(Drop)]
pub(crate) struct Calls<'a> {
    pub unit: &'a CUnit,
    pub machine: Machine<'a>,
    /// How many calls were made.
    pub count: u64,
}

impl<'a> Calls<'a> {
    /// A unit whose objects have their initial numbers.
    pub(crate) fn new(alloc: Global, unit: &'a CUnit) -> Result<Calls<'a>, NoMemory>
        ensures unit { IfOk result (λ calls. calls.unit.now ≡ unit.now) }
        ensures machine { IfOk result (λ calls. calls.machine ≡ record { unit = unit.now; objects = initial_objects unit.now }) }
        ensures first { IfOk result (λ calls. calls.count ≡ 0) }
    {
        let machine = Machine::new(alloc, unit)?;
        Ok(Calls {
            unit,
            machine,
            count: 0,
        })
    }
}

impl<'a> Session for Calls<'a> {
    ghost use Rattle.cmd_runc.specs.Texts.{objects_text};
    ghost use Rattle.cmd_runc.specs.Runs.{RunsCalls, StandsBefore};

    ghost answers = { λ s. RunsCalls s.machine.unit s.machine.objects s.count };

    ghost stands = { λ s number. StandsBefore s.unit.now s.machine.unit s.count number };

    ghost opening = { λ s. objects_text s.unit.now s.count s.machine.objects };

    fn open(&self, out: &mut Vec<u8>) -> Result<(), NoMemory> {
        push_objects(out, self.unit, self.count, self.machine.objects())
    }

    fn line(
        &mut self,
        number: u32,
        line: &[u8],
        out: &mut Vec<u8>,
    ) -> Result<Option<Status>, NoMemory> {
        match take_line(&mut self.machine, line) {
            Taken::Nothing => Ok(None),
            Taken::Called => {
                self.count += 1;
                push_objects(out, self.unit, self.count, self.machine.objects())?;
                Ok(None)
            }
            Taken::Faulty(kind) => {
                push_script_fault(out, number, kind)?;
                Ok(Some(Status::ScriptRefused))
            }
            Taken::Overflow => {
                push_overflow(out, self.count + 1)?;
                Ok(Some(Status::Findings))
            }
        }
    }

    fn close(&self, number: u32, piece: Piece, out: &mut Vec<u8>) -> Result<Status, NoMemory> {
        push_closing(out, number, piece)
    }
}

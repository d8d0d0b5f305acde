//! The command `runc`: the objects of a unit, and the objects after each call of a file.
ghost use Rattle.std.specs.Prelude.{IfOk, false};
ghost use Rattle.cmd_work.specs.TwoFiles.{IsOwnFirst};
ghost use Rattle.cmd_runc.specs.Firsts.{IsRefusal};

use crate::calls::Calls;
use crate::texts::refused_line;
use base::NoMemory;
use base_io::{Shelf, Sink};
use c_reader::{CFault, read_c};
use c_subset::CUnit;
use cmd_work::{
    Command, First, Loaded, Status, Stop, TwoFiles, answer_lines, both_words, perform_two,
};
use std::alloc::Global;

/// The most bytes that the text of a unit may have.
pub const C_LIMIT: usize = 67_108_864;

/// The line on a text that is refused.
fn refused(alloc: Global, line: u32) -> Result<First<CUnit>, NoMemory>
    ensures exact { IfOk result (IsRefusal line) }
    ensures own { IfOk result IsOwnFirst }
{
    let text = refused_line(alloc, line)?;
    Ok(First::Answer(text, Status::CodeRefused))
}

/// The command `runc`.
#[derive(Drop)]
pub struct RunC;

impl TwoFiles for RunC {
    ghost use Rattle.cmd_runc.specs.declared.command.TheConstants.{C_LIMIT};
    ghost use Rattle.cmd_runc.specs.Runs.{RunCAnswers, RunsFile, ReachesCalls};

    type Base = CUnit;

    ghost answers = { λ _. RunCAnswers };

    ghost reaches = { λ _. ReachesCalls };

    ghost goes = { λ _ unit. RunsFile unit };

    ghost most_bytes = { λ _. C_LIMIT };

    ghost reads_first = { false };

    fn most_bytes(&self) -> usize {
        C_LIMIT
    }

    fn first(&self, alloc: Global, file: Loaded) -> Result<First<CUnit>, NoMemory> {
        let Loaded::Whole(text) = file else {
            return refused(alloc, 0);
        };
        match read_c(alloc, text.as_slice()) {
            Ok(unit) => Ok(First::Base(unit)),
            Err(CFault::Refused(line)) => refused(alloc, line),
            Err(CFault::NoMemory) => Err(NoMemory),
        }
    }

    fn go_on<S: Shelf, K: Sink>(
        &self,
        alloc: Global,
        base: &CUnit,
        name: &str,
        shelf: &mut S,
        out: &mut K,
    ) -> Result<Status, Stop> {
        let mut calls = Calls::new(alloc, base)?;
        answer_lines(&mut calls, alloc, name, shelf, out)
    }
}

impl Command for RunC {
    ghost use Rattle.cmd_runc.specs.Offered.{asked_of};

    ghost takes = { asked_of };

    fn perform<S: Shelf, K: Sink>(
        alloc: Global,
        words: &[String],
        shelf: &mut S,
        out: &mut K,
    ) -> Option<Result<Status, Stop>> {
        let (name, second) = both_words("runc", words)?;
        Some(perform_two(&RunC, alloc, name, second, shelf, out))
    }

    fn is_right() {}
}

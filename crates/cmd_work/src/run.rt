//! A run of the program: what its words ask for is done, or the usage line is written.
ghost use Rattle.std.specs.Prelude.{◌≡◌, List, ℕ, map, string_bytes};
ghost use Rattle.cmd_work.specs.Work.{between};
ghost use Rattle.cmd_work.specs.Run.{IsRun, IsPut, OneAnswer, ending_of};

use crate::command::Command;
use crate::status::{Status, Stop};
use crate::whole::put;
use base_io::{Shelf, Sink};
use std::alloc::Global;

/// How a run ends whose work ended so.
fn ending(done: Result<Status, Stop>) -> Status
    ensures { result ≡ ending_of done }
{
    match done {
        Ok(status) => status,
        Err(Stop::Read) => Status::ReadFault,
        Err(Stop::Write) => Status::WriteFault,
        Err(Stop::NoMemory) => Status::NoMemory,
    }
}

/// Writes the usage line.
fn put_usage<K: Sink>(usage: &[u8], out: &mut K) -> Status
    ensures { IsPut usage.now (K.written out.old) (K.written out.new) (K.faults out.old) (K.faults out.new) result }
{
    match put(out, usage) {
        Ok(()) => Status::Usage,
        Err(_) => Status::WriteFault,
    }
}

/// Does what the words ask of the command: reads from the shelf, writes to the sink, and says how it ended. Words
/// that have no form are answered with the usage line. `NoMemory` may come at any growth of memory.
pub fn run_words<C: Command, S: Shelf, K: Sink>(
    alloc: Global,
    usage: &[u8],
    words: &[String],
    shelf: &mut S,
    out: &mut K,
) -> Status
    ensures { IsRun (between (S.contents shelf.old) (S.steady shelf.old) (S.faults shelf.old) (S.faults shelf.new)
        (K.written out.old) (K.written out.new) (K.faults out.old) (K.faults out.new))
        usage.now (C.takes (map string_bytes words.now)) result }
{
    match C::perform(alloc, words, shelf, out) {
        Some(done) => ending(done),
        None => put_usage(usage, out),
    }
}

/// Words and files have one answer, and never none, whatever the usage line is.
pub fn one_answer_of<C: Command>()
    ensures { (usage : List ℕ) → OneAnswer usage C.takes }
{
    C::is_right();
}

//! A command: the words that it takes, and what it does for them.
ghost use Rattle.std.specs.Prelude.{◌≡◌, List, ℕ, map, string_bytes};
ghost use Rattle.cmd_work.specs.Work.{Asked, IsDone, IsPerformed, AreRight, at_once, by_one, by_two, between};

use crate::no_file::{NoFile, respond_none};
use crate::one_file::{OneFile, respond_one};
use crate::status::{Status, Stop};
use crate::two_files::{TwoFiles, respond_two};
use base_io::{Shelf, Sink};
use std::alloc::Global;

/// A command of the program.
pub trait Command {
    /// What words ask of it, where they have its form.
    ghost takes: { List (List ℕ) → Asked };

    /// Does what the words ask, up to the first fault. `None`: they have another form, and nothing was done.
    fn perform<S: Shelf, K: Sink>(
        alloc: Global,
        words: &[String],
        shelf: &mut S,
        out: &mut K,
    ) -> Option<Result<Status, Stop>>
        ensures { IsPerformed (takes (map string_bytes words.now)) result ((shelf.new ≡ shelf.old) × (out.new ≡ out.old))
            (between (S.contents shelf.old) (S.steady shelf.old) (S.faults shelf.old) (S.faults shelf.new)
            (K.written out.old) (K.written out.new) (K.faults out.old) (K.faults out.new)) };

    /// The law of its answers.
    fn is_right()
        ensures { AreRight takes };
}

/// Two commands: words that the first one does not take are for the second one.
impl<A: Command, B: Command> Command for (A, B) {
    ghost use Rattle.cmd_work.specs.Work.{or_else};

    ghost takes = { λ words. or_else (A.takes words) (B.takes words) };

    fn perform<S: Shelf, K: Sink>(
        alloc: Global,
        words: &[String],
        shelf: &mut S,
        out: &mut K,
    ) -> Option<Result<Status, Stop>> {
        match A::perform(alloc, words, shelf, out) {
            Some(result) => Some(result),
            None => B::perform(alloc, words, shelf, out),
        }
    }

    fn is_right() {
        A::is_right();
        B::is_right();
    }
}

/// Does the work of a command that begins no file.
pub fn perform_none<J: NoFile, S: Shelf, K: Sink>(
    job: &J,
    alloc: Global,
    shelf: &mut S,
    out: &mut K,
) -> Result<Status, Stop>
    ensures { IsDone (between (S.contents shelf.old) (S.steady shelf.old) (S.faults shelf.old) (S.faults shelf.new)
        (K.written out.old) (K.written out.new) (K.faults out.old) (K.faults out.new))
        (at_once (J.answers job.now)) result }
{
    respond_none(job, alloc, out)
}

/// Does the work of a command that reads one file.
pub fn perform_one<J: OneFile, S: Shelf, K: Sink>(
    job: &J,
    alloc: Global,
    name: &str,
    shelf: &mut S,
    out: &mut K,
) -> Result<Status, Stop>
    ensures { IsDone (between (S.contents shelf.old) (S.steady shelf.old) (S.faults shelf.old) (S.faults shelf.new)
        (K.written out.old) (K.written out.new) (K.faults out.old) (K.faults out.new))
        (by_one name.now (J.answers job.now)) result }
{
    respond_one(job, alloc, name, shelf, out)
}

/// Does the work of a command that reads two files.
pub fn perform_two<C: TwoFiles, S: Shelf, K: Sink>(
    command: &C,
    alloc: Global,
    name: &str,
    second: &str,
    shelf: &mut S,
    out: &mut K,
) -> Result<Status, Stop>
    ensures { IsDone (between (S.contents shelf.old) (S.steady shelf.old) (S.faults shelf.old) (S.faults shelf.new)
        (K.written out.old) (K.written out.new) (K.faults out.old) (K.faults out.new))
        (by_two C.reads_first name.now second.now (C.answers command.now) (C.reaches command.now)) result }
{
    respond_two(command, alloc, name, second, shelf, out)
}

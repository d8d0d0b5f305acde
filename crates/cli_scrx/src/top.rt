//! The top call: which words there are, and how a run of them ends.
ghost use Rattle.std.specs.Prelude.{map, string_bytes};
ghost use Rattle.cmd_work.specs.Work.{AreRight, between};
ghost use Rattle.cmd_work.specs.Run.{IsRun, OneAnswer};
ghost use Rattle.cli_scrx.specs.Commands.{usage_text, asked_of};
ghost use Rattle.cli_scrx.specs.Holds.{PrintedReached};

use base_io::{Shelf, Sink};
use cmd_reach::Reach;
use cmd_work::{Command, Status, one_answer_of, run_words};
use std::alloc::Global;

/// Does what the words ask: reads from the shelf, writes to the sink, and says how it ended. Words that have no form are
/// answered with the usage line. `NoMemory` may come at any growth of memory.
pub fn run<S: Shelf, K: Sink>(alloc: Global, words: &[String], shelf: &mut S, out: &mut K) -> Status
    ensures { IsRun (between (S.contents shelf.old) (S.steady shelf.old) (S.faults shelf.old) (S.faults shelf.new)
        (K.written out.old) (K.written out.new) (K.faults out.old) (K.faults out.new))
        usage_text (asked_of (map string_bytes words.now)) result }
{
    run_words::<Reach, S, K>(alloc, b"usage: scrx reach ...\n", words, shelf, out)
}

/// Words and files have one answer, and never none.
pub fn one_answer()
    ensures { OneAnswer usage_text asked_of }
{
    one_answer_of::<Reach>();
}

/// Words end with `Done` where no run breaks an assertion and there is room for all states of each search. Where both files are
/// there and the first one is accepted, they end with `Done`, or with what the assertions or the room gives.
pub fn accepted_ends()
    ensures { AreRight asked_of }
{
    Reach::is_right();
}

/// What `reach` prints on each assertion is so: no run breaks it; or the script is the least of all runs that does; or none does
/// with so few inputs, and the search had no room for one more state.
pub fn printed_reached()
    ensures { PrintedReached }
{}

//! The top call: which words there are, and how a run of them ends.
ghost use Rattle.std.specs.Prelude.{map, string_bytes};
ghost use Rattle.cmd_work.specs.Work.{AreRight, between};
ghost use Rattle.cmd_work.specs.Run.{IsRun, OneAnswer};
ghost use Rattle.cli.specs.Commands.{usage_text, asked_of};
ghost use Rattle.cli.specs.Holds.{
  PrintedRight,
  PrintedHold,
  PrintedAsserted,
  PrintedSlice,
  PrintedStates,
  PrintedReplay,
  PrintedCounts,
  PrintedCode,
  PrintedObjects,
};

use base_io::{Shelf, Sink};
use cmd_assert::Assert;
use cmd_check::Check;
use cmd_cover::Cover;
use cmd_emit::Emit;
use cmd_format::Format;
use cmd_generate::Generate;
use cmd_invariants::Invariants;
use cmd_large::Large;
use cmd_replay::Replay;
use cmd_runc::RunC;
use cmd_simulate::Simulate;
use cmd_slice::Slice;
use cmd_work::{Command, Status, one_answer_of, run_words};
use std::alloc::Global;

/// The commands, in the order of the usage line.
type Commands = (
    Check,
    (
        Simulate,
        (
            Invariants,
            (
                Emit,
                (
                    Format,
                    (
                        RunC,
                        (Generate, (Large, (Assert, (Slice, (Cover, Replay))))),
                    ),
                ),
            ),
        ),
    ),
);

/// Does what the words ask: reads from the shelf, writes to the sink, and says how it ended. Words that have no form are
/// answered with the usage line. `NoMemory` may come at any growth of memory.
pub fn run<S: Shelf, K: Sink>(alloc: Global, words: &[String], shelf: &mut S, out: &mut K) -> Status
    ensures { IsRun (between (S.contents shelf.old) (S.steady shelf.old) (S.faults shelf.old) (S.faults shelf.new)
        (K.written out.old) (K.written out.new) (K.faults out.old) (K.faults out.new))
        usage_text (asked_of (map string_bytes words.now)) result }
{
    run_words::<Commands, S, K>(
        alloc,
        b"usage: scr check|simulate|invariants|emit|format|runc|generate|large|assert|slice|cover|replay ...\n",
        words,
        shelf,
        out,
    )
}

/// Words and files have one answer, and never none.
pub fn one_answer()
    ensures { OneAnswer usage_text asked_of }
{
    one_answer_of::<Commands>();
}

/// Words end with `Done` where nothing is found that another status tells: the files are there and accepted, all verdicts
/// are yes, each class is decided, no line is faulty, no call overflows, and each name is a variable's. Where the files are
/// there and the first one is accepted, they end with `Done`, or with what the second file, the names or the limit gives.
pub fn accepted_ends()
    ensures { AreRight asked_of }
{
    Commands::is_right();
}

/// What `check` prints on a text is right for the one specification that the text spells: each line on a
/// table says what is so of that table, and after `Done` every table is as it must be.
pub fn printed_right()
    ensures { PrintedRight }
{}

/// What `invariants` prints as found holds in every state of every run of the specification that its
/// file spells, whether it ends with `Done`, or with `Undecided` since a class is undecided.
pub fn printed_hold()
    ensures { PrintedHold }
{}

/// What `assert` prints on each assertion is so: one that is proved holds in every state, or at every step, of
/// every run of the specification that its file spells; one that is false at first is so in the first state;
/// and one that is unproved has its least witness.
pub fn printed_asserted()
    ensures { PrintedAsserted }
{}

/// What `slice` writes with `Done` is the slice that the named variables need: it keeps all rules, passes all
/// checks, and each run of the whole is its run on the variables that are kept.
pub fn printed_slice()
    ensures { PrintedSlice }
{}

/// What `simulate` writes with `Done` are the states of the run of its script's inputs, and with `ScriptRefused` those in
/// front of the line at which the script stops, and the line on its fault.
pub fn printed_states()
    ensures { PrintedStates }
{}

/// What `replay` writes with `Done` is, after each line that holds an input or steps back, the last state of the run of the
/// inputs that remain there; with `ScriptRefused` the same up to the first line that is refused, and the line on its fault.
pub fn printed_replay()
    ensures { PrintedReplay }
{}

/// What `cover` writes with `Done` counts for each cell the inputs of the script's run at which it held, and with
/// `ScriptRefused` those of the lines in front of the one at which the script stops.
pub fn printed_counts()
    ensures { PrintedCounts }
{}

/// What `emit` writes with `Done` is a unit that runs as the specification that its file spells.
pub fn printed_code()
    ensures { PrintedCode }
{}

/// What `runc` writes with `Done` are the objects of the unit after each call, with `Findings` those up to the call that has no
/// meaning, and with `ScriptRefused` those up to the faulty line.
pub fn printed_objects()
    ensures { PrintedObjects }
{}

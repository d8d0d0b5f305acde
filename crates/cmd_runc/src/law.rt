//! The laws of `runc`.
ghost use Rattle.std.specs.Prelude.{◌≡◌};
ghost use Rattle.cmd_runc.specs.Laws.{OneAnswerOfCalls};

use crate::command::C_LIMIT;

/// A unit has one answer to a file of calls, and files have one answer of `runc`, and never none. That of a unit
/// tells the objects before the first call and behind each, up to the first call that overflows or the first line
/// that is faulty, if there is one.
pub fn one_answer_of_calls()
    ensures { OneAnswerOfCalls }
{}

/// A text of C has at most 67,108,864 bytes.
pub fn limit_of_code()
    ensures { C_LIMIT ≡ 67108864 }
{}

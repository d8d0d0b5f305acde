//! The law of replays.
ghost use Rattle.cmd_replay.specs.Laws.{OneReplay};

/// A specification that passed its checks has one answer to a script that may step back, and files have
/// one answer of `replay`, and never none. One with Done tells a state after each line that holds an input
/// or steps back, and after no other: the last one of the run of the inputs that remain there. One with
/// ScriptRefused does so up to the first line that is refused, and then tells the fault of this line.
pub fn one_replay()
    ensures { OneReplay }
{}

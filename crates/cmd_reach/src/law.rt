//! The law of searches for broken assertions.
ghost use Rattle.cmd_reach.specs.Laws.{OneReach};

/// Files have one answer of `reach`, and never none; and what is written on each assertion is so.
pub fn one_reach()
    ensures { OneReach }
{}

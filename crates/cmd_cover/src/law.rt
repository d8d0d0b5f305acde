//! The law of coverage.
ghost use Rattle.cmd_cover.specs.Laws.{OneCoverage};

/// A specification that passed its checks has one answer to a script, and files have one answer of `cover`,
/// and never none. One with Done counts the inputs of the script's run at which each cell held, and one with
/// ScriptRefused those of the lines in front of the one at which the script stops, and tells the fault of that one.
pub fn one_coverage()
    ensures { OneCoverage }
{}

//! The law of summaries.
ghost use Rattle.cmd_large.specs.Laws.{OneSummary};

/// A text has one summary, and never none. So each chain has one answer of `large`, which ends with `Done` where
/// nothing is found.
pub fn one_summary()
    ensures { OneSummary }
{}

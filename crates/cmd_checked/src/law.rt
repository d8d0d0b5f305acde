//! The law of checking.
ghost use Rattle.cmd_checked.specs.Laws.{OneChecking};

/// A text has one report, and never none; it passes exactly where that report ends with `Done`, and
/// then with one specification, which is right.
pub fn one_checking()
    ensures { OneChecking }
{}

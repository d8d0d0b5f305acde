//! The law of searches for scripts that break an assertion.
ghost use Rattle.run_broken.specs.Laws.{OneBreak};

/// A search has one answer, and never none. Where it is open, what breaks the assertion needs no fewer inputs.
pub fn one_break()
    ensures { OneBreak }
{}

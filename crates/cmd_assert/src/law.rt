//! The law of assertions.
ghost use Rattle.cmd_assert.specs.Laws.{OneAssertion};

/// Files have one answer of `assert`, and never none; and what is written on each assertion is so.
pub fn one_assertion()
    ensures { OneAssertion }
{}

//! The law of slicing.
ghost use Rattle.cmd_slice.specs.Laws.{OneSlicing};

/// Files have one answer of `slice`, and never none; and what is written for names of variables is right.
pub fn one_slicing()
    ensures { OneSlicing }
{}

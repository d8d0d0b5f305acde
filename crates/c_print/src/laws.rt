//! Laws of the printed text.
ghost use Rattle.c_print.specs.Laws.{ReadsBack};

/// What is printed of a unit that keeps the rules is read as that unit.
pub fn reads_back()
    ensures { ReadsBack }
{}

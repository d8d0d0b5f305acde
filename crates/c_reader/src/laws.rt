//! Laws of the text of a unit.
ghost use Rattle.c_reader.specs.Depth.{BoundedDepth};
ghost use Rattle.c_reader.specs.Laws.{OneOutcome};
ghost use Rattle.c_reader.specs.Plain.{PlainTexts};

use c_subset::switch_changes_nothing;

/// A text is read as one unit or refused at one line, never both and never neither.
pub fn one_outcome()
    ensures { OneOutcome }
{}

/// In a unit that keeps the rules calls nest at most 256 deep, and each expression has a depth of at most 1,543.
pub fn bounded_depth()
    ensures { BoundedDepth }
{}

/// What a text says in the language without `switch` it says in this one, too, and it means the same.
pub fn plain_texts()
    ensures { PlainTexts }
{
    switch_changes_nothing()
}

//! What a text spells, or why it is refused.
ghost use Rattle.scr_resolve.specs.Grouped.{RowsAreGrouped};
ghost use Rattle.scr_resolve.specs.Texts.{OneReading, SpelledIsSound};

/// Each text spells one specification or is refused for one thing, never both and never neither.
pub fn one_reading()
    ensures { OneReading }
{}

/// What a text spells keeps all rules of a specification, so that each law on sound specifications
/// holds of it.
#[tactic(auto, using(crate::proofs::Readings::spelled_is_sound))]
pub fn spelled_is_sound()
    ensures { SpelledIsSound }
{}

/// The `FROM` lines of a mode table are its rows, grouped: a row for each source and in it a cell for
/// each target, both in order of first appearance, with the events of a cell in the order of the lines.
#[tactic(auto, using(crate::proofs::Grouped::rows_are_grouped))]
pub fn rows_are_grouped()
    ensures { RowsAreGrouped }
{}

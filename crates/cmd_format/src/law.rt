//! The law of formatting.
ghost use Rattle.cmd_format.specs.Laws.{OneFormatting};

/// A text has one formatting, or one line on why it has none, and never neither. What is formatted
/// spells the specification that the text spells and no other, where it passes no limit of the
/// reader, and is not changed by formatting it again.
pub fn one_formatting()
    ensures { OneFormatting }
{}

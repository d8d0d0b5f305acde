//! Laws of the lines of a text, and of their limits.
ghost use Rattle.base.specs.Ends.{LinesInTurn};
ghost use Rattle.base.specs.Limits.{LimitsOfLines};

/// A text that is cut into lines at once has the lines that are taken from it one after another: the
/// end of a line is the same for a text in memory and for a file that is read in pieces.
#[tactic(auto, using(crate::proofs::InTurn::lines_in_turn))]
pub fn lines_in_turn()
    ensures { LinesInTurn }
{}

/// A line has at most 4,096 bytes, a name 24 characters, and a number is at most 1,000,000.
pub fn limits_of_lines()
    ensures { LimitsOfLines }
{}

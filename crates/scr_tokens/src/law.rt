//! A law of the tokens of a line.
ghost use Rattle.scr_tokens.specs.Lexing.{OneLexing};

/// A line is read in one way: it has one list of tokens, or one fault.
pub fn one_lexing()
    ensures { OneLexing }
{}

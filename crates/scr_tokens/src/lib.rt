//! The tokens of a line of a specification: names, numbers, reserved words and signs, with their places.
#![tactic(auto)]

mod fault;
mod law;
mod lex;
mod piece;
mod spelling;
mod word;

pub use fault::LexFault;
pub use law::one_lexing;
pub use lex::lex_line;
pub use spelling::keyword_of;
pub use word::{Keyword, Sign, Token, Word, sign_of_relation};

//! Reads the text of a C unit: from bytes to a unit, or the line at which it is refused.
#![tactic(auto)]

mod declared;
mod expr;
mod fault;
mod form;
mod item;
mod kind;
mod labels;
mod laws;
mod lex;
mod measure;
mod nesting;
mod piece;
mod rule;
mod space;
mod spelling;
mod step;
mod stmt;
#[cfg(test)]
mod tests;
mod unit;
mod word;

pub use fault::CFault;
pub use laws::{bounded_depth, one_outcome, plain_texts};
pub use spelling::number_of;
pub use unit::read_c;
pub use word::{Keyword, Sign};

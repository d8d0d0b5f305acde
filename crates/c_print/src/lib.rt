//! Writes the text of a unit of the C subset, which is read as that unit.
#![tactic(auto)]

mod expr;
mod ink;
mod laws;
mod stmt;
#[cfg(test)]
mod tests;
mod unit;

pub use laws::reads_back;
pub use unit::print_c;

//! Worked examples of runs, as tests of the calls that lead from a text to its states.
#![tactic(auto)]

#[cfg(test)]
mod tests;
mod text;

pub use text::checked;

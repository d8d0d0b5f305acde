//! Worked examples of decision diagrams. They return what the tests, and a program for timings, look at.
#![tactic(auto)]

mod formulas;
mod large;
mod small;
mod stores;
#[cfg(test)]
mod tests;

pub use large::{Repeated, atom_again, conjunction_again, disjunction_of_booleans, sum_below};

//! Runs a unit of the C subset: a machine that keeps the numbers of its objects, and calls its functions.
#![tactic(auto)]

mod arith;
mod code;
mod declared;
mod machine;
mod places;
mod resolve;
mod run;
#[cfg(test)]
mod tests;
mod value;

pub use machine::{Machine, MachineFault};

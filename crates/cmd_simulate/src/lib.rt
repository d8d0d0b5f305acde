//! The command `simulate`: the states of a run of a specification, by a script of its inputs.
#![tactic(auto)]

mod law;
mod simulate;
mod simulation;

pub use law::one_simulation;
pub use simulate::Simulate;

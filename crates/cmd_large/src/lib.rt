//! The command `large`: a summary of checking, deriving and simulating a generated chain.
#![tactic(auto)]

mod invariants;
mod job;
mod law;
mod run;
mod spec;
mod summary;
mod text;

pub use job::Large;
pub use law::one_summary;

//! The command `replay`: the states of a run of a specification, by a script of its inputs that may step back.
#![tactic(auto)]

mod law;
mod replay;
mod replaying;

pub use law::one_replay;
pub use replay::Replay;

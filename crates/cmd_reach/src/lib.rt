//! The command `reach`: which assertions are broken by a run of a specification that passes its checks, and
//! by which script.
#![tactic(auto)]

mod law;
mod reach;
mod reading;
mod searching;
mod text;
mod words;

pub use law::one_reach;
pub use reach::Reach;
pub use words::STATES;

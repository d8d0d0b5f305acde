//! The generated chain: a specification of latches, each of which sets the next, as text.
#![tactic(auto)]

mod chain;
mod command;
mod declaration;
mod table;
mod words;

pub use chain::{LAST_LATCH, generate_chain};
pub use command::Generate;
pub use words::last_latch;

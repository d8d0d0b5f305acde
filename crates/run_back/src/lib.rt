//! Scripts that may step back.
#![tactic(auto)]

mod back;
mod fault;
mod history;
mod law;

pub use back::count_back;
pub use fault::{ReplayFault, Replayed, kind_of};
pub use history::History;
pub use law::one_history;

//! At how many inputs of a run each cell of a table held.
#![tactic(auto)]

mod count;
mod law;
mod tally;

pub use count::Count;
pub use law::one_cover;
pub use tally::Tally;

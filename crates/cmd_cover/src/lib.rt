//! The command `cover`: at how many inputs of a script each cell of a specification held.
#![tactic(auto)]

mod cover;
mod covering;
mod law;
mod text;

pub use cover::Cover;
pub use law::one_coverage;

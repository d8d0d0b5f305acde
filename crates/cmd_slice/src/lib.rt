//! The command `slice`: the specification that some variables need.
#![tactic(auto)]

mod law;
mod names;
mod slicing;
mod words;

pub use law::one_slicing;
pub use slicing::Slice;

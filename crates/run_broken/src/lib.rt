//! The least script that breaks an assertion, by a search over the states of the slice that it needs.
//!
//! The slice is searched as a specification of its own, with the numbers of its variables mapped back: the laws of
//! slices and those of searches then stand as they are, and only runs and scripts are to be led from one to the other.
#![tactic(auto)]

mod before;
mod join;
mod law;
mod outside;
mod piece;
mod seek;
mod still;

pub use law::one_break;
pub use seek::seek_break;

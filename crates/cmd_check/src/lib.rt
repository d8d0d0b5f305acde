//! The command `check`: the order and the verdict on each table of a specification, or its cycle.
#![tactic(auto)]

mod check;

pub use check::Check;

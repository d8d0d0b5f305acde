//! The unit of C that runs as a specification.
#![tactic(auto)]

mod cell;
mod condition;
mod event;
mod law;
mod objects;
mod side;
mod table;
mod unit;

pub use law::{every_caller_is_right, unit_is_right, unit_keeps_rules};
pub use unit::unit_of;

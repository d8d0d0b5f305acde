//! The exact texts that the program prints.
#![tactic(auto)]

mod faults;
mod reports;
mod runs;
mod variables;

pub use faults::{push_text_fault, push_type_fault};
pub use reports::{push_cycle, push_order, push_verdict, push_witness};
pub use runs::push_state;

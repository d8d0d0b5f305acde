//! Scripts: one line at a time from the initial state on.
#![tactic(auto)]

mod fault;
mod law;
mod script;
mod simulator;
mod value;
mod word;

pub use fault::{ScriptFault, kind_of};
pub use law::{lines_hold_inputs, one_script};
pub use script::read_line;
pub use simulator::Simulator;

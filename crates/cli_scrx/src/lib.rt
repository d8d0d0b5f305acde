//! The top call of the second program, whose words go beyond those of the first.
#![tactic(auto)]

mod top;

pub use cmd_work::Status;
pub use top::{accepted_ends, one_answer, printed_reached, run};

//! The top call of the program.
#![tactic(auto)]

mod top;

pub use cmd_work::Status;
pub use top::{
    accepted_ends, one_answer, printed_asserted, printed_code, printed_counts, printed_hold,
    printed_objects, printed_replay, printed_right, printed_slice, printed_states, run,
};

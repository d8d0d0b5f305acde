//! One formula, or one conjunction, over the levels of a specification, decided within a limit: its listing is past the
//! limit, or it is never true, or this is its least witness.
#![tactic(auto)]

mod alone;
mod decision;
mod levels;
mod witness;

pub use alone::{decide, decide_conjunction};
pub use decision::{Decision, list_conjunction, list_formula};
pub use levels::{new_store, places};
pub use witness::{Reading, Witness, witness_of};

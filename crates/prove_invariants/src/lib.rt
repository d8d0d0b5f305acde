//! Invariants of modes: which candidates hold in every state of every run.
#![tactic(auto)]

mod change;
mod derived;
mod formula;
mod law;
mod moves;
mod outcomes;
mod round;
mod rounds;
mod setting;
mod standing;
mod trial;

pub use derived::{Derived, Found};
pub use formula::{of_candidate, push_frozen};
pub use law::{invariants_hold, one_derived};
pub use rounds::derive;
pub use trial::{classes, is_class, monitored};

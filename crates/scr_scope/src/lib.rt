//! What a specification, or its lines so far, declares, and what the names in sides, conditions and
//! events stand for.
#![tactic(auto)]

mod added;
mod bound;
mod cond;
mod declared;
mod event;
mod first;
mod known;
mod meaning;
mod names;
mod side;
mod specified;
mod value;

pub use first::{is_among, unless};
pub use known::Known;
pub use meaning::Meaning;
pub use names::Names;
pub use side::has_primes;

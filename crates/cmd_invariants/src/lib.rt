//! The command `invariants`: for each mode class of a specification that passes its checks, the invariants of its modes
//! that are derived.
#![tactic(auto)]

mod classes;
mod derivation;
mod invariants;
mod law;
mod text;

pub use invariants::Invariants;
pub use law::one_derivation;
pub use text::push_derived;

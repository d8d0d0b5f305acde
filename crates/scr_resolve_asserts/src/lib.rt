//! The assertions that a text makes of a specification.
#![tactic(auto)]

mod assertion;
mod law;
mod prime;
mod resolve;
mod rule;

pub use assertion::Assertion;
pub use law::{one_reading, one_resolution, resolved_are_over};
pub use resolve::resolve_assertions;

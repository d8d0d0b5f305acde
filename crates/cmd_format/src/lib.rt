//! The command `format`: the canonical text of a specification.
#![tactic(auto)]

mod format;
mod law;

pub use format::Format;
pub use law::one_formatting;

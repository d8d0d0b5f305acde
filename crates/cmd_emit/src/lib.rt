//! The command `emit`: a specification as a unit of C that runs as it does.
#![tactic(auto)]

mod emit;
mod law;

pub use emit::Emit;
pub use law::one_emission;

//! Resolves the names of a draft: it spells a specification, or one of its lines breaks a rule.
#![tactic(auto)]

mod built;
mod fault;
mod head;
mod law;
mod line;
mod lines;
mod mode;
mod shape;

pub use fault::{TypeFault, TypeKind};
pub use law::{one_reading, rows_are_grouped, spelled_is_sound};
pub use lines::{one_resolution, resolve};

//! The canonical text spells its specification.
#![tactic(auto)]

mod law;
mod text;

pub use law::{canonical_reads, canonical_spells, conds_come_back, spaced_lexes};
pub use text::canonical_text;

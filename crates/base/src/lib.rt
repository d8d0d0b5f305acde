//! Bytes, lines, decimal numbers and names, and what a growth without memory answers: what every layer stands on.
//! It knows nothing of SCR, of C or of diagrams.
#![tactic(auto)]

mod byte;
mod law;
mod limits;
mod line;
mod memory;
mod name;
mod number;
mod relation;

pub use byte::{are_allowed, are_word_bytes, is_allowed, is_blank, is_word_byte};
pub use law::{limits_of_lines, lines_in_turn};
pub use limits::{LINE_LIMIT, NAME_LIMIT, NUMBER_LIMIT};
pub use line::{body_of, cut_line};
pub use memory::NoMemory;
pub use name::Name;
pub use number::{number_of, push_number};
pub use relation::{Relation, holds_between};

//! Lines of a script or of calls: what stands before a comment, its words, and the text on a faulty line.
#![tactic(auto)]

mod fault;
mod word;

pub use fault::{ScriptKind, push_script_fault};
pub use word::{are_digits, cut_word, first_and_rest, is_number, is_readable};

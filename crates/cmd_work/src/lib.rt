//! The orders of work of the commands, by how many files they read, and a run of the program, whose words ask for one of them.
#![tactic(auto)]

mod closing;
mod command;
mod gather;
mod no_file;
mod one_file;
mod run;
mod session;
mod status;
mod two_files;
mod walk;
mod whole;
mod words;

pub use closing::push_closing;
pub use command::{Command, perform_none, perform_one, perform_two};
pub use gather::gather_lines;
pub use no_file::NoFile;
pub use one_file::{OneFile, respond_one};
pub use run::{one_answer_of, run_words};
pub use session::Session;
pub use status::{Status, Stop};
pub use two_files::{First, TwoFiles};
pub use walk::{SCRIPT_LIMIT, answer_lines, limit_of_scripts};
pub use whole::{Loaded, load, put};
pub use words::{behind, both_words, number_in, only_word};

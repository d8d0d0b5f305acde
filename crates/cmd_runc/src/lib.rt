//! The command `runc`: the objects of a C unit, by a file of calls of its functions.
#![tactic(auto)]

mod call;
mod calls;
mod command;
mod law;
#[cfg(test)]
mod tests;
mod texts;

pub use call::{Taken, take_line};
pub use command::{C_LIMIT, RunC};
pub use law::{limit_of_code, one_answer_of_calls};
pub use texts::push_objects;

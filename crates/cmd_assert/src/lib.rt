//! The command `assert`: which assertions are proved of a specification that passes its checks.
#![tactic(auto)]

mod assert;
mod judging;
mod law;
mod reading;
mod text;

pub use assert::Assert;
pub use law::one_assertion;

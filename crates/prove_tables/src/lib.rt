//! Verdicts: whether each table of a specification is as it must be.
#![tactic(auto)]

mod goal;
mod law;
mod outcome;
mod verdict;

pub use law::{one_verdict, some_verdict, verdicts_tell};
pub use outcome::{Outcome, check, is_yes};
pub use prove_decide::{Reading, Witness};
pub use verdict::{Verdict, judge, judge_all};

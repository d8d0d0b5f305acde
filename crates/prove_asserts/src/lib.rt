//! Assertions: whether a condition holds in every state of every run, or between every two
//! neighbouring states, by induction over runs.
#![tactic(auto)]

mod change;
mod formula;
mod judge;
mod law;
mod lemma;
mod setting;
mod verdict;

pub use judge::{judge_assertion, judge_assertions};
pub use law::{
    assertions_hold, derived_lemmas, full_pairs_tell, one_judgement, tests_tell, verdicts_tell,
};
pub use lemma::{Lemma, derive_lemmas};
pub use verdict::AssertVerdict;

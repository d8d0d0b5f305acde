//! Formulas over numbered levels: sums of codes against 0, joined by not, and, or.
#![tactic(auto)]

mod domain;
mod formula;
mod join;

pub use domain::Domain;
pub use formula::{Formula, Linear, Op, Term};

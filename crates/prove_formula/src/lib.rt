//! Formulas over the old and new levels of variables, and the formulas of the parts of a
//! specification.
#![tactic(auto)]

mod cell;
mod condition;
mod event;
mod frozen;
mod level;
mod relation;
mod side;
mod value;
mod violation;

pub use cell::of_cell;
pub use condition::{of_cond, of_pair_cond};
pub use dd_formula::{Formula, Linear, Op, Term};
pub use event::{keeps_code, of_event};
pub use frozen::only_changed;
pub use level::level_at;
pub use relation::{of_own, of_relation};
pub use violation::{of_gap, of_outside};

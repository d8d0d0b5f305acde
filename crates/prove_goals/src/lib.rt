//! What is checked of a table: its goals, and their formulas, which are true exactly of what is
//! wrong.
#![tactic(auto)]

mod formula;
mod goal;
mod law;
mod list;
mod pair;

pub use formula::{goal_formula, goal_formula_for, related_where, wrong_where};
pub use goal::{Goal, GoalKind};
pub use law::{goals_decide, goals_tell, same_unbounded};
pub use list::goals;
pub use pair::{change, pairs, push_need};

//! Breadth-first search over all runs of a specification that passed its checks: the least script that
//! meets what is sought.
#![tactic(auto)]

mod answer;
mod between;
mod inputs;
mod law;
mod paths;
mod search;
mod target;
mod tree;
mod turn;

pub use answer::Answer;
pub use between::cond_holds_between;
pub use inputs::inputs_of;
pub use law::{limit_of_states, one_answer, one_order};
pub use search::{STATE_LIMIT, seek};
pub use target::{CellHolds, IsBroken, Target};

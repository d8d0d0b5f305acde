//! The canonical text of a specification, and of its conditions and values.
#![tactic(auto)]

mod cond;
mod declaration;
mod event;
mod line;
mod names;
mod page;
mod side;
mod table;
mod text;
mod value;

pub use cond::push_cond;
pub use scr_spec::variable_name;
pub use text::print;
pub use value::{push_kind_value, push_value};

//! What the parts of a specification mean at given states (TOSEM 1996). Nothing here takes memory.
#![tactic(auto)]

mod cell;
mod condition;
mod event;
mod side;
mod typed;

pub use cell::cell_holds;
pub use condition::cond_holds;
pub use event::event_holds;
pub use side::expr_value;
pub use typed::is_typed;

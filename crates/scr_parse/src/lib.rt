//! Reads the text of a specification, and a text of assertions: from bytes to statements with their
//! lines.
#![tactic(auto)]

mod assertions;
mod cell;
mod cond;
mod declaration;
mod draft;
mod event;
mod fault;
mod form;
mod limit;
mod line;
mod names;
mod place;
mod side;
mod step;
mod table;
mod text;

pub use assertions::{
    ASSERTION_LIMIT, asserts_readable, one_outcome_of_assertions, read_assertions,
};
pub use draft::{
    Draft, DraftAssertion, DraftCell, DraftChange, DraftCond, DraftEvent, DraftItem, DraftKind,
    DraftOperand, DraftPrim, DraftSide, DraftValue, Numbered, Statement,
};
pub use place::{Counts, Place, Position, TextFault, TextKind};
pub use text::{TEXT_LIMIT, limits_of_texts, one_outcome, read, reads_readable};

//! Sides and conditions over the variables of a specification.
//!
//! Variables, constants and types go by their numbers, in order of declaration from 0.

use base::Relation;
use sqlite_items::{Boxed, Items};

/// Whose list a label stands in: that of a type, or the modes of a class.
#[derive(Clone, Copy, PartialEq, Eq)]
pub enum Owner {
    Named(usize),
    Class(usize),
}

/// What an item multiplies. A primed variable is read in the new state.
#[derive(Clone, Copy, PartialEq, Eq)]
pub enum Operand {
    One,
    Truth(bool),
    Constant(usize),
    Label(Owner, i64),
    Variable(usize),
    Primed(usize),
}

/// A factor times an operand.
#[derive(Clone, Copy, PartialEq, Eq)]
pub struct Item {
    pub factor: i64,
    pub operand: Operand,
}

/// A side: the sum of its items.
#[derive(Drop)]
pub struct Expr {
    pub items: Items<Item>,
}

/// A condition. `Holds` names a Boolean variable. In a text `And` and `Or` have two members or more.
#[derive(Drop)]
pub enum Cond {
    Truth(bool),
    Holds(usize),
    Compare(Expr, Relation, Expr),
    Not(Boxed<Cond>),
    And(Items<Cond>),
    Or(Items<Cond>),
}

//! Events and tables.

use crate::cond::{Cond, Expr};
use sqlite_items::Items;

/// What an event waits for: `@T`, `@F`, `@C` and `NEVER`.
#[derive(Drop)]
pub enum Change {
    Becomes(Cond),
    Ceases(Cond),
    Changes(usize),
    Never,
}

/// A change, with the condition behind `WHEN` if there is one.
#[derive(Drop)]
pub struct Primitive {
    pub change: Change,
    pub guard: Option<Cond>,
}

/// Primitive events joined by `OR`.
#[derive(Drop)]
pub struct Event {
    pub prims: Items<Primitive>,
}

/// A cell: a condition in a condition table, an event in every other table.
#[derive(Drop)]
pub enum Cell {
    Cond(Cond),
    Event(Event),
}

/// A row. It has no modes in a table without a class, and targets, one for each cell, in a mode
/// table alone.
#[derive(Drop)]
pub struct Row {
    pub modes: Items<i64>,
    pub cells: Items<Cell>,
    pub targets: Items<i64>,
}

/// Which kind of table: `CONDITION`, `EVENT` or `MODES`.
#[derive(Clone, Copy, PartialEq, Eq)]
pub enum Heading {
    Condition,
    Event,
    Modes,
}

impl Heading {
    ghost use Rattle.std.specs.Prelude.{◌≡◌};
    ghost use Rattle.scr_spec.specs.Relations.{is_condition};

    /// Whether it is `CONDITION`.
    pub fn is_condition(self) -> bool
        ensures { result ≡ is_condition self }
    {
        match self {
            Heading::Condition => true,
            Heading::Event | Heading::Modes => false,
        }
    }
}

/// The table of a variable. A mode table has no values, and its class is its own variable.
#[derive(Drop)]
pub struct Table {
    pub variable: usize,
    pub heading: Heading,
    pub class: Option<usize>,
    pub rows: Items<Row>,
    pub values: Items<Expr>,
}

//! What a text says, before its names are looked up.

use base::{Name, Relation};
use scr_spec::{Heading, Role};
use sqlite_items::{Boxed, Items};

/// What an item multiplies.
#[derive(Drop)]
pub enum DraftOperand {
    One,
    Truth(bool),
    Plain(Name),
    Primed(Name),
}

/// A factor times an operand.
#[derive(Drop)]
pub struct DraftItem {
    pub factor: i64,
    pub operand: DraftOperand,
}

/// A sum of items.
#[derive(Drop)]
pub struct DraftSide {
    pub items: Items<DraftItem>,
}

/// A condition. In a text `And` and `Or` have two members or more.
#[derive(Drop)]
pub enum DraftCond {
    Alone(DraftSide),
    Compare(DraftSide, Relation, DraftSide),
    Not(Boxed<DraftCond>),
    And(Items<DraftCond>),
    Or(Items<DraftCond>),
}

/// What an event waits for: `@T`, `@F`, `@C` and `NEVER`.
#[derive(Drop)]
pub enum DraftChange {
    Becomes(DraftCond),
    Ceases(DraftCond),
    Changes(Name),
    Never,
}

/// A change, with the condition behind `WHEN` if there is one.
#[derive(Drop)]
pub struct DraftPrim {
    pub change: DraftChange,
    pub guard: Option<DraftCond>,
}

/// Primitive events joined by `OR`.
#[derive(Drop)]
pub struct DraftEvent {
    pub prims: Items<DraftPrim>,
}

/// A cell of a `ROW` line.
#[derive(Drop)]
pub enum DraftCell {
    Cond(DraftCond),
    Event(DraftEvent),
}

/// The type of a variable.
#[derive(Drop)]
pub enum DraftKind {
    Boolean,
    Named(Name),
}

/// The value behind `INIT`.
#[derive(Drop)]
pub enum DraftValue {
    Number(i64),
    Truth(bool),
    Named(Name),
}

/// What one line says. `Variable` is a `MONITORED`, `TERM` or `CONTROLLED` line, `Head` the first
/// line of a table, and `Transition` a `FROM` line.
#[derive(Drop)]
pub enum Statement {
    Specification(Name),
    Range(Name, i64, i64),
    Labels(Name, Items<Name>),
    Constant(Name, i64),
    Variable(Role, Name, DraftKind, Option<DraftValue>),
    Class(Name, Items<Name>, Name),
    Head(Heading, Name, Option<Name>),
    Nat(Name, i64),
    Row(Items<Name>, Items<DraftCell>),
    Values(Items<DraftSide>),
    Transition(Name, Name, DraftEvent),
    End,
    Finish,
}

/// A statement with the number of its line, from 1.
#[derive(Drop)]
pub struct Numbered {
    pub line: u32,
    pub statement: Statement,
}

/// The statements of a text, in order.
#[derive(Drop)]
pub struct Draft {
    pub statements: Items<Numbered>,
}

/// An assertion with the number of its line, from 1.
#[derive(Drop)]
pub struct DraftAssertion {
    pub line: u32,
    pub name: Name,
    pub cond: DraftCond,
}

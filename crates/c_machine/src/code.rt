//! A unit in which objects and functions go by number, in order of declaration from 0. What no rule of the subset allows
//! is kept as `Unknown`, which has no meaning.

use crate::places::Places;
use base::Relation;
use sqlite_items::{Boxed, Items};

/// A term of a sum.
#[cycle(value)]
#[derive(Drop)]
pub(crate) struct Part {
    pub minus: bool,
    pub value: Value,
}

/// An expression. `Unknown` is a name that nothing has.
#[cycle(value)]
#[derive(Drop)]
pub(crate) enum Value {
    Constant(i64),
    Parameter,
    Object(usize),
    Unknown,
    Minus(Boxed<Value>),
    Not(Boxed<Value>),
    Product(Items<Value>),
    Sum(Items<Part>),
    Relate(Boxed<Value>, Relation, Boxed<Value>),
    And(Items<Value>),
    Or(Items<Value>),
}

/// A clause of a `switch`.
#[cycle(action)]
#[derive(Drop)]
pub(crate) struct Case {
    pub label: i64,
    pub body: Items<Action>,
    pub stops: bool,
}

/// A statement. `Unknown` is one with the name of no object or no function.
#[cycle(action)]
#[derive(Drop)]
pub(crate) enum Action {
    Assign(usize, Value),
    If(Value, Items<Action>, Items<Action>),
    Call(usize, Option<Value>),
    Unknown,
    Switch(Value, Items<Case>),
}

/// A function, and whether it has a parameter.
#[derive(Drop)]
pub(crate) struct Routine {
    pub takes: bool,
    pub body: Items<Action>,
}

/// The functions with their names. Each calls only those before it.
#[derive(Drop)]
pub(crate) struct Resolved {
    pub names: Places,
    pub routines: Items<Routine>,
}

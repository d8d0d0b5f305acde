//! States and inputs.

use sqlite_items::Items;

/// One code for each variable, in order of declaration.
#[derive(Drop)]
pub struct State {
    pub codes: Items<i64>,
}

/// A new code for a monitored variable.
#[derive(Clone, Copy, PartialEq, Eq)]
pub struct Input {
    pub variable: usize,
    pub code: i64,
}

//! Formulas: sums of codes against 0, joined by not, and, or.

use sqlite_items::{Boxed, Items};

/// How a sum is compared with 0: it is 0, or it is at most 0.
#[derive(Clone, Copy, PartialEq, Eq, Hash)]
pub enum Op {
    Eq,
    Le,
}

/// A factor times the code of a level. Levels are numbered from 0.
#[derive(Clone, Copy, PartialEq, Eq, Hash)]
pub struct Term {
    pub factor: i64,
    pub level: usize,
}

/// Holds where the sum of its terms and its constant compares with 0 as `op` says. The terms stand
/// in any order, and a level may occur in several of them.
#[derive(Drop)]
pub struct Linear {
    pub terms: Items<Term>,
    pub constant: i64,
    pub op: Op,
}

/// A formula. `And` and `Or` may have any number of members, none included.
#[derive(Drop)]
pub enum Formula {
    True,
    False,
    Atom(Linear),
    Not(Boxed<Formula>),
    And(Items<Formula>),
    Or(Items<Formula>),
}

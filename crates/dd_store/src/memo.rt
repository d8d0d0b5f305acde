//! What the memo of operations is asked for.

use crate::id::Id;

/// The operations that the memo knows.
#[derive(Clone, Copy, PartialEq, Eq, Hash)]
pub enum Join {
    And,
    Or,
    Not,
}

/// An operation on two Ids, which for `Not` are one.
#[derive(Clone, Copy, PartialEq, Eq, Hash)]
pub struct MemoKey {
    pub join: Join,
    pub left: Id,
    pub right: Id,
}

//! Sorts of values.

use crate::cond::Owner;

/// Which values may be compared: two integers, two Booleans, or two labels of the same list.
#[derive(Clone, Copy, PartialEq, Eq)]
pub enum Sort {
    Integer,
    Boolean,
    Labels(Owner),
}

//! The limit of a store, as a number.
ghost use Rattle.std.specs.Prelude.{◌≡◌};

use crate::store::SPLIT_LIMIT;

/// A store has at most 40,000 splits.
pub fn limit_of_splits()
    ensures { SPLIT_LIMIT ≡ 40000 }
{}

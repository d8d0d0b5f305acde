//! Laws of searches.
ghost use Rattle.std.specs.Prelude.{◌≡◌};
ghost use Rattle.run_reach.specs.Laws.{OneOrder, OneAnswer};

use crate::search::STATE_LIMIT;

/// A search may have room for 1,000,000 states.
pub fn limit_of_states()
    ensures { STATE_LIMIT ≡ 1000000 }
{}

/// Of two scripts one comes before the other, or they are the same.
pub fn one_order()
    ensures { OneOrder }
{}

/// A search has one answer, and never none. Where it is open, what is sought needs more inputs; where it is not, more
/// room makes no difference.
pub fn one_answer()
    ensures { OneAnswer }
{}

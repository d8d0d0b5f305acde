//! The specification that some variables need.
#![tactic(auto)]

mod closure;
mod law;
mod mentions;
mod part;
mod renumbered;

pub use closure::kept;
pub use law::{
    kept_is_keepable, one_slice, same_runs, same_truth, slice_is_sound, slice_meets_checks,
};
pub use mentions::cond_mentions;
pub use part::slice;
pub use renumbered::condition;

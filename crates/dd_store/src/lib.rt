//! A canonical store of decision diagrams: one node per split, shared by all trees that have it.
//!
//! A tree has one child per code of its level. A node keeps runs of equal children in place of one child
//! per code, and contracts speak of the trees alone.
#![tactic(auto)]

ghost use Rattle.dd_store.specs.Kept.{OneIdPerTree};

mod atoms;
mod id;
mod law;
mod memo;
mod node;
mod results;
mod store;

pub use atoms::AtomKey;
pub use id::Id;
pub use law::limit_of_splits;
pub use memo::{Join, MemoKey};
pub use node::{Stretch, View};
pub use store::{SPLIT_LIMIT, Store, StoreFault};

/// In every store distinct Ids have distinct trees, each ordered and reduced, with all its inner
/// subtrees in the store, and beside the leaves there are at most as many trees as the limit.
pub fn one_id_per_tree()
    ensures { OneIdPerTree }
{}

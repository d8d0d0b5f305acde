//! Nodes, with runs of equal children in place of one child per code.

ghost use Rattle.std.specs.Prelude.{◌≡◌, ◌<◌, ◌≤◌, length, Contains, IfOk, OnErr};
ghost use Rattle.std.specs.List.{AllByRecursion};
ghost use Rattle.dd_store.specs.Runs.{children_of, RiseFrom, AreJoinedFrom};
ghost use Rattle.dd_store.specs.Keys.{node_of, nodes_of, IsJoinedKey, Puts};

use crate::id::Id;
use crate::store::StoreFault;
use base::NoMemory;
use indexmap::IndexSet;
use std::alloc::Global;

/// A run of equal children. `last` is the position in the level's domain of the run's last code, from
/// 0, and a run begins after the one before it.
#[derive(Clone, Copy, PartialEq, Eq, Hash)]
pub struct Stretch {
    pub last: u32,
    pub child: Id,
}

/// What an Id stands for: a leaf's truth, or a node's level and runs.
#[derive(Clone, Copy)]
pub enum View<'a> {
    Leaf(bool),
    Node(usize, &'a [Stretch]),
}

/// What makes a node the one that it is. No run is empty, and neighbours have different children.
#[derive(PartialEq, Eq, Hash, Drop)]
pub(crate) struct NodeKey {
    pub(crate) level: usize,
    pub(crate) runs: Vec<Stretch>,
}

/// Puts a node last, where it is not there and there is room, and gives its place.
pub(crate) fn put(
    nodes: &mut IndexSet<NodeKey>,
    key: NodeKey,
    limit: usize,
) -> Result<usize, StoreFault>
    requires joined { AllByRecursion IsJoinedKey nodes.old.keys }
    requires key { IsJoinedKey key }
    ensures placed { IfOk result (Puts (nodes_of nodes.old.keys) (nodes_of nodes.new.keys) (node_of key) limit) }
    ensures joined { AllByRecursion IsJoinedKey nodes.new.keys }
    ensures full { result ≡ Err StoreFault.Full → limit ≤ length nodes.old.keys }
    ensures absent { result ≡ Err StoreFault.Full → Contains (nodes_of nodes.old.keys) (node_of key) → ⊥ }
    ensures err { OnErr result (nodes.new.keys ≡ nodes.old.keys) }
{
    if nodes.len() < limit {
        let (place, _) = nodes.insert_full(key)?;
        return Ok(place);
    }
    nodes.get_index_of(&key).ok_or(StoreFault::Full)
}

/// The runs with neighbours joined that have one child, in no more room than they take.
pub(crate) fn join_runs(alloc: Global, runs: &[Stretch]) -> Result<Vec<Stretch>, NoMemory>
    requires rise { RiseFrom 0 runs.now }
    requires some { 0 < length runs.now }
    ensures joined { IfOk result (λ out. AreJoinedFrom 0 out.items) }
    ensures same { IfOk result (λ out. children_of out.items ≡ children_of runs.now) }
    ensures some { IfOk result (λ out. 0 < length out.items) }
{
    let mut out = Vec::with_capacity(alloc, runs.len())?;
    let mut tail = runs[0];
    for index in 1..runs.len() {
        let run = runs[index];
        if run.child != tail.child {
            out.push(tail)?;
        }
        tail = run;
    }
    out.push(tail)?;
    out.shrink_to_fit();
    Ok(out)
}

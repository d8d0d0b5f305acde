//! The store.

ghost use Rattle.std.specs.Prelude.{◌≡◌, ℕ, ◌+◌, ◌<◌, ◌≤◌, length, IfOk, OnErr, OnOk, IfSome, slice_get, slice_index, Some, []};
ghost use Rattle.std.specs.List.{All};
ghost use Rattle.std.specs.Map.{lookup};
ghost use Rattle.lru.specs.LruCache.{promoted};
ghost use Rattle.dd_tree.specs.Tree.{leaf};
ghost use Rattle.dd_tree.specs.Added.{add_tree};
ghost use Rattle.dd_store.specs.Domains.{IsDomain, code_at};
ghost use Rattle.dd_store.specs.Runs.{children_of, RiseFrom};
ghost use Rattle.dd_store.specs.Held.{Held, sizes, leaves, trees, IsKnown, Has, IsSameButMemo};
ghost use Rattle.dd_store.specs.Memo.{IsResult, key_eq, key_of, noted};
ghost use Rattle.dd_store.specs.Atoms.{IsAtomOf};
ghost use Rattle.dd_store.specs.Kept.{IsHeld};
ghost use Rattle.dd_store.specs.Split.{IsSplit, split_of, HasNoRoom, Shows};

use crate::atoms::{AtomKey, find_atom, keep_atom};
use crate::id::Id;
use crate::memo::{Join, MemoKey};
use crate::node::{NodeKey, Stretch, View, join_runs, put};
use crate::results::{find, keep};
use base::NoMemory;
use dd_formula::Domain;
use indexmap::{IndexMap, IndexSet};
use lru::LruCache;
use std::alloc::{AllocFailed, Global};
use std::marker::Model;
use std::num::NonZeroUsize;
use thiserror::Error;

/// The greatest limit of a store, in nodes.
pub const SPLIT_LIMIT: u32 = 40_000;

/// How many answers the memo keeps.
pub(crate) const MEMO_ENTRIES: usize = 16_384;

/// Why a store makes no node.
#[derive(Clone, Copy, Debug, PartialEq, Eq, Error)]
pub enum StoreFault {
    #[error("the store has as many nodes as its limit")]
    Full,
    #[error("out of memory")]
    NoMemory,
}

impl From<NoMemory> for StoreFault {
    ghost use Rattle.dd_store.specs.declared.store.StoreFault.{StoreFault};

    ghost from_gives = { λ _ fault. fault ≡ StoreFault.NoMemory };

    fn from(_: NoMemory) -> StoreFault {
        StoreFault::NoMemory
    }
}

impl<T: Drop> From<AllocFailed<T>> for StoreFault {
    ghost use Rattle.dd_store.specs.declared.store.StoreFault.{StoreFault};

    ghost from_gives = { λ _ fault. fault ≡ StoreFault.NoMemory };

    fn from(_: AllocFailed<T>) -> StoreFault {
        StoreFault::NoMemory
    }
}

/// Nodes without repeats, each behind its children, and a memo of operations on them.
///
/// Contracts see the list of the trees that it holds, the two leaves first and then those of its nodes;
/// an Id is a place in it.
#[derive(Drop)]
pub struct Store {
    domains: Vec<Domain>,
    limit: u32,
    nodes: IndexSet<NodeKey>,
    memo: LruCache<MemoKey, Id>,

    // Results of operations that contracts do not see. An operation on two trees is worked out once
    // while there is room for its result here, however many others come between.
    results: IndexMap<MemoKey, Id>,

    // Trees of atoms that contracts do not see.
    atoms: IndexMap<AtomKey, Id>,
}

impl Model for Store {
    ghost use Rattle.dd_store.specs.Held.{Held};

    ghost Value = { Held };

    ghost use Rattle.dd_store.specs.Inner.{held_by, IsInside};

    ghost view = { held_by };

    ghost invariant = { IsInside };
}

impl Store {
    /// A store of the two leaves alone. Each domain is that of a level, in order.
    pub fn new(alloc: Global, domains: Vec<Domain>, limit: u32) -> Result<Store, NoMemory>
        requires codes { All IsDomain domains.items }
        requires limit { limit ≤ SPLIT_LIMIT }
        ensures domains { IfOk result (λ store. store.domains ≡ domains.items) }
        ensures limit { IfOk result (λ store. store.limit ≡ limit) }
        ensures trees { IfOk result (λ store. trees store ≡ leaves) }
        ensures memo { IfOk result (λ store. store.entries ≡ []) }
        ensures held { IfOk result IsHeld }
    {
        let Some(entries) = NonZeroUsize::new(MEMO_ENTRIES) else {
            unreachable!()
        };
        let memo = LruCache::new(alloc, entries)?;
        Ok(Store {
            domains,
            limit,
            nodes: IndexSet::new(alloc),
            memo,
            results: IndexMap::new(alloc),
            atoms: IndexMap::new(alloc),
        })
    }

    /// The leaf of a truth, which is the same in every store.
    pub fn leaf(value: bool) -> Id
        ensures { (held : Held) → Has held result (leaf value) }
    {
        Id {
            number: value as u32,
        }
    }

    /// The number of nodes.
    pub fn count(&self) -> u32
        ensures count { result + 2 ≡ length (trees self.now) }
        ensures held { IsHeld self.now }
    {
        self.nodes.len() as u32
    }

    /// The leaf, or the node with its runs.
    pub fn node(&self, id: Id) -> View<'_>
        requires { IsKnown self.now id }
        ensures shows { Shows self.now id result }
        ensures held { IsHeld self.now }
    {
        let nodes = &self.nodes;
        if id.number < 2 {
            return View::Leaf(id.number == 1);
        }
        match nodes.get_index(id.number as usize - 2) {
            Some(key) => View::Node(key.level, key.runs.as_slice()),
            None => unreachable!(),
        }
    }

    /// Nothing at run time. It tells a proof what every store keeps, which reading a field opens.
    pub fn reveal(&self)
        ensures { IsHeld self.now }
    {
        let _limit = self.limit;
    }

    /// The allocator that the store was made with.
    pub fn allocator(&self) -> Global {
        *self.domains.allocator()
    }

    /// The number of levels.
    pub fn levels(&self) -> usize
        ensures levels { result ≡ length self.now.domains }
        ensures held { IsHeld self.now }
    {
        self.domains.len()
    }

    /// The domain of a level.
    pub fn domain(&self, level: usize) -> Domain
        requires { level < length self.now.domains }
        ensures domain { slice_get self.now.domains level ≡ Some result }
        ensures codes { IsDomain result }
        ensures held { IsHeld self.now }
    {
        self.domains[level]
    }

    /// The code at a position of a level's domain.
    pub fn code(&self, level: usize, position: usize) -> i64
        requires level { level < length self.now.domains }
        requires position { position < slice_index (sizes self.now) level }
        ensures code { result ≡ code_at self.now.domains level position }
        ensures held { IsHeld self.now }
    {
        let domain = self.domains[level];
        domain.lo + position as i64
    }

    /// The split on a level in which each code has the child of its run, or that child itself where all
    /// are equal. Neighbouring runs may have equal children.
    pub fn mk(&mut self, level: usize, runs: &[Stretch]) -> Result<Id, StoreFault>
        requires rise { RiseFrom 0 runs.now }
        requires split { IsSplit self.old level (children_of runs.now) }
        ensures tree { IfOk result (λ id. Has self.new id (split_of self.old level runs.now)) }
        ensures trees { OnOk result (trees self.new ≡ add_tree (trees self.old) (split_of self.old level runs.now)) }

        // Full exactly where the split would be a new node, for which there is no room.
        ensures full { result ≡ Err StoreFault.Full → HasNoRoom self.old (split_of self.old level runs.now) }
        ensures fits { OnOk result (HasNoRoom self.old (split_of self.old level runs.now) → ⊥) }

        ensures err { OnErr result (self.new ≡ self.old) }
        ensures domains { self.new.domains ≡ self.old.domains }
        ensures limit { self.new.limit ≡ self.old.limit }
        ensures memo { self.new.entries ≡ self.old.entries }
        ensures held { IsHeld self.new }
    {
        let limit = self.limit as usize;
        let joined = join_runs(*self.domains.allocator(), runs)?;
        let stretches = joined.as_slice();
        if stretches.len() == 1 {
            return Ok(stretches[0].child);
        }
        let key = NodeKey {
            level,
            runs: joined,
        };
        let place = put(&mut self.nodes, key, limit)?;
        Ok(Id {
            number: place as u32 + 2,
        })
    }

    /// The tree of an atom that was noted before, if it is still kept.
    pub fn atom(&self, key: &AtomKey) -> Option<Id>
        ensures right { IfSome result (IsAtomOf self.now key.now) }
        ensures held { IsHeld self.now }
    {
        find_atom(&self.atoms, key)
    }

    /// Keeps the tree of an atom, where there is room and memory for it.
    pub fn note_atom(&mut self, key: AtomKey, answer: Id)
        requires { IsAtomOf self.old key answer }
        ensures same { self.new ≡ self.old }
        ensures held { IsHeld self.new }
    {
        keep_atom(&mut self.atoms, key, answer);
    }

    /// The result of an operation that was noted before, if it is still kept beside the memo.
    pub fn result(&self, join: Join, f: Id, g: Id) -> Option<Id>
        ensures right { IfSome result (IsResult self.now (key_of join f g)) }
        ensures held { IsHeld self.now }
    {
        find(
            &self.results,
            MemoKey {
                join,
                left: f,
                right: g,
            },
        )
    }

    /// The answer that the memo has for an operation. Its entry is then the last used.
    pub fn recall(&mut self, join: Join, f: Id, g: Id) -> Option<Id>
        ensures found { result ≡ lookup (key_eq (key_of join f g)) self.old.entries }
        ensures right { IfSome result (IsResult self.new (key_of join f g)) }
        ensures memo { self.new.entries ≡ promoted (key_eq (key_of join f g)) self.old.entries }
        ensures same { IsSameButMemo self.old self.new }
        ensures held { IsHeld self.new }
    {
        self.memo
            .get(&MemoKey {
                join,
                left: f,
                right: g,
            })
            .copied()
    }

    /// Keeps the answer of an operation. Its entry is then the last used.
    pub fn note(&mut self, join: Join, f: Id, g: Id, answer: Id) -> Result<(), NoMemory>
        requires { IsResult self.old (key_of join f g) answer }
        ensures memo { OnOk result (self.new.entries ≡ noted self.old.entries (key_of join f g) answer) }
        ensures err { OnErr result (self.new ≡ self.old) }
        ensures same { IsSameButMemo self.old self.new }
        ensures held { IsHeld self.new }
    {
        let key = MemoKey {
            join,
            left: f,
            right: g,
        };
        keep(&mut self.results, &key, answer);
        self.memo.put(key, answer)?;
        Ok(())
    }
}

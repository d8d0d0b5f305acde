//! The states that a search reached.
ghost use Rattle.std.specs.Prelude.{◌≡◌, ◌<◌, ◌^◌, ◌++◌, ◌∷◌, [], length, false, OnOk, OnErr, IfOk};
ghost use Rattle.run_reach.specs.Trees.{codes_at, link_at, no_link, has_codes};

use base::NoMemory;
use indexmap::IndexMap;
use scr_spec::{Input, State};
use sqlite_items::Items;
use std::alloc::Global;
use std::marker::Model;

/// What led to a state: the number of the state before it, the input, and how many inputs there are from
/// the first state on.
#[derive(Clone, Copy)]
pub(crate) struct Link {
    pub parent: usize,
    pub input: Input,
    pub depth: usize,
}

/// What is said to lead to the first state.
pub(crate) fn no_link() -> Link
    ensures { result ≡ no_link }
{
    let input = Input {
        variable: 0,
        code: 0,
    };
    Link {
        parent: 0,
        input,
        depth: 0,
    }
}

/// States in the order in which they were reached, each once, with what led there. Contracts see a list
/// of their codes and links.
#[derive(Drop)]
pub(crate) struct Tree {
    map: IndexMap<Vec<i64>, Link>,
}

impl Model for Tree {
    ghost use Rattle.run_reach.specs.Trees.{Tree as Nodes, nodes_of};
    ghost use Rattle.std.specs.Coded.{codes};
    ghost use Rattle.run_reach.specs.contracts.tree.Link as link;

    ghost Value = { Nodes };

    ghost coded = { Prim.hlevel (codes, link.the_row.coded) };

    ghost view = { λ s. nodes_of s.map.entries };
}

impl Tree {
    /// Before the first state.
    pub fn new(alloc: Global) -> Tree
        ensures { result ≡ [] }
    {
        Tree {
            map: IndexMap::new(alloc),
        }
    }

    /// How many states there are.
    pub fn len(&self) -> usize
        ensures count { result ≡ length self.now }
        ensures small { result < 2 ^ 63 }
    {
        self.map.len()
    }

    /// The codes of the state with this number.
    pub fn codes(&self, number: usize) -> &[i64]
        requires { number < length self.now }
        ensures { result.now ≡ codes_at self.now number }
    {
        match self.map.get_index(number) {
            Some((codes, _)) => codes.as_slice(),
            None => unreachable!(),
        }
    }

    /// What led to the state with this number. Nothing led to one that is not there.
    pub fn link(&self, number: usize) -> Link
        ensures { result ≡ link_at self.now number }
    {
        match self.map.get_index(number) {
            Some((_, link)) => *link,
            None => no_link(),
        }
    }

    /// A copy of the state with this number.
    pub fn state(&self, alloc: Global, number: usize) -> Result<State, NoMemory>
        requires { number < length self.now }
        ensures { IfOk result (λ state. state.codes ≡ codes_at self.now number) }
    {
        let codes = Items::from_slice(alloc, self.codes(number))?;
        Ok(State { codes })
    }

    /// Whether the state is there.
    pub fn has(&self, at: &State) -> bool
        ensures { result ≡ has_codes self.now at.now.codes }
    {
        self.map.contains_key(at.codes.as_slice())
    }

    /// Puts a state last that is not there.
    pub fn add(&mut self, alloc: Global, at: &State, link: Link) -> Result<(), NoMemory>
        requires { has_codes self.old at.now.codes ≡ false }
        ensures ok { OnOk result (self.new ≡ self.old ++ (at.now.codes, link) ∷ []) }
        ensures err { OnErr result (self.new ≡ self.old) }
    {
        let key = Vec::from_slice(alloc, at.codes.as_slice())?;
        self.map.insert(key, link)?;
        Ok(())
    }
}

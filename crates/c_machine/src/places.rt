//! Names by number.
ghost use Rattle.std.specs.Prelude.{◌≡◌, [], ◌∷◌, ◌++◌, OnOk};
ghost use Rattle.std.specs.Option.{option_map};
ghost use Rattle.c_subset.specs.Meaning.{place_of};
ghost use Rattle.c_machine.specs.Last.{last_place};

use base::{Name, NoMemory};
use indexmap::IndexMap;
use sqlite_items::Items;
use std::alloc::Global;
use std::marker::Model;

/// The first and the last number of a name.
#[derive(Clone, Copy)]
pub(crate) struct Ends {
    pub first: usize,
    pub last: usize,
}

/// Names, each with a number: how many were added before it. A name may be added more than once. It is looked up in
/// a map, so that resolving a unit takes time in proportion to its length. Contracts see the list of names.
#[derive(Drop)]
pub(crate) struct Places {
    names: Items<Name>,
    ends: IndexMap<Vec<u8>, Ends>,
}

impl Model for Places {
    ghost use Rattle.std.specs.Prelude.{ℕ, List};
    ghost use Rattle.c_machine.specs.Places.{HasEnds};

    ghost Value = { List (List ℕ) };

    ghost view = { λ p. p.names };

    ghost invariant = { λ p. HasEnds p.names p.ends.entries };
}

impl Places {
    /// Before the first name.
    pub fn new(alloc: Global) -> Places
        ensures { result ≡ [] }
    {
        Places {
            names: Items::new(alloc),
            ends: IndexMap::new(alloc),
        }
    }

    fn get(&self, name: &[u8]) -> Option<Ends>
        ensures first { option_map (λ e. e.first) result ≡ place_of self.now name.now }
        ensures last { option_map (λ e. e.last) result ≡ last_place self.now name.now }
    {
        self.ends.get(name).copied()
    }

    /// The first number of the name.
    pub fn first(&self, name: &[u8]) -> Option<usize>
        ensures { result ≡ place_of self.now name.now }
    {
        self.get(name).map(|ends| ends.first)
    }

    /// The last number of the name.
    pub fn last(&self, name: &[u8]) -> Option<usize>
        ensures { result ≡ last_place self.now name.now }
    {
        self.get(name).map(|ends| ends.last)
    }

    /// Gives the name the next number.
    pub fn push(&mut self, alloc: Global, name: &Name) -> Result<(), NoMemory>
        ensures { OnOk result (self.new ≡ self.old ++ name.now ∷ []) }
    {
        let last = self.names.len();
        let first = self.first(name.as_slice()).unwrap_or(last);
        let key = Vec::from_slice(alloc, name.as_slice())?;
        let name = name.copy(alloc)?;
        self.names.push(name)?;
        match self.ends.insert(key, Ends { first, last }) {
            Ok(_) => Ok(()),
            Err(_) => {
                let _unnumbered = self.names.pop();
                Err(NoMemory)
            }
        }
    }
}

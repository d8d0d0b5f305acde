//! The declared names.
ghost use Rattle.std.specs.Prelude.{◌≡◌, [], OnOk};
ghost use Rattle.scr_scope.specs.Names.{meaning_of, with_name};

use crate::meaning::Meaning;
use base::{Name, NoMemory};
use indexmap::IndexMap;
use std::alloc::Global;
use std::marker::Model;

/// The declared names in order of declaration. Contracts see a list of names with what each stands
/// for.
#[derive(Drop)]
pub struct Names {
    map: IndexMap<Vec<u8>, Meaning>,
}

impl Model for Names {
    ghost use Rattle.scr_scope.specs.Names.{NameList, entries_of};
    ghost use Rattle.std.specs.Coded.{codes};
    ghost use Rattle.scr_scope.specs.contracts.meaning.Meaning as meaning;

    ghost Value = { NameList };

    ghost coded = { Prim.hlevel (codes, meaning.the_row.coded) };

    ghost view = { λ s. entries_of s.map.entries };
}

impl Names {
    /// Before the first name.
    pub fn new(alloc: Global) -> Names
        ensures { result ≡ [] }
    {
        Names {
            map: IndexMap::new(alloc),
        }
    }

    /// What the name stands for. None where it is not declared.
    pub fn get(&self, name: &Name) -> Option<Meaning>
        ensures { result ≡ meaning_of self.now name.now }
    {
        self.map.get(name.as_slice()).copied()
    }

    /// Declares a name. One that is declared keeps what it stands for.
    pub fn add(&mut self, alloc: Global, name: &Name, meaning: Meaning) -> Result<(), NoMemory>
        ensures { OnOk result (self.new ≡ with_name self.old name.now meaning) }
    {
        if self.map.contains_key(name.as_slice()) {
            return Ok(());
        }
        let key = Vec::from_slice(alloc, name.as_slice())?;
        self.map.insert(key, meaning)?;
        Ok(())
    }
}

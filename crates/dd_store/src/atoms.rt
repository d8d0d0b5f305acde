//! The trees of atoms, each kept for as long as the store, where there are not too many.

ghost use Rattle.std.specs.Prelude.{IfSome};
ghost use Rattle.dd_store.specs.Atoms.{IsFoundAtom, AreKeptAtoms};

use crate::id::Id;
use dd_formula::{Op, Term};
use indexmap::IndexMap;

/// How many atoms' trees are kept.
pub(crate) const ATOM_ENTRIES: usize = 100_000;

/// What makes an atom the one that it is.
#[derive(PartialEq, Eq, Hash, Drop)]
pub struct AtomKey {
    pub terms: Vec<Term>,
    pub constant: i64,
    pub op: Op,
}

/// The tree that is kept for an atom.
pub(crate) fn find_atom(atoms: &IndexMap<AtomKey, Id>, key: &AtomKey) -> Option<Id>
    ensures { IfSome result (IsFoundAtom atoms.now.entries key.now) }
{
    atoms.get(key).copied()
}

/// Keeps an atom's tree, where there is room and memory for it.
pub(crate) fn keep_atom(atoms: &mut IndexMap<AtomKey, Id>, key: AtomKey, answer: Id)
    ensures { AreKeptAtoms atoms.old.entries key answer atoms.new.entries }
{
    if atoms.len() < ATOM_ENTRIES {
        let _kept = atoms.insert(key, answer);
    }
}

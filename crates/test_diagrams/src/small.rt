//! Small examples.

ghost use Rattle.std.specs.Prelude.{◌≤◌};

use crate::formulas::ones_at;
use crate::stores::{atom_on, equal_levels, places};
use dd_build::build;
use dd_formula::{Formula, Op, Term};
use dd_store::{Join, Store, StoreFault};
use dd_witness::least;
use std::alloc::Global;

/// What `least` found, and how many nodes the store had.
#[derive(Drop)]
pub(crate) struct Least {
    pub count: u32,
    pub found: bool,
    pub codes: Vec<i64>,
}

/// How many nodes there are after the conjunction of two Booleans on levels 0 and 2 of 4, and how many
/// after its negation.
pub(crate) fn pair_and_negation(alloc: Global, limit: u32) -> Result<(u32, u32), StoreFault>
    requires { limit ≤ 40000 }
{
    let mut store = equal_levels(alloc, 4, 1, limit)?;
    let both = ones_at(alloc, 0, 2)?;
    build(&mut store, &both)?;
    let first = store.count();
    let neither = Formula::negation(alloc, both)?;
    build(&mut store, &neither)?;
    Ok((first, store.count()))
}

/// The least codes from 0 to 3 of two levels whose sum is 3.
pub(crate) fn least_sum(alloc: Global) -> Result<Least, StoreFault> {
    let mut store = equal_levels(alloc, 2, 3, 40000)?;
    let terms = [
        Term {
            factor: 1,
            level: 0,
        },
        Term {
            factor: 1,
            level: 1,
        },
    ];
    let id = atom_on(alloc, &mut store, Op::Eq, &terms, -3)?;
    let mut codes = places(alloc, &[9, 9])?;
    let found = least(&store, id, codes.as_mut_slice());
    Ok(Least {
        count: store.count(),
        found,
        codes,
    })
}

/// Whether a code less itself is at most 0 is the leaf true, and how many nodes there are.
pub(crate) fn never_positive(alloc: Global) -> Result<(bool, u32), StoreFault> {
    let mut store = equal_levels(alloc, 1, 3, 40000)?;
    let terms = [
        Term {
            factor: 1,
            level: 0,
        },
        Term {
            factor: -1,
            level: 0,
        },
    ];
    let id = atom_on(alloc, &mut store, Op::Le, &terms, 0)?;
    Ok((id == Store::leaf(true), store.count()))
}

/// What `least` makes of codes 7 and 8 at the leaf false.
pub(crate) fn least_of_false(alloc: Global) -> Result<Least, StoreFault> {
    let store = equal_levels(alloc, 2, 3, 40000)?;
    let mut codes = places(alloc, &[7, 8])?;
    let found = least(&store, Store::leaf(false), codes.as_mut_slice());
    Ok(Least {
        count: store.count(),
        found,
        codes,
    })
}

/// Whether the memo of a new store has no answer for the negation of the leaf true, and has the leaf
/// false once that was noted.
pub(crate) fn noted_negation(alloc: Global) -> Result<(bool, bool), StoreFault> {
    let mut store = equal_levels(alloc, 0, 1, 40000)?;
    let yes = Store::leaf(true);
    let no = Store::leaf(false);
    let new = store.recall(Join::Not, yes, yes) == None;
    store.note(Join::Not, yes, yes, no)?;
    let noted = store.recall(Join::Not, yes, yes) == Some(no);
    Ok((new, noted))
}

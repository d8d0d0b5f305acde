//! Large examples, which show that an operation walks runs, and asks the memo.

ghost use Rattle.std.specs.Prelude.{◌≡◌, pos};
ghost use Rattle.dd_store.specs.Held.{IsKnown};
ghost use Rattle.test_diagrams.specs.Worked.{levels_to};

use crate::stores::{atom_on, equal_levels};
use dd_build::{and, not, or};
use dd_formula::{Op, Term};
use dd_store::{Id, Store, StoreFault};
use std::alloc::Global;

/// How many nodes there are before a call, after its first time and after its last, and whether each
/// time it gave the same.
#[derive(Clone, Copy, Debug, PartialEq, Eq)]
pub struct Repeated {
    pub before: u32,
    pub first: u32,
    pub last: u32,
    pub same: bool,
}

/// Whether the conjunction of two trees is the same each time.
fn same_again(store: &mut Store, f: Id, g: Id, first: Id, times: u32) -> Result<bool, StoreFault>
    requires left { IsKnown store.old f }
    requires right { IsKnown store.old g }
{
    for _time in 0..times {
        let id = and(store, f, g)?;
        if id != first {
            return Ok(false);
        }
    }
    Ok(true)
}

/// The conjunction of two staircases over two levels of 8192 codes, made so many times more.
pub fn conjunction_again(alloc: Global, times: u32) -> Result<Repeated, StoreFault> {
    let mut store = equal_levels(alloc, 2, 8191, 40000)?;
    let down = [
        Term {
            factor: 1,
            level: 0,
        },
        Term {
            factor: -1,
            level: 1,
        },
    ];
    let up = [
        Term {
            factor: 1,
            level: 0,
        },
        Term {
            factor: 1,
            level: 1,
        },
    ];
    let f = atom_on(alloc, &mut store, Op::Le, &down, 0)?;
    let g = atom_on(alloc, &mut store, Op::Le, &up, -8191)?;
    let before = store.count();
    let first_id = and(&mut store, f, g)?;
    let first = store.count();
    let same = same_again(&mut store, f, g, first_id, times)?;
    Ok(Repeated {
        before,
        first,
        last: store.count(),
        same,
    })
}

/// Whether the atom that one level is at most another is the same each time.
fn same_atom_again(
    alloc: Global,
    store: &mut Store,
    first: Id,
    times: u32,
) -> Result<bool, StoreFault>
    requires { store.old.domains ≡ levels_to 2 (pos 8191) }
{
    let down = [
        Term {
            factor: 1,
            level: 0,
        },
        Term {
            factor: -1,
            level: 1,
        },
    ];
    for _time in 0..times {
        let id = atom_on(alloc, store, Op::Le, &down, 0)?;
        if id != first {
            return Ok(false);
        }
    }
    Ok(true)
}

/// A staircase over two levels of 8192 codes, made so many times more.
pub fn atom_again(alloc: Global, times: u32) -> Result<Repeated, StoreFault> {
    let mut store = equal_levels(alloc, 2, 8191, 40000)?;
    let down = [
        Term {
            factor: 1,
            level: 0,
        },
        Term {
            factor: -1,
            level: 1,
        },
    ];
    let before = store.count();
    let first_id = atom_on(alloc, &mut store, Op::Le, &down, 0)?;
    let first = store.count();
    let same = same_atom_again(alloc, &mut store, first_id, times)?;
    Ok(Repeated {
        before,
        first,
        last: store.count(),
        same,
    })
}

/// How many nodes there are after the disjunction of forty Booleans, and how many after its negation.
pub fn disjunction_of_booleans(alloc: Global) -> Result<(u32, u32), StoreFault> {
    let mut store = equal_levels(alloc, 40, 1, 40000)?;
    let mut any = Store::leaf(false);
    for level in 0..40 {
        let one = atom_on(alloc, &mut store, Op::Eq, &[Term { factor: 1, level }], -1)?;
        any = or(&mut store, any, one)?;
    }
    let first = store.count();
    not(&mut store, any)?;
    Ok((first, store.count()))
}

/// How many nodes there are after the sum of two levels is at most a third, each of 200 codes.
pub fn sum_below(alloc: Global) -> Result<u32, StoreFault> {
    let mut store = equal_levels(alloc, 3, 199, 40000)?;
    let terms = [
        Term {
            factor: 1,
            level: 0,
        },
        Term {
            factor: 1,
            level: 1,
        },
        Term {
            factor: -1,
            level: 2,
        },
    ];
    atom_on(alloc, &mut store, Op::Le, &terms, 0)?;
    Ok(store.count())
}

//! Stores with equal levels, and the atoms on them.

ghost use Rattle.std.specs.Prelude.{◌≡◌, ℤ, pos, ◌<ℤ◌, ◌≤ℤ◌, ◌≤◌, IfOk, OnOk};
ghost use Rattle.dd_formula.specs.declared.formula.Linear.{Linear};
ghost use Rattle.dd_store.specs.Held.{IsKnown};
ghost use Rattle.dd_store.specs.Kept.{IsHeld};
ghost use Rattle.dd_build.specs.Built.{Keeps};
ghost use Rattle.dd_build.specs.Atoms.{IsAtomOver};
ghost use Rattle.test_diagrams.specs.Worked.{levels_to};

use base::NoMemory;
use dd_build::atom;
use dd_formula::{Domain, Linear, Op, Term};
use dd_store::{Id, Store, StoreFault};
use sqlite_items::Items;
use std::alloc::Global;

/// A store with so many levels, each with the codes from 0 to the greatest.
pub(crate) fn equal_levels(
    alloc: Global,
    count: usize,
    greatest: i64,
    limit: u32,
) -> Result<Store, NoMemory>
    requires from { pos 0 ≤ℤ greatest }
    requires to { greatest <ℤ pos 8192 }
    requires limit { limit ≤ 40000 }
    ensures domains { IfOk result (λ store. store.domains ≡ levels_to count greatest) }
    ensures held { IfOk result IsHeld }
{
    let mut domains = Vec::new(alloc);
    domains.resize(
        count,
        Domain {
            lo: 0,
            hi: greatest,
        },
    )?;
    Store::new(alloc, domains, limit)
}

/// The tree of an atom with these terms.
pub(crate) fn atom_on(
    alloc: Global,
    store: &mut Store,
    op: Op,
    terms: &[Term],
    constant: i64,
) -> Result<Id, StoreFault>
    requires { IsAtomOver store.old.domains (record { terms = terms.now; constant = constant; op = op }) }
    ensures known { IfOk result (IsKnown store.new) }
    ensures keeps { OnOk result (Keeps store.old store.new) }
{
    let Ok(terms) = Items::from_slice(alloc, terms) else {
        return Err(StoreFault::NoMemory);
    };
    let a = Linear {
        terms,
        constant,
        op,
    };
    atom(store, &a)
}

/// Places for codes.
pub(crate) fn places(alloc: Global, codes: &[i64]) -> Result<Vec<i64>, NoMemory>
    ensures { IfOk result (λ out. out.items ≡ codes.now) }
{
    Ok(codes.to_vec(alloc)?)
}

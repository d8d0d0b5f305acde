//! Formulas of the worked examples.

ghost use Rattle.std.specs.Prelude.{◌≡◌, IfOk};
ghost use Rattle.test_diagrams.specs.Worked.{is_one, are_one};

use base::NoMemory;
use dd_formula::{Formula, Linear, Op, Term};
use sqlite_items::Items;
use std::alloc::Global;

/// A level has the code 1.
fn one_at(alloc: Global, level: usize) -> Result<Formula, NoMemory>
    ensures { IfOk result (λ f. f ≡ is_one level) }
{
    let mut terms = Items::new(alloc);
    terms.push(Term { factor: 1, level })?;
    Ok(Formula::Atom(Linear {
        terms,
        constant: -1,
        op: Op::Eq,
    }))
}

/// Two levels have it.
pub(crate) fn ones_at(alloc: Global, a: usize, b: usize) -> Result<Formula, NoMemory>
    ensures { IfOk result (λ f. f ≡ are_one a b) }
{
    Formula::both(alloc, one_at(alloc, a)?, one_at(alloc, b)?)
}

//! Copies of conditions.
ghost use Rattle.std.specs.Prelude.{◌≡◌, IfOk};

use base::NoMemory;
use scr_spec::{Cond, Expr};
use sqlite_items::{Boxed, Items};
use std::alloc::Global;

fn copy_side(alloc: Global, side: &Expr) -> Result<Expr, NoMemory>
    ensures { IfOk result (λ copy. copy ≡ side.now) }
{
    let items = Items::from_slice(alloc, side.items.as_slice())?;
    Ok(Expr { items })
}

/// A copy of a condition.
#[cycle(copy)]
pub fn copy_condition(alloc: Global, c: &Cond) -> Result<Cond, NoMemory>
    ensures { IfOk result (λ copy. copy ≡ c.now) }
{
    match c {
        Cond::Truth(b) => Ok(Cond::Truth(*b)),
        Cond::Holds(v) => Ok(Cond::Holds(*v)),
        Cond::Compare(left, relation, right) => {
            let left = copy_side(alloc, left)?;
            let right = copy_side(alloc, right)?;
            Ok(Cond::Compare(left, *relation, right))
        }
        Cond::Not(c) => {
            let member = copy_condition(alloc, c.get())?;
            Ok(Cond::Not(Boxed::new(alloc, member)?))
        }
        Cond::And(cs) => Ok(Cond::And(copy_conditions(alloc, cs.as_slice())?)),
        Cond::Or(cs) => Ok(Cond::Or(copy_conditions(alloc, cs.as_slice())?)),
    }
}

#[cycle(copy)]
fn copy_conditions(alloc: Global, cs: &[Cond]) -> Result<Items<Cond>, NoMemory>
    ensures { IfOk result (λ copies. copies ≡ cs.now) }
{
    let mut copies = Items::new(alloc);
    for c in cs {
        let copy = copy_condition(alloc, c)?;
        copies.push(copy)?;
    }
    Ok(copies)
}

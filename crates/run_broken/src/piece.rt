//! The slice that a condition needs, which is searched in place of the whole.
ghost use Rattle.std.specs.Prelude.{◌≡◌, IfOk, IsTrue};
ghost use Rattle.scr_spec.specs.Shown.{data_of};
ghost use Rattle.scr_spec.specs.Over.{is_cond_over};
ghost use Rattle.scr_slice.specs.Slices.{IsKeepable, IsSlice};
ghost use Rattle.run_broken.specs.Slices.{mentioned_below};
ghost use Rattle.run_broken.specs.Pieces.{IsPieceFor};

use base::NoMemory;
use scr_depend::{Checked, DependFault, order_of};
use scr_slice::{cond_mentions, condition, kept, slice};
use scr_spec::Cond;
use sqlite_items::Items;
use std::alloc::Global;

/// The slice that a condition needs, with the numbers that its variables have in the whole, and the condition
/// over it.
#[derive(Drop)]
pub(crate) struct Piece {
    pub keep: Items<usize>,
    pub part: Checked,
    pub cond: Cond,
}

/// Which of so many variables the condition mentions, in order of declaration.
#[tactic(auto, using(crate::proofs::Mentioned::mentioned_steps))]
fn mentioned(alloc: Global, count: usize, cond: &Cond) -> Result<Items<usize>, NoMemory>
    ensures { IfOk result (λ list. list ≡ mentioned_below count cond.now) }
{
    let mut list = Items::new(alloc);
    for w in 0..count {
        if cond_mentions(cond, w) {
            list.push(w)?;
        }
    }
    Ok(list)
}

/// The slice over the kept variables, with its order.
fn part_of(alloc: Global, checked: &Checked, keep: &[usize]) -> Result<Checked, NoMemory>
    requires { IsKeepable (data_of checked.now.spec) keep.now }
    ensures { IfOk result (λ part. IsSlice (data_of checked.now.spec) keep.now (data_of part.spec)) }
{
    let part = slice(alloc, checked, keep)?;
    match order_of(alloc, &part) {
        Ok(order) => Ok(Checked::new(part, order)),
        Err(DependFault::NoMemory) => Err(NoMemory),
        Err(DependFault::Circular(_)) => unreachable!(),
    }
}

/// What is searched for a condition.
pub(crate) fn piece_of(alloc: Global, checked: &Checked, cond: &Cond) -> Result<Piece, NoMemory>
    ensures { IfOk result (IsPieceFor (data_of checked.now.spec) cond.now) }
{
    let spec = checked.spec();
    let names = mentioned(alloc, spec.variables.len(), cond)?;
    let keep = kept(alloc, spec, names.as_slice())?;
    let part = part_of(alloc, checked, keep.as_slice())?;
    let cond = condition(alloc, keep.as_slice(), cond)?;
    Ok(Piece { keep, part, cond })
}

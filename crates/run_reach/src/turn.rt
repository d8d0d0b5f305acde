//! Expanding one state.
ghost use Rattle.std.specs.Prelude.{◌≡◌, ◌<◌, ◌≤◌, ◌^◌, length, IfOk, OnErr};
ghost use Rattle.scr_spec.specs.Shown.{data_of};
ghost use Rattle.run_step.specs.Runs.{IsConsistent};
ghost use Rattle.run_reach.specs.Trees.{codes_at, depth_at};
ghost use Rattle.run_reach.specs.Growth.{Puts, Turns};

use crate::inputs::inputs_of;
use crate::target::Target;
use crate::tree::{Link, Tree};
use base::NoMemory;
use run_step::step_into;
use scr_depend::Checked;
use scr_spec::{Input, State};
use std::alloc::Global;

/// What came of expanding a state.
#[derive(Clone, Copy)]
pub(crate) enum Turn {
    /// All its inputs were tried.
    Expanded,
    /// There is no room for the state that this input leads to.
    Full(Input),
    /// The step of this input is sought, and none before it is.
    Hit(Input),
}

/// Puts the state last to which the input leads, where it is not there. No: there is no room for it.
fn put_child(
    alloc: Global,
    tree: &mut Tree,
    most: usize,
    parent: usize,
    input: Input,
    new: &State,
) -> Result<bool, NoMemory>
    requires there { parent < length tree.old }
    requires shallow { depth_at tree.old parent ≤ parent }
    requires few { length tree.old ≤ most }
    ensures puts { IfOk result (Puts tree.old most parent input new.now.codes tree.new) }
    ensures few { length tree.new ≤ most }
    ensures err { OnErr result (tree.new ≡ tree.old) }
{
    if tree.has(new) {
        return Ok(true);
    }
    if tree.len() >= most {
        return Ok(false);
    }
    let depth = tree.link(parent).depth + 1;
    tree.add(
        alloc,
        new,
        Link {
            parent,
            input,
            depth,
        },
    )?;
    Ok(true)
}

/// Tries all inputs of a state, in order.
pub(crate) fn expand<T: Target>(
    alloc: Global,
    checked: &Checked,
    target: &T,
    tree: &mut Tree,
    most: usize,
    number: usize,
) -> Result<Turn, NoMemory>
    requires fits { T.fits target.now (data_of checked.now.spec) }
    requires there { number < length tree.old }
    requires shallow { depth_at tree.old number ≤ number }
    requires few { length tree.old ≤ most }
    requires consistent { IsConsistent (data_of checked.now.spec) (codes_at tree.old number) }
    ensures few { length tree.new ≤ most }
    ensures turn { IfOk result (Turns (data_of checked.now.spec) (T.sought target.now (data_of checked.now.spec)).at_step most number
        (codes_at tree.old number) tree.old tree.new) }
{
    let old = tree.state(alloc, number)?;
    let inputs = inputs_of(alloc, checked.spec(), &old)?;
    let inputs = inputs.as_slice();
    let mut new = tree.state(alloc, number)?;
    for input in inputs {
        step_into(checked, &old, *input, &mut new);
        if target.is_met(checked.spec(), &old, &new) {
            return Ok(Turn::Hit(*input));
        }
        if !put_child(alloc, tree, most, number, *input, &new)? {
            return Ok(Turn::Full(*input));
        }
    }
    Ok(Turn::Expanded)
}

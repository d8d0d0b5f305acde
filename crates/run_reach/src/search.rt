//! The search.
ghost use Rattle.std.specs.Prelude.{◌≡◌, ◌<◌, ◌≤◌, ◌∷◌, [], false, length, IfOk};
ghost use Rattle.scr_spec.specs.Shown.{data_of};
ghost use Rattle.run_step.specs.Runs.{IsInitial};
ghost use Rattle.run_reach.specs.Trees.{codes_at, root};
ghost use Rattle.run_reach.specs.Growth.{Grown};
ghost use Rattle.run_reach.specs.Answers.{IsAnswer};

use crate::answer::Answer;
use crate::paths::path_on;
use crate::target::Target;
use crate::tree::{Tree, no_link};
use crate::turn::{Turn, expand};
use base::NoMemory;
use run_step::initial;
use scr_depend::Checked;
use scr_spec::State;
use sqlite_items::Items;
use std::alloc::Global;

/// The most states that a search may have room for.
pub const STATE_LIMIT: usize = 1_000_000;

/// The tree of the first state alone.
fn rooted(alloc: Global, first: &State) -> Result<Tree, NoMemory>
    ensures { IfOk result (λ tree. tree ≡ root first.now.codes ∷ []) }
{
    let mut tree = Tree::new(alloc);
    tree.add(alloc, first, no_link())?;
    Ok(tree)
}

/// Expands states until none is left, there is no room, or a step is sought.
fn seek_from<T: Target>(
    alloc: Global,
    checked: &Checked,
    target: &T,
    most: usize,
    first: &State,
) -> Result<Answer, NoMemory>
    requires fits { T.fits target.now (data_of checked.now.spec) }
    requires some { 0 < most }
    requires initial { IsInitial (data_of checked.now.spec) first.now.codes }
    requires missed { (T.sought target.now (data_of checked.now.spec)).at_first first.now.codes ≡ false }
    ensures { IfOk result (IsAnswer (data_of checked.now.spec) (T.sought target.now (data_of checked.now.spec)) most) }
{
    let mut tree = rooted(alloc, first)?;
    let mut number = 0;
    while number < tree.len() {
        match expand(alloc, checked, target, &mut tree, most, number)? {
            Turn::Expanded => number += 1,
            Turn::Full(input) => {
                return Ok(Answer::Open(path_on(alloc, &tree, number, input)?));
            }
            Turn::Hit(input) => {
                return Ok(Answer::Least(path_on(alloc, &tree, number, input)?));
            }
        }
    }
    Ok(Answer::Never)
}

/// Searches the runs of a specification for the least script that meets what is sought, where at most
/// so many states are stored.
pub fn seek<T: Target>(
    alloc: Global,
    checked: &Checked,
    target: &T,
    most: usize,
) -> Result<Answer, NoMemory>
    requires fits { T.fits target.now (data_of checked.now.spec) }
    requires some { 0 < most }
    ensures { IfOk result (IsAnswer (data_of checked.now.spec) (T.sought target.now (data_of checked.now.spec)) most) }
{
    let first = initial(alloc, checked)?;
    if target.is_met_at_first(checked.spec(), &first) {
        return Ok(Answer::Least(Items::new(alloc)));
    }
    seek_from(alloc, checked, target, most, &first)
}

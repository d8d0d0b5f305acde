//! The script that leads to a state.
ghost use Rattle.std.specs.Prelude.{◌≡◌, ◌++◌, ◌∷◌, [], IfOk};
ghost use Rattle.run_reach.specs.Trees.{path_of};

use crate::tree::Tree;
use base::NoMemory;
use scr_spec::Input;
use sqlite_items::Items;
use std::alloc::Global;

/// The inputs that lead to the state with this number, from the first state on.
fn path(alloc: Global, tree: &Tree, number: usize) -> Result<Items<Input>, NoMemory>
    ensures { IfOk result (λ inputs. inputs ≡ path_of tree.now number) }
{
    let mut inputs = Vec::new(alloc);
    let mut at = number;
    let mut left = tree.link(number).depth;
    while left > 0 {
        let link = tree.link(at);
        inputs.push(link.input)?;
        at = link.parent;
        left -= 1;
    }
    inputs.reverse();
    Ok(Items::from_vec(inputs))
}

/// These inputs, and then one more.
pub(crate) fn path_on(
    alloc: Global,
    tree: &Tree,
    number: usize,
    input: Input,
) -> Result<Items<Input>, NoMemory>
    ensures { IfOk result (λ inputs. inputs ≡ path_of tree.now number ++ input ∷ []) }
{
    let mut inputs = path(alloc, tree, number)?;
    inputs.push(input)?;
    Ok(inputs)
}

//! Inputs to variables that are not kept.
ghost use Rattle.std.specs.Prelude.{◌≡◌, IfOk};
ghost use Rattle.scr_spec.specs.Shown.{data_of};
ghost use Rattle.run_broken.specs.Dropped.{first_dropped, IsFirstOutside};

use base::NoMemory;
use run_reach::inputs_of;
use run_step::initial;
use scr_depend::{Checked, is_among};
use scr_spec::Input;
use std::alloc::Global;

/// The first input to a variable that is not kept.
fn first_dropped(keep: &[usize], inputs: &[Input]) -> Option<Input>
    ensures { result ≡ first_dropped keep.now inputs.now }
{
    for input in inputs {
        if !is_among(keep, input.variable) {
            return Some(*input);
        }
    }
    None
}

/// The first input to a variable that is not kept, of those that may come in the initial state.
pub(crate) fn first_outside(
    alloc: Global,
    checked: &Checked,
    keep: &[usize],
) -> Result<Option<Input>, NoMemory>
    ensures { IfOk result (IsFirstOutside (data_of checked.now.spec) keep.now) }
{
    let first = initial(alloc, checked)?;
    let inputs = inputs_of(alloc, checked.spec(), &first)?;
    Ok(first_dropped(keep, inputs.as_slice()))
}

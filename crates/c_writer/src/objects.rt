//! The names of the objects of a unit.
ghost use Rattle.std.specs.Prelude.{◌≡◌, ◌++◌, IfOk};
ghost use Rattle.scr_spec.specs.Names.{variable_name as name_of};
ghost use Rattle.scr_spec.specs.Shown.{data_of};
ghost use Rattle.c_subset.specs.Runs.{setter as setter_name};
ghost use Rattle.c_writer.specs.Objects.{object_of};

use base::{Name, NoMemory};
use scr_spec::{Spec, variable_name};
use std::alloc::Global;

/// The two states that a step is between.
#[derive(Clone, Copy, PartialEq, Eq)]
pub(crate) enum Moment {
    Old,
    New,
}

/// A name with a prefix before it.
fn prefixed(alloc: Global, prefix: &[u8], name: &[u8]) -> Result<Name, NoMemory>
    ensures { IfOk result (λ n. n ≡ prefix.now ++ name.now) }
{
    let mut bytes = Vec::from_slice(alloc, prefix)?;
    bytes.extend_from_slice(name)?;
    Name::from_slice(alloc, bytes.as_slice())
}

/// The object of a variable at a moment.
pub(crate) fn object_at(
    alloc: Global,
    spec: &Spec,
    moment: Moment,
    v: usize,
) -> Result<Name, NoMemory>
    ensures { IfOk result (λ n. n ≡ object_of (data_of spec.now) moment v) }
{
    let name = variable_name(spec, v);
    match moment {
        Moment::Old => prefixed(alloc, b"o_", name),
        Moment::New => prefixed(alloc, b"v_", name),
    }
}

/// The function that takes a new code for a variable.
pub(crate) fn setter_at(alloc: Global, spec: &Spec, v: usize) -> Result<Name, NoMemory>
    ensures { IfOk result (λ n. n ≡ setter_name (name_of (data_of spec.now) v)) }
{
    prefixed(alloc, b"set_", variable_name(spec, v))
}

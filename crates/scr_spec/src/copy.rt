//! Copies of the parts of a specification.
ghost use Rattle.std.specs.Prelude.{◌≡◌, IfOk};

use crate::{Constant, Kind, Shape, TypeDef, Variable};
use base::{Name, NoMemory};
use sqlite_items::Items;
use std::alloc::Global;

/// The same names.
pub fn copy_names(alloc: Global, names: &[Name]) -> Result<Items<Name>, NoMemory>
    ensures { IfOk result (λ copy. copy ≡ names.now) }
{
    let mut copy = Items::new(alloc);
    for name in names {
        copy.push(name.copy(alloc)?)?;
    }
    Ok(copy)
}

fn copy_shape(alloc: Global, shape: &Shape) -> Result<Shape, NoMemory>
    ensures { IfOk result (λ copy. copy ≡ shape.now) }
{
    match shape {
        Shape::Range(domain) => Ok(Shape::Range(*domain)),
        Shape::Labels(names) => Ok(Shape::Labels(copy_names(alloc, names.as_slice())?)),
    }
}

/// The same types.
pub fn copy_types(alloc: Global, types: &[TypeDef]) -> Result<Items<TypeDef>, NoMemory>
    ensures { IfOk result (λ copy. copy ≡ types.now) }
{
    let mut copy = Items::new(alloc);
    for declared in types {
        copy.push(TypeDef {
            name: declared.name.copy(alloc)?,
            shape: copy_shape(alloc, &declared.shape)?,
        })?;
    }
    Ok(copy)
}

/// The same constants.
pub fn copy_constants(alloc: Global, constants: &[Constant]) -> Result<Items<Constant>, NoMemory>
    ensures { IfOk result (λ copy. copy ≡ constants.now) }
{
    let mut copy = Items::new(alloc);
    for constant in constants {
        copy.push(Constant {
            name: constant.name.copy(alloc)?,
            value: constant.value,
        })?;
    }
    Ok(copy)
}

/// The same kind.
pub fn copy_kind(alloc: Global, kind: &Kind) -> Result<Kind, NoMemory>
    ensures { IfOk result (λ copy. copy ≡ kind.now) }
{
    match kind {
        Kind::Boolean => Ok(Kind::Boolean),
        Kind::Named(k) => Ok(Kind::Named(*k)),
        Kind::Modes(modes) => Ok(Kind::Modes(copy_names(alloc, modes.as_slice())?)),
    }
}

/// The same variable.
pub fn copy_variable(alloc: Global, variable: &Variable) -> Result<Variable, NoMemory>
    ensures { IfOk result (λ copy. copy ≡ variable.now) }
{
    Ok(Variable {
        name: variable.name.copy(alloc)?,
        role: variable.role,
        kind: copy_kind(alloc, &variable.kind)?,
        init: variable.init,
        bound: variable.bound,
    })
}

//! What stands at a number in the lists of a specification.
ghost use Rattle.std.specs.Prelude.{◌≡◌};
ghost use Rattle.scr_spec.specs.Sorts as spec;

use crate::cond::Owner;
use crate::sort::Sort;
use crate::spec::{Constant, Kind, Shape, TypeDef, Variable};
use dd_formula::Domain;

impl Shape {
    /// The range of a type of integers.
    pub fn range(&self) -> Option<Domain>
        ensures { result ≡ spec.shape_range self.now }
    {
        match self {
            Shape::Range(domain) => Some(*domain),
            Shape::Labels(_) => None,
        }
    }
}

/// The range of the type with this number. None where the type is a list, or is not there.
pub fn type_range(types: &[TypeDef], k: usize) -> Option<Domain>
    ensures { result ≡ spec.type_range types.now k }
{
    match types.get(k) {
        Some(declared) => declared.shape.range(),
        None => None,
    }
}

/// The sort of the values of the type with this number.
pub fn type_sort(types: &[TypeDef], k: usize) -> Sort
    ensures { result ≡ spec.type_sort types.now k }
{
    match type_range(types, k) {
        Some(_) => Sort::Integer,
        None => Sort::Labels(Owner::Named(k)),
    }
}

/// The sort of the values of this kind, at the variable with this number.
pub fn kind_sort(types: &[TypeDef], v: usize, kind: &Kind) -> Sort
    ensures { result ≡ spec.kind_sort types.now v kind.now }
{
    match kind {
        Kind::Boolean => Sort::Boolean,
        Kind::Named(k) => type_sort(types, *k),
        Kind::Modes(_) => Sort::Labels(Owner::Class(v)),
    }
}

/// The sort of the variable with this number.
pub fn variable_sort(types: &[TypeDef], variables: &[Variable], v: usize) -> Option<Sort>
    ensures { result ≡ spec.variable_sort types.now variables.now v }
{
    match variables.get(v) {
        Some(variable) => Some(kind_sort(types, v, &variable.kind)),
        None => None,
    }
}

/// The range of the kind, where its values are integers.
pub fn kind_range(types: &[TypeDef], kind: &Kind) -> Option<Domain>
    ensures { result ≡ spec.kind_range types.now kind.now }
{
    match kind {
        Kind::Boolean => None,
        Kind::Named(k) => type_range(types, *k),
        Kind::Modes(_) => None,
    }
}

/// The range of the variable with this number, where its values are integers.
pub fn variable_range(types: &[TypeDef], variables: &[Variable], v: usize) -> Option<Domain>
    ensures { result ≡ spec.variable_range types.now variables.now v }
{
    match variables.get(v) {
        Some(variable) => kind_range(types, &variable.kind),
        None => None,
    }
}

/// The value of the constant with this number, or 0 where it is not there.
pub fn constant_value(constants: &[Constant], k: usize) -> i64
    ensures { result ≡ spec.constant_at constants.now k }
{
    match constants.get(k) {
        Some(constant) => constant.value,
        None => 0,
    }
}

//! The names of what a specification has, by numbers. What is not there has no name.
ghost use Rattle.std.specs.Prelude.{◌≡◌};
ghost use Rattle.scr_spec.specs.Shown.{data_of};
ghost use Rattle.scr_spec.specs.Over as over;
ghost use Rattle.scr_spec.specs.Types as types;
ghost use Rattle.scr_printer.specs.Names as text;

use base::Name;
use scr_spec::{Kind, Owner, Shape, Spec};

pub(crate) fn type_name(spec: &Spec, k: usize) -> &[u8]
    ensures { result.now ≡ text.type_name (data_of spec.now) k }
{
    match spec.types.get(k) {
        Some(declared) => declared.name.as_slice(),
        None => &[],
    }
}

pub(crate) fn constant_name(spec: &Spec, k: usize) -> &[u8]
    ensures { result.now ≡ text.constant_name (data_of spec.now) k }
{
    match spec.constants.get(k) {
        Some(constant) => constant.name.as_slice(),
        None => &[],
    }
}

/// The name at this place of the list.
pub(crate) fn name_at(names: &[Name], code: i64) -> &[u8]
    ensures { result.now ≡ text.name_at names.now code }
{
    if code < 0 {
        return &[];
    }
    match names.get(code as usize) {
        Some(name) => name.as_slice(),
        None => &[],
    }
}

fn shape_labels(shape: &Shape) -> &[Name]
    ensures { result.now ≡ types.shape_labels shape.now }
{
    match shape {
        Shape::Range(_) => &[],
        Shape::Labels(names) => names.as_slice(),
    }
}

fn kind_modes(kind: &Kind) -> &[Name]
    ensures { result.now ≡ types.kind_modes kind.now }
{
    match kind {
        Kind::Boolean => &[],
        Kind::Named(_) => &[],
        Kind::Modes(names) => names.as_slice(),
    }
}

fn modes_of(spec: &Spec, v: usize) -> &[Name]
    ensures { result.now ≡ over.modes_of (data_of spec.now) v }
{
    match spec.variables.get(v) {
        Some(variable) => kind_modes(&variable.kind),
        None => &[],
    }
}

fn type_labels(spec: &Spec, k: usize) -> &[Name]
    ensures { result.now ≡ over.labels_of (data_of spec.now) (Owner.Named k) }
{
    match spec.types.get(k) {
        Some(declared) => shape_labels(&declared.shape),
        None => &[],
    }
}

pub(crate) fn label_name(spec: &Spec, owner: Owner, code: i64) -> &[u8]
    ensures { result.now ≡ text.label_name (data_of spec.now) owner code }
{
    match owner {
        Owner::Named(k) => name_at(type_labels(spec, k), code),
        Owner::Class(v) => name_at(modes_of(spec, v), code),
    }
}

pub(crate) fn mode_name(spec: &Spec, v: usize, code: i64) -> &[u8]
    ensures { result.now ≡ text.mode_name (data_of spec.now) v code }
{
    name_at(modes_of(spec, v), code)
}

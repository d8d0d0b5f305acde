//! Values: numbers, enumerators, modes, TRUE and FALSE.
#![tactic(auto, using(crate::proofs::Written::written_laws))]

ghost use Rattle.std.specs.Prelude.{◌≡◌, ◌++◌, [], slice_get, MatchResult, OnOk};
ghost use Rattle.std.specs.Option.{option_map_or};
ghost use Rattle.scr_spec.specs.Shown.{data_of};
ghost use Rattle.scr_printer.specs.Pages.{written};
ghost use Rattle.scr_printer.specs.Text.{kind_value_text, value_text};
ghost use Rattle.scr_printer.specs.Declarations as text;

use crate::names::name_at;
use crate::page::Line;
use crate::side::{put_int, put_truth};
use base::NoMemory;
use scr_spec::{Kind, Shape, Spec, TypeDef};

fn put_shape_value(line: &mut Line, shape: &Shape, code: i64) -> Result<(), NoMemory>
    ensures { OnOk result (line.new ≡ written line.old (text.shape_value_words shape.now code)) }
{
    match shape {
        Shape::Range(_) => put_int(line, code),
        Shape::Labels(names) => line.put_name(name_at(names.as_slice(), code)),
    }
}

fn put_type_value(line: &mut Line, types: &[TypeDef], k: usize, code: i64) -> Result<(), NoMemory>
    ensures { OnOk result (line.new ≡ written line.old (option_map_or (λ t. text.shape_value_words t.shape code) (slice_get types.now k) [])) }
{
    match types.get(k) {
        Some(declared) => put_shape_value(line, &declared.shape, code),
        None => Ok(()),
    }
}

/// Writes the value that a code is.
pub(crate) fn put_value(
    line: &mut Line,
    types: &[TypeDef],
    kind: &Kind,
    code: i64,
) -> Result<(), NoMemory>
    ensures { OnOk result (line.new ≡ written line.old (text.value_words types.now kind.now code)) }
{
    match kind {
        Kind::Boolean => put_truth(line, code == 1),
        Kind::Named(k) => put_type_value(line, types, *k, code),
        Kind::Modes(names) => line.put_name(name_at(names.as_slice(), code)),
    }
}

/// Appends the value that a code is, of this kind: a number, an enumerator, a mode, `TRUE` or
/// `FALSE`. After a fault `out` is unchanged.
#[tactic(auto, using(crate::proofs::Written::blank_text))]
pub fn push_kind_value(
    out: &mut Vec<u8>,
    types: &[TypeDef],
    kind: &Kind,
    code: i64,
) -> Result<(), NoMemory>
    ensures { MatchResult result (λ _. out.new.items ≡ out.old.items ++ kind_value_text types.now kind.now code)
        (λ _. out.new.items ≡ out.old.items) }
{
    let mut line = Line::new(*out.allocator());
    put_value(&mut line, types, kind, code)?;
    out.extend_from_slice(line.as_slice())?;
    Ok(())
}

/// Appends the value that a code is, of the variable with this number. After a fault `out` is
/// unchanged.
pub fn push_value(out: &mut Vec<u8>, spec: &Spec, v: usize, code: i64) -> Result<(), NoMemory>
    ensures { MatchResult result (λ _. out.new.items ≡ out.old.items ++ value_text (data_of spec.now) v code)
        (λ _. out.new.items ≡ out.old.items) }
{
    match spec.variables.get(v) {
        Some(variable) => push_kind_value(out, spec.types.as_slice(), &variable.kind, code),
        None => Ok(()),
    }
}

//! Writes units.

ghost use Rattle.std.specs.Prelude.{◌≡◌, true, map, OnOk, IfOk};
ghost use Rattle.c_subset.specs.Rules.{is_unit};
ghost use Rattle.c_reader.specs.Text.{Reads};
ghost use Rattle.c_print.specs.Appended as spec;
ghost use Rattle.c_print.specs.Printed as printed;

use crate::ink::{
    push_between, push_constant, push_end, push_feed, push_keyword, push_name, push_sign,
    push_space,
};
use crate::stmt::push_block;
use base::{Name, NoMemory};
use c_reader::{Keyword, Sign};
use c_subset::{CFunction, CItem, CObject, CUnit};
use std::alloc::Global;

/// Writes a keyword and a name.
fn push_named(out: &mut Vec<u8>, keyword: Keyword, name: &Name) -> Result<(), NoMemory>
    ensures { OnOk result (spec.Appends (spec.named_marks keyword name.now) out.old.items out.new.items) }
{
    push_keyword(out, keyword)?;
    push_space(out)?;
    push_name(out, name)
}

fn push_object(out: &mut Vec<u8>, object: &CObject) -> Result<(), NoMemory>
    ensures { OnOk result (spec.Appends (printed.object_marks object.now) out.old.items out.new.items) }
{
    push_named(out, Keyword::Long, &object.name)?;
    push_between(out, Sign::Assign)?;
    push_constant(out, object.init)?;
    push_end(out)
}

fn push_parameter(out: &mut Vec<u8>, parameter: &Option<Name>) -> Result<(), NoMemory>
    ensures { OnOk result (spec.Appends (printed.parameter_marks parameter.now) out.old.items out.new.items) }
{
    match parameter {
        Some(name) => push_named(out, Keyword::Long, name),
        None => push_keyword(out, Keyword::Void),
    }
}

/// Writes what stands before the body of a function.
fn push_signature(out: &mut Vec<u8>, function: &CFunction) -> Result<(), NoMemory>
    ensures { OnOk result (spec.Appends (spec.signature_marks function.now) out.old.items out.new.items) }
{
    push_named(out, Keyword::Void, &function.name)?;
    push_sign(out, Sign::OpenParen)?;
    push_parameter(out, &function.parameter)?;
    push_sign(out, Sign::CloseParen)?;
    push_space(out)
}

fn push_function(out: &mut Vec<u8>, function: &CFunction) -> Result<(), NoMemory>
    ensures { OnOk result (spec.Appends (printed.function_marks function.now) out.old.items out.new.items) }
{
    push_signature(out, function)?;
    push_block(out, function.body.as_slice(), 0)?;
    push_feed(out)
}

fn push_item(out: &mut Vec<u8>, item: &CItem) -> Result<(), NoMemory>
    ensures { OnOk result (spec.Appends (printed.item_marks item.now) out.old.items out.new.items) }
{
    match item {
        CItem::Object(object) => push_object(out, object),
        CItem::Function(function) => push_function(out, function),
    }
}

fn push_items(out: &mut Vec<u8>, items: &[CItem]) -> Result<(), NoMemory>
    ensures { OnOk result (spec.Appends (printed.items_marks items.now) out.old.items out.new.items) }
{
    for item in items {
        push_item(out, item)?;
    }
    Ok(())
}

/// The text of a unit in ASCII, each line ended by a line feed. Objects and functions stand below each other in the
/// order of the unit, with two spaces for each open brace; `else` stands only before a block that is not empty, and
/// parentheses only where an operand binds less than its place wants, and round the operand of `!`.
pub fn print_c(alloc: Global, unit: &CUnit) -> Result<Vec<u8>, NoMemory>
    ensures text { IfOk result (λ bytes. bytes.items ≡ printed.printed unit.now) }
    ensures reads { IfOk result (λ bytes. is_unit unit.now ≡ true → Reads bytes.items unit.now) }
{
    let mut out = Vec::new(alloc);
    push_items(&mut out, unit.items.as_slice())?;
    Ok(out)
}

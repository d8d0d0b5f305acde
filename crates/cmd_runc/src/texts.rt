//! The lines that `runc` writes.
ghost use Rattle.std.specs.Prelude.{◌≡◌, ◌++◌, IfOk, MatchResult, OnOk};
ghost use Rattle.cmd_runc.specs.Texts as text;

use base::{NoMemory, push_number};
use c_subset::{CItem, CObject, CUnit};
use itoa::Buffer;
use std::alloc::Global;

/// Room for a line of usual length, so that its memory is taken once.
const LINE_ROOM: usize = 256;

/// A space, the object and its number, where it is shown.
fn push_object(out: &mut Vec<u8>, object: &CObject, number: i64) -> Result<(), NoMemory>
    ensures { OnOk result (out.new.items ≡ out.old.items ++ text.object_text (object.now, number)) }
{
    let name = object.name.as_slice();
    if !name.starts_with(b"v_") {
        return Ok(());
    }
    out.extend_from_slice(b" ")?;
    out.extend_from_slice(name)?;
    out.extend_from_slice(b"=")?;
    push_number(out, number)
}

/// What an item shows, and the numbers that are left for the items behind it.
#[tactic(auto, using(crate::proofs::TextLaws::put_laws))]
fn push_item<'a>(out: &mut Vec<u8>, item: &CItem, row: &'a [i64]) -> Result<&'a [i64], NoMemory>
    ensures { IfOk result (λ more. text.IsPut out.old.items out.new.items item.now row.now more.now) }
{
    let CItem::Object(object) = item else {
        return Ok(row);
    };
    match row.split_first() {
        Some((number, more)) => {
            push_object(out, object, *number)?;
            Ok(more)
        }
        None => Ok(row),
    }
}

fn push_items(out: &mut Vec<u8>, items: &[CItem], row: &[i64]) -> Result<(), NoMemory>
    ensures { OnOk result (out.new.items ≡ out.old.items ++ text.items_text items.now row.now) }
{
    let mut numbers = row;
    for item in items {
        numbers = push_item(out, item, numbers)?;
    }
    Ok(())
}

/// Appends the line on the objects of a unit: how many calls were made, and ` name=number` for each object whose name
/// begins with `v_`. The row has a number for each object of the unit. After a fault `out` is unchanged.
pub fn push_objects(
    out: &mut Vec<u8>,
    unit: &CUnit,
    number: u64,
    row: &[i64],
) -> Result<(), NoMemory>
    ensures { MatchResult result (λ _. out.new.items ≡ out.old.items ++ text.objects_text unit.now number row.now)
        (λ _. out.new.items ≡ out.old.items) }
{
    let mut line = Vec::with_capacity(*out.allocator(), LINE_ROOM)?;
    line.extend_from_slice(Buffer::new().format(number).as_bytes())?;
    push_items(&mut line, unit.items.as_slice(), row)?;
    line.push(b'\n')?;
    out.extend_from_slice(line.as_slice())?;
    Ok(())
}

/// Appends the line on a call that has no meaning.
pub(crate) fn push_overflow(out: &mut Vec<u8>, call: u64) -> Result<(), NoMemory>
    ensures { MatchResult result (λ _. out.new.items ≡ out.old.items ++ text.overflow_text call)
        (λ _. out.new.items ≡ out.old.items) }
{
    let text = format!(in *out.allocator(); "call {call}: overflow\n")?;
    out.extend_from_slice(text.as_bytes())?;
    Ok(())
}

/// The line on a text that is no unit.
pub(crate) fn refused_line(alloc: Global, line: u32) -> Result<Vec<u8>, NoMemory>
    ensures { IfOk result (λ out. out.items ≡ text.refused_text line) }
{
    let text = format!(in alloc; "code line {line}: refused\n")?;
    let mut out = Vec::new(alloc);
    out.extend_from_slice(text.as_bytes())?;
    Ok(out)
}

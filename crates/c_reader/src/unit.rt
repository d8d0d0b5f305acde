//! Reads units.

ghost use Rattle.std.specs.Prelude.{◌≡◌, ◌<◌, ◌≤◌, ◌-◌, ℕ, List, length, IfOk, true};
ghost use Rattle.c_subset.specs.declared.unit.CItem.{CItem};
ghost use Rattle.c_subset.specs.Rules.{is_item};
ghost use Rattle.c_reader.specs.Kept.{scope_of};
ghost use Rattle.c_reader.specs.Word.{Word};
ghost use Rattle.c_reader.specs.Tokens as tokens;
ghost use Rattle.c_reader.specs.Cut.{words_from, IsCutAt};
ghost use Rattle.c_reader.specs.Units.{Item};
ghost use Rattle.c_reader.specs.Text.{Reads, Refuses};
ghost use Rattle.c_reader.specs.Depth.{call_depth, unit_depth};

use crate::declared::Declared;
use crate::fault::CFault;
use crate::form::FormFault;
use crate::item::read_item;
use crate::rule::{declare, is_item};
use crate::step::token_start;
use c_subset::{CItem, CUnit};
use sqlite_items::Items;
use std::alloc::Global;

/// The line of a place in the text; from the line 4294967295 on, that number.
fn line_at(text: &[u8], at: usize) -> u32
    requires { at ≤ length text.now }
    ensures { result ≡ tokens.line_at text.now (length text.now - at) }
{
    let (front, _) = text.split_at(at);
    let feeds = front.iter().filter(|b| **b == b'\n').count();
    feeds.min(4294967294) as u32 + 1
}

/// The next item, where it keeps the rules behind what is declared, and the place behind it.
fn next_item(
    alloc: Global,
    declared: &Declared,
    text: &[u8],
    at: usize,
) -> Result<(CItem, usize), FormFault>
    requires { IsCutAt text.now at }
    ensures found { IfOk result (λ x. Item (words_from text.now at) x.0 (words_from text.now x.1)) }
    ensures kept { IfOk result (λ x. is_item (scope_of declared.now) x.0 ≡ true) }
    ensures shorter { IfOk result (λ x. length (words_from text.now x.1) < length (words_from text.now at)) }
    ensures cut { IfOk result (λ x. IsCutAt text.now x.1) }
    ensures refused { result ≡ Err FormFault.Refused
        → (x : CItem) (rest : List Word) → Item (words_from text.now at) x rest → is_item (scope_of declared.now) x ≡ true → ⊥ }
{
    let (item, rest) = read_item(alloc, text, at)?;
    let kept = is_item(alloc, declared, &item)?;
    if kept {
        Ok((item, rest))
    } else {
        Err(FormFault::Refused)
    }
}

/// The unit that a text says.
fn read_unit(alloc: Global, text: &[u8]) -> Result<CUnit, CFault>
    ensures read { IfOk result (λ unit. Reads text.now unit) }
    ensures refused { (line : ℕ) → result ≡ Err (CFault.Refused line) → Refuses text.now line }
{
    let mut items = Items::new(alloc);
    let mut declared = Declared::new(alloc);
    let mut here = 0;
    'items: loop {
        let start = token_start(text, here);
        if start == text.len() {
            return Ok(CUnit { items });
        }
        match next_item(alloc, &declared, text, start) {
            Ok((item, rest)) => {
                declare(alloc, &mut declared, &item)?;
                items.push(item)?;
                here = rest;
            }
            Err(FormFault::Refused) => return Err(CFault::Refused(line_at(text, start))),
            Err(FormFault::NoMemory) => return Err(CFault::NoMemory),
        }
    }
}

/// Reads the text of a C unit. A text that is none is refused at the line of the first token after the longest row of
/// items that is a unit; lines count from 1.
pub fn read_c(alloc: Global, text: &[u8]) -> Result<CUnit, CFault>
    ensures read { IfOk result (λ unit. Reads text.now unit) }
    ensures calls { IfOk result (λ unit. call_depth unit ≤ 256) }
    ensures depth { IfOk result (λ unit. unit_depth unit ≤ 1543) }
    ensures refused { (line : ℕ) → result ≡ Err (CFault.Refused line) → Refuses text.now line }
{
    read_unit(alloc, text)
}

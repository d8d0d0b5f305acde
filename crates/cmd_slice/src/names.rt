//! The variables that the words name.
ghost use Rattle.std.specs.Prelude.{◌≡◌, IfOk, map, string_bytes};
ghost use Rattle.scr_spec.specs.Shown.{data_of};
ghost use Rattle.cmd_slice.specs.Names.{IsSelection, unknown_text};

use base::NoMemory;
use scr_spec::Spec;
use sqlite_items::Items;
use std::alloc::Global;

/// What the words name.
#[derive(Drop)]
pub(crate) enum Selection {
    /// Variables, with these numbers in the order of the words.
    Variables(Items<usize>),
    /// Some word names none. This is the line on the first one.
    Refused(Vec<u8>),
}

/// The line on a word that names no variable.
fn unknown_line(alloc: Global, word: &str) -> Result<Vec<u8>, NoMemory>
    ensures { IfOk result (λ line. line.items ≡ unknown_text word.now) }
{
    let line = format!(in alloc; "name {word}: unknown\n")?;
    Ok(line.into_bytes())
}

/// The variables that the words name, or the line on the first word that names none.
pub(crate) fn select(alloc: Global, spec: &Spec, words: &[String]) -> Result<Selection, NoMemory>
    ensures { IfOk result (IsSelection (data_of spec.now) (map string_bytes words.now)) }
{
    let mut numbers = Items::new(alloc);
    for word in words {
        match spec.find(word.as_bytes()) {
            Some(v) => numbers.push(v)?,
            None => return Ok(Selection::Refused(unknown_line(alloc, word.as_str())?)),
        }
    }
    Ok(Selection::Variables(numbers))
}

//! What a text spells.
ghost use Rattle.std.specs.Prelude.{List, ℕ, Some, IfOk};
ghost use Rattle.scr_spec.specs.Shown.{data_of};
ghost use Rattle.scr_parse.specs.Text.{TextReads};
ghost use Rattle.scr_parse.specs.Readable.{IsReadable};
ghost use Rattle.scr_parse.specs.declared.text.TheConstants.{TEXT_LIMIT};
ghost use Rattle.scr_resolve.specs.Texts.{IsRefused, unread, unresolved};
ghost use Rattle.cmd_work.specs.Load.{IsLoaded};
ghost use Rattle.cmd_checked.specs.Spelling.{IsSpelling};

use base::{Name, NoMemory};
use cmd_report::{push_text_fault, push_type_fault};
use cmd_work::Loaded;
use scr_parse::{Draft, TextFault, TextKind, read};
use scr_resolve::{TypeFault, TypeKind, resolve};
use scr_spec::Spec;
use std::alloc::Global;

/// What a text spells.
#[derive(Drop)]
pub enum Spelling {
    /// A specification.
    Right(Spec),
    /// None: the line on the first thing that is wrong with the text.
    Refused(Vec<u8>),
}

/// The line on a text that is no draft.
fn no_draft(alloc: Global, line: u32, kind: TextKind) -> Result<Spelling, NoMemory>
    ensures { IfOk result (λ s. (text : List ℕ) → IsRefused text (unread line kind) → IsSpelling text s) }
{
    let mut out = Vec::new(alloc);
    push_text_fault(&mut out, line, kind)?;
    Ok(Spelling::Refused(out))
}

/// The line on a draft that breaks a rule.
fn ill_typed(alloc: Global, line: u32, kind: TypeKind, name: &Name) -> Result<Spelling, NoMemory>
    ensures { IfOk result (λ s. (text : List ℕ) → IsRefused text (unresolved line kind name.now) → IsSpelling text s) }
{
    let mut out = Vec::new(alloc);
    push_type_fault(&mut out, line, kind, name)?;
    Ok(Spelling::Refused(out))
}

/// What a text that is these statements spells.
fn spell_draft(alloc: Global, draft: &Draft) -> Result<Spelling, NoMemory>
    requires { IsReadable draft.now.statements }
    ensures { (text : List ℕ) → TextReads text draft.now.statements → IfOk result (IsSpelling text) }
{
    match resolve(alloc, draft) {
        Ok(spec) => Ok(Spelling::Right(spec)),
        Err(TypeFault::Refused(line, kind, name)) => ill_typed(alloc, line, kind, &name),
        Err(TypeFault::NoMemory) => Err(NoMemory),
    }
}

/// What a text spells.
pub fn spell_text(alloc: Global, text: &[u8]) -> Result<Spelling, NoMemory>
    ensures { IfOk result (IsSpelling text.now) }
{
    match read(alloc, text) {
        Ok(draft) => spell_draft(alloc, &draft),
        Err(TextFault::Refused(line, kind)) => no_draft(alloc, line, kind),
        Err(TextFault::NoMemory) => Err(NoMemory),
    }
}

/// What the text of a file spells that was read with the limit of texts. One above it is refused.
pub fn spell_file(alloc: Global, file: &Loaded) -> Result<Spelling, NoMemory>
    ensures { IfOk result (λ s. (text : List ℕ) → IsLoaded TEXT_LIMIT (Some text) file.now → IsSpelling text s) }
{
    match file {
        Loaded::Whole(text) => spell_text(alloc, text.as_slice()),
        Loaded::TooLong => no_draft(alloc, 0, TextKind::Limit),
    }
}

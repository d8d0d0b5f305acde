//! What a text asserts of a specification.
ghost use Rattle.std.specs.Prelude.{◌≡◌, List, ℕ, IfOk};
ghost use Rattle.scr_spec.specs.Shown.{data_of};
ghost use Rattle.scr_parse.specs.Assertions.{TextAsserts};
ghost use Rattle.scr_spec.specs.Data.{Data};
ghost use Rattle.scr_resolve.specs.Texts.{unread, unresolved};
ghost use Rattle.scr_resolve_asserts.specs.Texts.{IsAssertionRefusal};
ghost use Rattle.cmd_reach.specs.Texts.{refused_text};
ghost use Rattle.cmd_reach.specs.Reaches.{IsReading};

use base::{Name, NoMemory};
use cmd_report::{push_text_fault, push_type_fault};
use scr_parse::{DraftAssertion, TextFault, TextKind, read_assertions};
use scr_resolve::{TypeFault, TypeKind};
use scr_resolve_asserts::{Assertion, resolve_assertions};
use scr_spec::Spec;
use sqlite_items::Items;
use std::alloc::Global;

/// What a text asserts of a specification.
#[derive(Drop)]
pub(crate) enum Reading {
    /// These assertions.
    Right(Items<Assertion>),
    /// None: the line on the first thing that is wrong with the text.
    Refused(Vec<u8>),
}

/// The line on a line that is not read.
pub(crate) fn unread_line(alloc: Global, line: u32, kind: TextKind) -> Result<Vec<u8>, NoMemory>
    ensures { IfOk result (λ out. out.items ≡ refused_text (unread line kind)) }
{
    let mut out = Vec::from_slice(alloc, b"assert ")?;
    push_text_fault(&mut out, line, kind)?;
    Ok(out)
}

/// What a text asserts that has a line that is not read.
fn unread(alloc: Global, line: u32, kind: TextKind) -> Result<Reading, NoMemory>
    ensures { IfOk result (λ r. (text : List ℕ) (spec : Data) → IsAssertionRefusal text spec (unread line kind) → IsReading text spec r) }
{
    Ok(Reading::Refused(unread_line(alloc, line, kind)?))
}

/// What a text asserts that has a line that breaks a rule.
fn unresolved(alloc: Global, line: u32, kind: TypeKind, name: &Name) -> Result<Reading, NoMemory>
    ensures { IfOk result (λ r. (text : List ℕ) (spec : Data) → IsAssertionRefusal text spec (unresolved line kind name.now) → IsReading text spec r) }
{
    let mut out = Vec::from_slice(alloc, b"assert ")?;
    push_type_fault(&mut out, line, kind, name)?;
    Ok(Reading::Refused(out))
}

/// What a text asserts that is these drafts.
fn resolve(alloc: Global, spec: &Spec, drafts: &[DraftAssertion]) -> Result<Reading, NoMemory>
    ensures { (text : List ℕ) → TextAsserts text drafts.now → IfOk result (IsReading text (data_of spec.now)) }
{
    match resolve_assertions(alloc, spec, drafts) {
        Ok(assertions) => Ok(Reading::Right(assertions)),
        Err(TypeFault::Refused(line, kind, name)) => unresolved(alloc, line, kind, &name),
        Err(TypeFault::NoMemory) => Err(NoMemory),
    }
}

/// What a text asserts of the specification.
pub(crate) fn read(alloc: Global, spec: &Spec, text: &[u8]) -> Result<Reading, NoMemory>
    ensures { IfOk result (IsReading text.now (data_of spec.now)) }
{
    match read_assertions(alloc, text) {
        Ok(drafts) => resolve(alloc, spec, drafts.as_slice()),
        Err(TextFault::Refused(line, kind)) => unread(alloc, line, kind),
        Err(TextFault::NoMemory) => Err(NoMemory),
    }
}

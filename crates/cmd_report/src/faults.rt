//! The lines on a text that is refused.
ghost use Rattle.std.specs.Prelude.{◌≡◌, ◌++◌, MatchResult};
ghost use Rattle.cmd_report.specs.Faults as text;

use base::{Name, NoMemory};
use scr_parse::TextKind;
use scr_resolve::TypeKind;

fn text_kind_word(kind: TextKind) -> &'static str
    ensures { result.now ≡ text.text_kind_word kind }
{
    match kind {
        TextKind::Byte => "byte",
        TextKind::Limit => "limit",
        TextKind::Syntax => "syntax",
        TextKind::End => "end",
    }
}

/// Appends the line on a text whose line has no tokens, passes a limit, has no form at its place,
/// or is missing: `line L: KIND`. After a fault `out` is unchanged.
pub fn push_text_fault(out: &mut Vec<u8>, line: u32, kind: TextKind) -> Result<(), NoMemory>
    ensures { MatchResult result (λ _. out.new.items ≡ out.old.items ++ text.text_fault line kind)
        (λ _. out.new.items ≡ out.old.items) }
{
    let word = text_kind_word(kind);
    let text = format!(in *out.allocator(); "line {line}: {word}\n")?;
    out.extend_from_slice(text.as_bytes())?;
    Ok(())
}

fn type_kind_word(kind: TypeKind) -> &'static str
    ensures { result.now ≡ text.type_kind_word kind }
{
    match kind {
        TypeKind::Duplicate => "duplicate",
        TypeKind::Unknown => "unknown",
        TypeKind::Kind => "type",
        TypeKind::Range => "range",
        TypeKind::Wide => "wide",
        TypeKind::Mode => "mode",
        TypeKind::Table => "table",
    }
}

/// Appends the line on a text whose line breaks a rule, and the name that breaks it:
/// `line L: KIND NAME`. After a fault `out` is unchanged.
pub fn push_type_fault(
    out: &mut Vec<u8>,
    line: u32,
    kind: TypeKind,
    name: &Name,
) -> Result<(), NoMemory>
    ensures { MatchResult result (λ _. out.new.items ≡ out.old.items ++ text.type_fault line kind name.now)
        (λ _. out.new.items ≡ out.old.items) }
{
    let word = type_kind_word(kind);
    let mut text = format!(in *out.allocator(); "line {line}: {word} ")?.into_bytes();
    text.extend_from_slice(name.as_slice())?;
    text.push(b'\n')?;
    out.extend_from_slice(text.as_slice())?;
    Ok(())
}

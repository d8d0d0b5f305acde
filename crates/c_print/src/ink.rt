//! Words and the space between them.

ghost use Rattle.std.specs.Prelude.{◌≡◌, ◌∷◌, OnOk};
ghost use Rattle.c_reader.specs.Word as w;
ghost use Rattle.c_print.specs.Appended as spec;
ghost use Rattle.c_print.specs.Marks as marks;
ghost use Rattle.c_print.specs.Printed as printed;

use base::{Name, NoMemory, push_number};
use c_reader::{Keyword, Sign};

fn sign_bytes(sign: Sign) -> &'static [u8]
    ensures { result.now ≡ marks.sign_text sign }
{
    match sign {
        Sign::OpenParen => b"(".as_slice(),
        Sign::CloseParen => b")".as_slice(),
        Sign::OpenBrace => b"{".as_slice(),
        Sign::CloseBrace => b"}".as_slice(),
        Sign::Semicolon => b";".as_slice(),
        Sign::Colon => b":".as_slice(),
        Sign::Assign => b"=".as_slice(),
        Sign::Equal => b"==".as_slice(),
        Sign::Differ => b"!=".as_slice(),
        Sign::Less => b"<".as_slice(),
        Sign::AtMost => b"<=".as_slice(),
        Sign::Greater => b">".as_slice(),
        Sign::AtLeast => b">=".as_slice(),
        Sign::Plus => b"+".as_slice(),
        Sign::Minus => b"-".as_slice(),
        Sign::Times => b"*".as_slice(),
        Sign::Not => b"!".as_slice(),
        Sign::And => b"&&".as_slice(),
        Sign::Or => b"||".as_slice(),
    }
}

fn keyword_bytes(keyword: Keyword) -> &'static [u8]
    ensures { result.now ≡ marks.keyword_text keyword }
{
    match keyword {
        Keyword::Long => b"long".as_slice(),
        Keyword::Void => b"void".as_slice(),
        Keyword::If => b"if".as_slice(),
        Keyword::Else => b"else".as_slice(),
        Keyword::Switch => b"switch".as_slice(),
        Keyword::Case => b"case".as_slice(),
        Keyword::Break => b"break".as_slice(),
    }
}

/// Writes a sign.
pub(crate) fn push_sign(out: &mut Vec<u8>, sign: Sign) -> Result<(), NoMemory>
    ensures { OnOk result (spec.Appends (printed.sign sign) out.old.items out.new.items) }
{
    out.extend_from_slice(sign_bytes(sign))?;
    Ok(())
}

/// Writes a keyword.
pub(crate) fn push_keyword(out: &mut Vec<u8>, keyword: Keyword) -> Result<(), NoMemory>
    ensures { OnOk result (spec.Appends (printed.keyword keyword) out.old.items out.new.items) }
{
    out.extend_from_slice(keyword_bytes(keyword))?;
    Ok(())
}

/// Writes a name.
pub(crate) fn push_name(out: &mut Vec<u8>, name: &Name) -> Result<(), NoMemory>
    ensures { OnOk result (spec.Appends (λ rest. marks.ink (w.Name name.now) ∷ rest) out.old.items out.new.items) }
{
    out.extend_from_slice(name.as_slice())?;
    Ok(())
}

/// Writes a constant.
pub(crate) fn push_constant(out: &mut Vec<u8>, value: i64) -> Result<(), NoMemory>
    ensures { OnOk result (spec.Appends (λ rest. marks.ink (w.Constant value) ∷ rest) out.old.items out.new.items) }
{
    push_number(out, value)?;
    out.extend_from_slice(b"L")?;
    Ok(())
}

/// Writes a space.
pub(crate) fn push_space(out: &mut Vec<u8>) -> Result<(), NoMemory>
    ensures { OnOk result (spec.Appends (λ rest. marks.space ∷ rest) out.old.items out.new.items) }
{
    out.extend_from_slice(b" ")?;
    Ok(())
}

/// Ends a line.
pub(crate) fn push_feed(out: &mut Vec<u8>) -> Result<(), NoMemory>
    ensures { OnOk result (spec.Appends (λ rest. marks.feed ∷ rest) out.old.items out.new.items) }
{
    out.extend_from_slice(b"\n")?;
    Ok(())
}

/// Writes a sign with a space on either side.
pub(crate) fn push_between(out: &mut Vec<u8>, sign: Sign) -> Result<(), NoMemory>
    ensures { OnOk result (spec.Appends (printed.between sign) out.old.items out.new.items) }
{
    push_space(out)?;
    push_sign(out, sign)?;
    push_space(out)
}

/// Writes a sign before each part but the first.
pub(crate) fn push_before(out: &mut Vec<u8>, is_first: bool, sign: Sign) -> Result<(), NoMemory>
    ensures { OnOk result (spec.Appends (spec.before is_first sign) out.old.items out.new.items) }
{
    if is_first {
        Ok(())
    } else {
        push_between(out, sign)
    }
}

/// Writes two spaces for each open brace.
pub(crate) fn push_indent(out: &mut Vec<u8>, depth: usize) -> Result<(), NoMemory>
    ensures { OnOk result (spec.Appends (λ rest. marks.indent depth ∷ rest) out.old.items out.new.items) }
{
    for _ in 0..depth {
        out.extend_from_slice(b"  ")?;
    }
    Ok(())
}

/// Ends a statement, and its line.
pub(crate) fn push_end(out: &mut Vec<u8>) -> Result<(), NoMemory>
    ensures { OnOk result (spec.Appends spec.end_marks out.old.items out.new.items) }
{
    push_sign(out, Sign::Semicolon)?;
    push_feed(out)
}

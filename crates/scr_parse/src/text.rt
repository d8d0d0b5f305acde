//! Reads a whole text.

ghost use Rattle.std.specs.Prelude.{◌≡◌, ◌≤◌, ◌++◌, length, MatchResult, OnOk};
ghost use Rattle.base.specs.Lines.{lines};
ghost use Rattle.scr_parse.specs.Faults as faults;
ghost use Rattle.scr_parse.specs.Text as spec;
ghost use Rattle.scr_parse.specs.Readable.{ReadsReadable};

use crate::limit::no_counts;
use crate::line::read_line;
use crate::place::LineFault;
use crate::{ASSERTION_LIMIT, Draft, Numbered, Place, Position, Statement, TextFault, TextKind};
use base::cut_line;
use sqlite_items::Items;
use std::alloc::{AllocError, Global};

/// The greatest length of a text, in bytes.
pub const TEXT_LIMIT: usize = 1_048_576;

fn keep(
    draft: &mut Items<Numbered>,
    line: u32,
    statement: Option<Statement>,
) -> Result<(), AllocError>
    ensures { OnOk result (draft.new ≡ draft.old ++ spec.numbered line statement) }
{
    match statement {
        Some(statement) => draft.push(Numbered { line, statement }),
        None => Ok(()),
    }
}

/// The fault of a line, at that line.
pub(crate) fn at_line(line: u32, fault: LineFault) -> TextFault
    ensures { result ≡ faults.at_line line fault }
{
    match fault {
        LineFault::Refused(kind) => TextFault::Refused(line, kind),
        LineFault::NoMemory => TextFault::NoMemory,
    }
}

fn start() -> Position
    ensures { result ≡ spec.start }
{
    Position {
        place: Place::Start,
        counts: no_counts(),
    }
}

/// The statements of the lines, up to `FINISH`.
fn read_lines(alloc: Global, text: &[u8]) -> Result<Items<Numbered>, TextFault>
    requires { length text.now ≤ TEXT_LIMIT }
    ensures { MatchResult result
        (spec.LinesRead (lines text.now))
        (spec.LinesFail (lines text.now)) }
{
    let mut draft = Items::new(alloc);
    let mut position = start();
    let mut number: u32 = 1;
    let mut here = text;
    'lines: while !here.is_empty() {
        let (line, rest) = cut_line(here);
        match read_line(alloc, position, line) {
            Ok((statement, next)) => {
                keep(&mut draft, number, statement)?;
                position = next;
            }
            Err(fault) => return Err(at_line(number, fault)),
        }
        here = rest;
        number += 1;
    }
    match position.place {
        Place::After => Ok(draft),
        _ => Err(TextFault::Refused(number, TextKind::End)),
    }
}

/// The statements of a text with their lines, or its first line that is refused.
pub fn read(alloc: Global, text: &[u8]) -> Result<Draft, TextFault>
    ensures { MatchResult result
        (λ draft. spec.TextReads text.now draft.statements)
        (spec.TextRefuses text.now) }
{
    if text.len() > TEXT_LIMIT {
        return Err(TextFault::Refused(0, TextKind::Limit));
    }
    let statements = read_lines(alloc, text)?;
    Ok(Draft { statements })
}

/// A text is read in one way or refused in one way, and never neither.
pub fn one_outcome()
    ensures { spec.OneOutcome }
{}

/// What is read stands in its places, and within the limits.
pub fn reads_readable()
    ensures { ReadsReadable }
{}

/// A text has at most 1,048,576 bytes, and a text of assertions 64 of them.
pub fn limits_of_texts()
    ensures text { TEXT_LIMIT ≡ 1048576 }
    ensures assertions { ASSERTION_LIMIT ≡ 64 }
{}

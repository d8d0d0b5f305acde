//! Reads one line.

ghost use Rattle.std.specs.Prelude.{◌≡◌, true, MatchResult};
ghost use Rattle.scr_parse.specs.Words.{words};
ghost use Rattle.scr_parse.specs.Limits as limits;
ghost use Rattle.scr_parse.specs.Refusals.{Fails};
ghost use Rattle.scr_parse.specs.Text.{Says, LineReads, WordsRefuse, LineRefuses};

use crate::form::read_form;
use crate::limit::{counted, is_count_within, is_line_within, is_statement_within};
use crate::place::LineFault;
use crate::{Position, Statement, TextKind};
use scr_tokens::{Token, lex_line};
use std::alloc::Global;

/// What the tokens of a line say, and the position behind it.
fn read_tokens(
    alloc: Global,
    position: Position,
    tokens: &[Token],
) -> Result<(Statement, Position), LineFault>
    requires { limits.is_count_within position.counts ≡ true }
    ensures { MatchResult result
        (λ x. Says position (words tokens.now) x.0 x.1)
        (Fails (WordsRefuse position (words tokens.now))) }
{
    if !is_line_within(tokens) {
        return Err(LineFault::Refused(TextKind::Limit));
    }
    let (statement, place) = read_form(alloc, position.place, tokens)?;
    if !is_statement_within(&statement) {
        return Err(LineFault::Refused(TextKind::Limit));
    }
    let counts = counted(position.counts, &statement);
    if !is_count_within(counts) {
        return Err(LineFault::Refused(TextKind::Limit));
    }
    Ok((statement, Position { place, counts }))
}

/// What a line says, and the position behind it. A line without tokens says nothing.
pub(crate) fn read_line(
    alloc: Global,
    position: Position,
    line: &[u8],
) -> Result<(Option<Statement>, Position), LineFault>
    requires { limits.is_count_within position.counts ≡ true }
    ensures { MatchResult result
        (λ x. LineReads position line.now x.0 x.1)
        (Fails (LineRefuses position line.now)) }
{
    let tokens = lex_line(alloc, line)?;
    if tokens.is_empty() {
        return Ok((None, position));
    }
    let (statement, next) = read_tokens(alloc, position, tokens.as_slice())?;
    Ok((Some(statement), next))
}

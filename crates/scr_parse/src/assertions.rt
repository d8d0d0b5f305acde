//! Reads a text of assertions.

ghost use Rattle.std.specs.Prelude.{◌≡◌, ◌∷◌, ◌++◌, ◌≤◌, ℕ, List, [], Err, length, true, IfOk, OnOk, MatchResult};
ghost use Rattle.std.specs.Option.{option_to_list};
ghost use Rattle.base.specs.Lines.{lines};
ghost use Rattle.scr_parse.specs.declared.draft.DraftCond.{DraftCond};
ghost use Rattle.scr_parse.specs.Words.{words};
ghost use Rattle.scr_parse.specs.Conds.{any_of, Cond};
ghost use Rattle.scr_parse.specs.Refusals.{Fails};
ghost use Rattle.scr_parse.specs.Assertions as spec;

use crate::cond::{any_of, read_cond};
use crate::fault::FormFault;
use crate::limit::{is_cond_within, is_line_within};
use crate::place::LineFault;
use crate::step::{is_end, past_keyword, take_name_before};
use crate::text::{TEXT_LIMIT, at_line};
use crate::{DraftAssertion, DraftCond, TextFault, TextKind};
use base::{Name, cut_line};
use scr_tokens::{Keyword, Sign, Token, lex_line};
use sqlite_items::Items;
use std::alloc::{AllocError, Global};

/// The greatest number of assertions in a text.
pub const ASSERTION_LIMIT: usize = 64;

/// The condition that the tokens say, to the last of them. Items may have primed names.
#[tactic(auto, using(crate::proofs::Once::cond_once))]
fn read_last_cond(alloc: Global, tokens: &[Token]) -> Result<DraftCond, FormFault>
    ensures found { IfOk result (λ cond. (ds : List DraftCond) × Cond true (words tokens.now) ds []
        × (cond ≡ any_of ds)) }
    ensures refused { result ≡ Err FormFault.Refused
        → (ds : List DraftCond) → Cond true (words tokens.now) ds [] → ⊥ }
{
    let (members, rest) = read_cond(alloc, true, tokens)?;
    if is_end(rest) {
        Ok(any_of(members))
    } else {
        Err(FormFault::Refused)
    }
}

/// `ASSERT n : cond`
fn read_assertion(alloc: Global, tokens: &[Token]) -> Result<(Name, DraftCond), FormFault>
    ensures found { IfOk result (λ x. spec.Form (words tokens.now) x.0 x.1) }
    ensures refused { result ≡ Err FormFault.Refused → spec.NoForm (words tokens.now) }
{
    let Some(rest) = past_keyword(tokens, Keyword::Assert) else {
        return Err(FormFault::Refused);
    };
    let Some((name, rest)) = take_name_before(rest, Sign::Colon) else {
        return Err(FormFault::Refused);
    };
    let cond = read_last_cond(alloc, rest)?;
    Ok((name.copy(alloc)?, cond))
}

/// The name and the condition that the tokens of a line say, behind so many assertions.
fn read_tokens(
    alloc: Global,
    before: usize,
    tokens: &[Token],
) -> Result<(Name, DraftCond), LineFault>
    ensures { MatchResult result
        (λ x. spec.Says before (words tokens.now) x.0 x.1)
        (Fails (spec.WordsRefuse before (words tokens.now))) }
{
    if !is_line_within(tokens) {
        return Err(LineFault::Refused(TextKind::Limit));
    }
    let (name, cond) = read_assertion(alloc, tokens)?;
    if !is_cond_within(&cond) {
        return Err(LineFault::Refused(TextKind::Limit));
    }
    if before >= ASSERTION_LIMIT {
        return Err(LineFault::Refused(TextKind::Limit));
    }
    Ok((name, cond))
}

/// The assertion of a line. A line without tokens has none.
fn read_line(
    alloc: Global,
    before: usize,
    number: u32,
    line: &[u8],
) -> Result<Option<DraftAssertion>, LineFault>
    ensures { MatchResult result
        (λ said. spec.LineAsserts before number line.now said)
        (Fails (spec.LineRefuses before line.now)) }
{
    let tokens = lex_line(alloc, line)?;
    if tokens.is_empty() {
        return Ok(None);
    }
    let (name, cond) = read_tokens(alloc, before, tokens.as_slice())?;
    Ok(Some(DraftAssertion {
        line: number,
        name,
        cond,
    }))
}

fn keep(drafts: &mut Items<DraftAssertion>, said: Option<DraftAssertion>) -> Result<(), AllocError>
    ensures { OnOk result (drafts.new ≡ drafts.old ++ option_to_list said) }
{
    match said {
        Some(draft) => drafts.push(draft),
        None => Ok(()),
    }
}

/// The assertions of the lines.
fn read_lines(alloc: Global, text: &[u8]) -> Result<Items<DraftAssertion>, TextFault>
    requires { length text.now ≤ TEXT_LIMIT }
    ensures { MatchResult result
        (spec.Reads 0 1 (lines text.now))
        (spec.LinesFail (lines text.now)) }
{
    let mut drafts = Items::new(alloc);
    let mut number: u32 = 1;
    let mut here = text;
    'lines: while !here.is_empty() {
        let (line, rest) = cut_line(here);
        match read_line(alloc, drafts.len(), number, line) {
            Ok(said) => keep(&mut drafts, said)?,
            Err(fault) => return Err(at_line(number, fault)),
        }
        here = rest;
        number += 1;
    }
    Ok(drafts)
}

/// The assertions of a text with their lines, or its first line that is refused.
pub fn read_assertions(alloc: Global, text: &[u8]) -> Result<Items<DraftAssertion>, TextFault>
    ensures { MatchResult result
        (spec.TextAsserts text.now)
        (spec.AssertionsRefuse text.now) }
{
    if text.len() > TEXT_LIMIT {
        return Err(TextFault::Refused(0, TextKind::Limit));
    }
    let drafts = read_lines(alloc, text)?;
    Ok(drafts)
}

/// A text of assertions is read in one way or refused in one way, and never neither.
pub fn one_outcome_of_assertions()
    ensures { spec.OneOutcomeOfAssertions }
{}

/// The assertions that are read are readable, and no more than may be.
pub fn asserts_readable()
    ensures { spec.AssertsReadable }
{}

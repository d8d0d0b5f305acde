//! Reads events: `event = prim { OR prim }`, where a `prim` is `NEVER`, or `@T(cond)`, `@F(cond)` or
//! `@C(n)`, and then `[ WHEN conj ]`.

ghost use Rattle.std.specs.Prelude.{◌≡◌, ◌<◌, ℕ, false, List, ◌∷◌, length, IfOk, MatchOption};
ghost use Rattle.scr_parse.specs.Words.{words};
ghost use Rattle.scr_parse.specs.Conds.{any_of, Cond};
ghost use Rattle.scr_parse.specs.Events.{Change, Prim, Event};

use crate::cond::{all_of, read_conj, read_nested};
use crate::draft::{DraftChange, DraftCond, DraftPrim};
use crate::fault::FormFault;
use crate::step::{past_keyword, past_sign, take_name};
use base::Name;
use scr_tokens::{Keyword, Sign, Token, Word};
use sqlite_items::Items;
use std::alloc::Global;

/// The condition in parentheses that stands behind `@T` or `@F`.
fn read_operand(alloc: Global, tokens: &[Token]) -> Result<(DraftCond, &[Token]), FormFault>
    ensures found { IfOk result (λ x. (from : List Word) × (ds : List DraftCond)
        × (words tokens.now ≡ Word.Sign Sign.OpenParen ∷ from)
        × Cond false from ds (Word.Sign Sign.CloseParen ∷ words x.1.now) × (x.0 ≡ any_of ds)) }
    ensures shorter { IfOk result (λ x. length x.1.now < length tokens.now) }
    ensures refused { result ≡ Err FormFault.Refused
        → (from : List Word) (ds : List DraftCond) (rest : List Word)
        → words tokens.now ≡ Word.Sign Sign.OpenParen ∷ from
        → Cond false from ds (Word.Sign Sign.CloseParen ∷ rest) → ⊥ }
{
    match past_sign(tokens, Sign::OpenParen) {
        Some(from) => read_nested(alloc, false, from),
        None => Err(FormFault::Refused),
    }
}

/// The name in parentheses that stands behind `@C`.
fn take_operand(tokens: &[Token]) -> Option<(&Name, &[Token])>
    ensures { MatchOption result
        ((name : List ℕ) (rest : List Word) → words tokens.now
        ≡ Word.Sign Sign.OpenParen ∷ Word.Name name ∷ Word.Sign Sign.CloseParen ∷ rest → ⊥)
        (λ x. words tokens.now
        ≡ Word.Sign Sign.OpenParen ∷ Word.Name x.0.now ∷ Word.Sign Sign.CloseParen ∷ words x.1.now) }
{
    let from = past_sign(tokens, Sign::OpenParen)?;
    let (name, after) = take_name(from)?;
    let rest = past_sign(after, Sign::CloseParen)?;
    Some((name, rest))
}

/// `@T`, `@F` or `@C` with what stands in its parentheses.
fn read_change(alloc: Global, tokens: &[Token]) -> Result<(DraftChange, &[Token]), FormFault>
    ensures found { IfOk result (λ x. Change (words tokens.now) x.0 (words x.1.now)) }
    ensures shorter { IfOk result (λ x. length x.1.now < length tokens.now) }
    ensures refused { result ≡ Err FormFault.Refused
        → (change : DraftChange) (rest : List Word) → Change (words tokens.now) change rest → ⊥ }
{
    if let Some(from) = past_sign(tokens, Sign::AtT) {
        let (operand, rest) = read_operand(alloc, from)?;
        return Ok((DraftChange::Becomes(operand), rest));
    }
    if let Some(from) = past_sign(tokens, Sign::AtF) {
        let (operand, rest) = read_operand(alloc, from)?;
        return Ok((DraftChange::Ceases(operand), rest));
    }
    let Some(from) = past_sign(tokens, Sign::AtC) else {
        return Err(FormFault::Refused);
    };
    match take_operand(from) {
        Some((name, rest)) => Ok((DraftChange::Changes(name.copy(alloc)?), rest)),
        None => Err(FormFault::Refused),
    }
}

/// `NEVER`, or a change with the condition behind `WHEN` if there is one.
fn read_prim(alloc: Global, tokens: &[Token]) -> Result<(DraftPrim, &[Token]), FormFault>
    ensures found { IfOk result (λ x. Prim (words tokens.now) x.0 (words x.1.now)) }
    ensures shorter { IfOk result (λ x. length x.1.now < length tokens.now) }
    ensures refused { result ≡ Err FormFault.Refused
        → (prim : DraftPrim) (rest : List Word) → Prim (words tokens.now) prim rest → ⊥ }
{
    if let Some(rest) = past_keyword(tokens, Keyword::Never) {
        return Ok((
            DraftPrim {
                change: DraftChange::Never,
                guard: None,
            },
            rest,
        ));
    }
    let (change, after) = read_change(alloc, tokens)?;
    match past_keyword(after, Keyword::When) {
        Some(from) => {
            let (members, rest) = read_conj(alloc, false, from)?;
            Ok((
                DraftPrim {
                    change,
                    guard: Some(all_of(members)),
                },
                rest,
            ))
        }
        None => Ok((
            DraftPrim {
                change,
                guard: None,
            },
            after,
        )),
    }
}

/// The primitive events that `OR` joins, and the tokens behind them.
pub(crate) fn read_event(
    alloc: Global,
    tokens: &[Token],
) -> Result<(Items<DraftPrim>, &[Token]), FormFault>
    ensures found { IfOk result (λ x. Event (words tokens.now) x.0 (words x.1.now)) }
    ensures shorter { IfOk result (λ x. length x.1.now < length tokens.now) }
    ensures refused { result ≡ Err FormFault.Refused
        → (prims : List DraftPrim) (rest : List Word) → Event (words tokens.now) prims rest → ⊥ }
{
    let mut prims = Items::from_vec(Vec::with_capacity(alloc, 1)?);
    let mut here = tokens;
    'prims: loop {
        let (prim, after) = read_prim(alloc, here)?;
        prims.push(prim)?;
        match past_keyword(after, Keyword::Or) {
            Some(next) => here = next,
            None => return Ok((prims, after)),
        }
    }
}

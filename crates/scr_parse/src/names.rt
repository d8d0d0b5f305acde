//! Lists of names, numbers with a sign, types and values.

ghost use Rattle.std.specs.Prelude.{◌≡◌, ℕ, ℤ, List, MatchOption, IfOk, Err};
ghost use Rattle.scr_tokens.specs.declared.word.Word.{Word};
ghost use Rattle.scr_parse.specs.declared.draft.DraftKind.{DraftKind};
ghost use Rattle.scr_parse.specs.declared.draft.DraftValue.{DraftValue};
ghost use Rattle.scr_parse.specs.Words.{words};
ghost use Rattle.scr_parse.specs.Names.{Names, Int, KindOf, Value};

use crate::fault::FormFault;
use crate::step::{past_keyword, past_sign, take_name, take_number};
use crate::{DraftKind, DraftValue};
use base::Name;
use scr_tokens::{Keyword, Sign, Token};
use sqlite_items::Items;
use std::alloc::Global;

/// A number, with or without a minus.
pub(crate) fn read_int(tokens: &[Token]) -> Option<(i64, &[Token])>
    ensures { MatchOption result ((v : ℤ) (rest : List Word) → Int (words tokens.now) v rest → ⊥)
        (λ x. Int (words tokens.now) x.0 (words x.1.now)) }
{
    match past_sign(tokens, Sign::Minus) {
        Some(rest) => {
            let (n, rest) = take_number(rest)?;
            Some((-n, rest))
        }
        None => {
            let (n, rest) = take_number(tokens)?;
            Some((n, rest))
        }
    }
}

/// The names before a word that is no comma.
pub(crate) fn read_names(
    alloc: Global,
    tokens: &[Token],
) -> Result<(Items<Name>, &[Token]), FormFault>
    ensures found { IfOk result (λ x. Names (words tokens.now) x.0 (words x.1.now)) }
    ensures refused { result ≡ Err FormFault.Refused
        → (names : List (List ℕ)) (rest : List Word) → Names (words tokens.now) names rest → ⊥ }
{
    let mut names = Items::new(alloc);
    let mut here = tokens;
    loop {
        let Some((name, rest)) = take_name(here) else {
            return Err(FormFault::Refused);
        };
        names.push(name.copy(alloc)?)?;
        match past_sign(rest, Sign::Comma) {
            Some(next) => here = next,
            None => return Ok((names, rest)),
        }
    }
}

/// A type.
pub(crate) fn read_kind(alloc: Global, tokens: &[Token]) -> Result<(DraftKind, &[Token]), FormFault>
    ensures found { IfOk result (λ x. KindOf (words tokens.now) x.0 (words x.1.now)) }
    ensures refused { result ≡ Err FormFault.Refused
        → (kind : DraftKind) (rest : List Word) → KindOf (words tokens.now) kind rest → ⊥ }
{
    if let Some(rest) = past_keyword(tokens, Keyword::Boolean) {
        return Ok((DraftKind::Boolean, rest));
    }
    match take_name(tokens) {
        Some((name, rest)) => Ok((DraftKind::Named(name.copy(alloc)?), rest)),
        None => Err(FormFault::Refused),
    }
}

/// A value.
pub(crate) fn read_value(
    alloc: Global,
    tokens: &[Token],
) -> Result<(DraftValue, &[Token]), FormFault>
    ensures found { IfOk result (λ x. Value (words tokens.now) x.0 (words x.1.now)) }
    ensures refused { result ≡ Err FormFault.Refused
        → (value : DraftValue) (rest : List Word) → Value (words tokens.now) value rest → ⊥ }
{
    if let Some((number, rest)) = read_int(tokens) {
        return Ok((DraftValue::Number(number), rest));
    }
    if let Some(rest) = past_keyword(tokens, Keyword::True) {
        return Ok((DraftValue::Truth(true), rest));
    }
    if let Some(rest) = past_keyword(tokens, Keyword::False) {
        return Ok((DraftValue::Truth(false), rest));
    }
    match take_name(tokens) {
        Some((name, rest)) => Ok((DraftValue::Named(name.copy(alloc)?), rest)),
        None => Err(FormFault::Refused),
    }
}

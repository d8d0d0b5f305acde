//! Reads sides: `side = [ '-' ] item { ( '+' | '-' ) item }`, where an item is a number, a number
//! times a name, a name, `TRUE` or `FALSE`. With `primes` a primed name may stand for a name.

ghost use Rattle.std.specs.Prelude.{◌≡◌, ◌<◌, ◌≤◌, List, ◌∷◌, length, if◌then◌else◌, IfOk, IfSome, MatchOption, MatchBool};
ghost use Rattle.scr_parse.specs.Words.{words, NotAt, IsNatural};
ghost use Rattle.scr_parse.specs.Sides.{turned, Reference, Item, Side};

use crate::draft::{DraftItem, DraftOperand, DraftSide};
use crate::fault::FormFault;
use crate::step::{first_word, past_keyword, past_sign, take_number};
use scr_tokens::{Keyword, Sign, Token, Word};
use sqlite_items::Items;
use std::alloc::Global;

/// A name, or a primed one where primes are allowed.
fn read_reference(
    alloc: Global,
    primes: bool,
    tokens: &[Token],
) -> Result<(DraftOperand, &[Token]), FormFault>
    ensures found { IfOk result (λ x. Reference primes (words tokens.now) x.0 (words x.1.now)) }
    ensures shorter { IfOk result (λ x. length x.1.now < length tokens.now) }
    ensures refused { result ≡ Err FormFault.Refused
        → (operand : DraftOperand) (rest : List Word)
        → Reference primes (words tokens.now) operand rest → ⊥ }
{
    match first_word(tokens) {
        Some((Word::Name(name), rest)) => Ok((DraftOperand::Plain(name.copy(alloc)?), rest)),
        Some((Word::Primed(name), rest)) => {
            if primes {
                Ok((DraftOperand::Primed(name.copy(alloc)?), rest))
            } else {
                Err(FormFault::Refused)
            }
        }
        _ => Err(FormFault::Refused),
    }
}

/// The item that begins with the number `factor`, behind which `tokens` begin.
fn read_multiple(
    alloc: Global,
    primes: bool,
    factor: i64,
    tokens: &[Token],
) -> Result<(DraftItem, &[Token]), FormFault>
    requires { IsNatural factor }
    ensures found { IfOk result
        (λ x. Item primes (Word.Number factor ∷ words tokens.now) x.0 (words x.1.now)) }
    ensures natural { IfOk result (λ x. IsNatural x.0.factor) }
    ensures no_longer { IfOk result (λ x. length x.1.now ≤ length tokens.now) }
    ensures refused { result ≡ Err FormFault.Refused
        → (item : DraftItem) (rest : List Word)
        → Item primes (Word.Number factor ∷ words tokens.now) item rest → ⊥ }
{
    match past_sign(tokens, Sign::Times) {
        Some(after) => {
            let (operand, rest) = read_reference(alloc, primes, after)?;
            Ok((DraftItem { factor, operand }, rest))
        }
        None => Ok((
            DraftItem {
                factor,
                operand: DraftOperand::One,
            },
            tokens,
        )),
    }
}

/// The truth in front.
fn take_truth(tokens: &[Token]) -> Option<(bool, &[Token])>
    ensures { MatchOption result
        (NotAt (Word.Reserved Keyword.True) (words tokens.now)
        × NotAt (Word.Reserved Keyword.False) (words tokens.now))
        (λ x. words tokens.now
        ≡ Word.Reserved (if x.0 then Keyword.True else Keyword.False) ∷ words x.1.now) }
{
    match past_keyword(tokens, Keyword::True) {
        Some(rest) => Some((true, rest)),
        None => match past_keyword(tokens, Keyword::False) {
            Some(rest) => Some((false, rest)),
            None => None,
        },
    }
}

/// An item, but for the sign before it.
fn read_item(
    alloc: Global,
    primes: bool,
    tokens: &[Token],
) -> Result<(DraftItem, &[Token]), FormFault>
    ensures found { IfOk result (λ x. Item primes (words tokens.now) x.0 (words x.1.now)) }
    ensures natural { IfOk result (λ x. IsNatural x.0.factor) }
    ensures shorter { IfOk result (λ x. length x.1.now < length tokens.now) }
    ensures refused { result ≡ Err FormFault.Refused
        → (item : DraftItem) (rest : List Word) → Item primes (words tokens.now) item rest → ⊥ }
{
    if let Some((factor, rest)) = take_number(tokens) {
        return read_multiple(alloc, primes, factor, rest);
    }
    if let Some((truth, rest)) = take_truth(tokens) {
        return Ok((
            DraftItem {
                factor: 1,
                operand: DraftOperand::Truth(truth),
            },
            rest,
        ));
    }
    let (operand, rest) = read_reference(alloc, primes, tokens)?;
    Ok((DraftItem { factor: 1, operand }, rest))
}

/// The item with the sign before it.
fn signed(minus: bool, item: DraftItem) -> DraftItem
    requires { IsNatural item.factor }
    ensures { result ≡ (if minus then turned item else item) }
{
    if minus {
        DraftItem {
            factor: -item.factor,
            operand: item.operand,
        }
    } else {
        item
    }
}

/// Whether the first item has a minus, and the tokens from the item on.
fn past_minus(tokens: &[Token]) -> (bool, &[Token])
    ensures sign { MatchBool result.0 (words tokens.now ≡ Word.Sign Sign.Minus ∷ words result.1.now)
        (NotAt (Word.Sign Sign.Minus) (words tokens.now) × (words result.1.now ≡ words tokens.now)) }
    ensures no_longer { length result.1.now ≤ length tokens.now }
{
    match past_sign(tokens, Sign::Minus) {
        Some(rest) => (true, rest),
        None => (false, tokens),
    }
}

/// Whether the next item has a minus, and the tokens from that item on.
fn take_joint(tokens: &[Token]) -> Option<(bool, &[Token])>
    ensures sign { MatchOption result
        (NotAt (Word.Sign Sign.Plus) (words tokens.now) × NotAt (Word.Sign Sign.Minus) (words tokens.now))
        (λ x. words tokens.now ≡ Word.Sign (if x.0 then Sign.Minus else Sign.Plus) ∷ words x.1.now) }
    ensures shorter { IfSome result (λ x. length x.1.now < length tokens.now) }
{
    match past_sign(tokens, Sign::Plus) {
        Some(rest) => Some((false, rest)),
        None => match past_sign(tokens, Sign::Minus) {
            Some(rest) => Some((true, rest)),
            None => None,
        },
    }
}

/// A side, and the tokens behind it.
pub(crate) fn read_side(
    alloc: Global,
    primes: bool,
    tokens: &[Token],
) -> Result<(DraftSide, &[Token]), FormFault>
    ensures found { IfOk result (λ x. Side primes (words tokens.now) x.0 (words x.1.now)) }
    ensures shorter { IfOk result (λ x. length x.1.now < length tokens.now) }
    ensures refused { result ≡ Err FormFault.Refused
        → (l : DraftSide) (rest : List Word) → Side primes (words tokens.now) l rest → ⊥ }
{
    let mut items = Items::from_vec(Vec::with_capacity(alloc, 1)?);
    let (mut minus, mut here) = past_minus(tokens);
    'items: loop {
        let (item, after) = read_item(alloc, primes, here)?;
        items.push(signed(minus, item))?;
        match take_joint(after) {
            Some((next_minus, next)) => {
                minus = next_minus;
                here = next;
            }
            None => return Ok((DraftSide { items }, after)),
        }
    }
}

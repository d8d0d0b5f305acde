//! Reads conditions: `cond = conj { OR conj }`, `conj = lit { AND lit }` and
//! `lit = NOT lit | '(' cond ')' | side [ relation side ]`.

ghost use Rattle.std.specs.Prelude.{◌≡◌, ◌<◌, List, ◌∷◌, length, IfOk};
ghost use Rattle.scr_tokens.specs.declared.word.Word.{Word};
ghost use Rattle.scr_parse.specs.Words.{words, NotAt};
ghost use Rattle.scr_parse.specs.Conds as spec;

use crate::draft::DraftCond;
use crate::fault::FormFault;
use crate::side::read_side;
use crate::step::{past_keyword, past_sign, take_relation};
use scr_tokens::{Keyword, Sign, Token};
use sqlite_items::{Boxed, Items};
use std::alloc::Global;

/// The members joined by `AND`; one member is itself.
pub(crate) fn all_of(mut members: Items<DraftCond>) -> DraftCond
    ensures { result ≡ spec.all_of members }
{
    if members.len() == 1 {
        members.remove(0)
    } else {
        DraftCond::And(members)
    }
}

/// The members joined by `OR`; one member is itself.
pub(crate) fn any_of(mut members: Items<DraftCond>) -> DraftCond
    ensures { result ≡ spec.any_of members }
{
    if members.len() == 1 {
        members.remove(0)
    } else {
        DraftCond::Or(members)
    }
}

/// A side, alone or compared with another.
fn read_compare(
    alloc: Global,
    primes: bool,
    tokens: &[Token],
) -> Result<(DraftCond, &[Token]), FormFault>
    requires not_negated { NotAt (Word.Reserved Keyword.Not) (words tokens.now) }
    requires not_nested { NotAt (Word.Sign Sign.OpenParen) (words tokens.now) }
    ensures found { IfOk result (λ x. spec.Lit primes (words tokens.now) x.0 (words x.1.now)) }
    ensures shorter { IfOk result (λ x. length x.1.now < length tokens.now) }
    ensures refused { result ≡ Err FormFault.Refused
        → (d : DraftCond) (rest : List Word) → spec.Lit primes (words tokens.now) d rest → ⊥ }
{
    let (left, after) = read_side(alloc, primes, tokens)?;
    match take_relation(after) {
        Some((relation, next)) => {
            let (right, rest) = read_side(alloc, primes, next)?;
            Ok((DraftCond::Compare(left, relation, right), rest))
        }
        None => Ok((DraftCond::Alone(left), after)),
    }
}

/// A literal: a side, a comparison, a negation, or a condition in parentheses.
#[cycle(conditions)]
fn read_lit(
    alloc: Global,
    primes: bool,
    tokens: &[Token],
) -> Result<(DraftCond, &[Token]), FormFault>
    ensures found { IfOk result (λ x. spec.Lit primes (words tokens.now) x.0 (words x.1.now)) }
    ensures shorter { IfOk result (λ x. length x.1.now < length tokens.now) }
    ensures refused { result ≡ Err FormFault.Refused
        → (d : DraftCond) (rest : List Word) → spec.Lit primes (words tokens.now) d rest → ⊥ }
{
    if let Some(from) = past_keyword(tokens, Keyword::Not) {
        let (inner, rest) = read_lit(alloc, primes, from)?;
        return Ok((DraftCond::Not(Boxed::new(alloc, inner)?), rest));
    }
    if let Some(from) = past_sign(tokens, Sign::OpenParen) {
        return read_nested(alloc, primes, from);
    }
    read_compare(alloc, primes, tokens)
}

/// A condition, and the tokens behind the parenthesis that closes it.
#[cycle(conditions)]
pub(crate) fn read_nested(
    alloc: Global,
    primes: bool,
    tokens: &[Token],
) -> Result<(DraftCond, &[Token]), FormFault>
    ensures found { IfOk result (λ x. (ds : List DraftCond)
        × spec.Cond primes (words tokens.now) ds (Word.Sign Sign.CloseParen ∷ words x.1.now)
        × (x.0 ≡ spec.any_of ds)) }
    ensures shorter { IfOk result (λ x. length x.1.now < length tokens.now) }
    ensures refused { result ≡ Err FormFault.Refused
        → (ds : List DraftCond) (rest : List Word)
        → spec.Cond primes (words tokens.now) ds (Word.Sign Sign.CloseParen ∷ rest) → ⊥ }
{
    let (members, after) = read_cond(alloc, primes, tokens)?;
    match past_sign(after, Sign::CloseParen) {
        Some(rest) => Ok((any_of(members), rest)),
        None => Err(FormFault::Refused),
    }
}

/// The members that `AND` joins, and the tokens behind them.
#[cycle(conditions)]
pub(crate) fn read_conj(
    alloc: Global,
    primes: bool,
    tokens: &[Token],
) -> Result<(Items<DraftCond>, &[Token]), FormFault>
    ensures found { IfOk result (λ x. spec.Conj primes (words tokens.now) x.0 (words x.1.now)) }
    ensures shorter { IfOk result (λ x. length x.1.now < length tokens.now) }
    ensures refused { result ≡ Err FormFault.Refused
        → (ds : List DraftCond) (rest : List Word) → spec.Conj primes (words tokens.now) ds rest → ⊥ }
{
    let mut members = Items::new(alloc);
    let mut here = tokens;
    'members: loop {
        let (member, after) = read_lit(alloc, primes, here)?;
        members.push(member)?;
        match past_keyword(after, Keyword::And) {
            Some(next) => here = next,
            None => return Ok((members, after)),
        }
    }
}

/// The members that `OR` joins, and the tokens behind them.
#[cycle(conditions)]
pub(crate) fn read_cond(
    alloc: Global,
    primes: bool,
    tokens: &[Token],
) -> Result<(Items<DraftCond>, &[Token]), FormFault>
    ensures found { IfOk result (λ x. spec.Cond primes (words tokens.now) x.0 (words x.1.now)) }
    ensures shorter { IfOk result (λ x. length x.1.now < length tokens.now) }
    ensures refused { result ≡ Err FormFault.Refused
        → (ds : List DraftCond) (rest : List Word) → spec.Cond primes (words tokens.now) ds rest → ⊥ }
{
    let mut members = Items::new(alloc);
    let mut here = tokens;
    'members: loop {
        let (conj, after) = read_conj(alloc, primes, here)?;
        members.push(all_of(conj))?;
        match past_keyword(after, Keyword::Or) {
            Some(next) => here = next,
            None => return Ok((members, after)),
        }
    }
}

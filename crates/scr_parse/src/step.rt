//! One token at a time.

ghost use Rattle.std.specs.Prelude.{◌≡◌, ℕ, ◌↔◌, List, [], ◌∷◌, IsTrue, MatchOption};
ghost use Rattle.base.specs.declared.relation.Relation.{Relation};
ghost use Rattle.scr_tokens.specs.Words.{relation_sign};
ghost use Rattle.scr_parse.specs.Words.{words, NotAt, NotAtName, NotAtNameBefore, NotAtNumber, NotAtKeyword, NotAtRelation, IsNatural};

use base::{Name, Relation};
use scr_tokens::{Keyword, Sign, Token, Word};

/// The first word, and the tokens behind it.
pub(crate) fn first_word(tokens: &[Token]) -> Option<(&Word, &[Token])>
    ensures { MatchOption result (words tokens.now ≡ [])
        (λ x. words tokens.now ≡ x.0.now ∷ words x.1.now) }
{
    match tokens.split_first() {
        Some((token, rest)) => Some((&token.word, rest)),
        None => None,
    }
}

/// The tokens behind this sign.
pub(crate) fn past_sign(tokens: &[Token], sign: Sign) -> Option<&[Token]>
    ensures { MatchOption result (NotAt (Word.Sign sign) (words tokens.now))
        (λ rest. words tokens.now ≡ Word.Sign sign ∷ words rest.now) }
{
    match first_word(tokens) {
        Some((Word::Sign(found), rest)) => { if *found == sign { Some(rest) } else { None } }
        _ => None,
    }
}

/// The tokens behind this reserved word.
pub(crate) fn past_keyword(tokens: &[Token], keyword: Keyword) -> Option<&[Token]>
    ensures { MatchOption result (NotAt (Word.Reserved keyword) (words tokens.now))
        (λ rest. words tokens.now ≡ Word.Reserved keyword ∷ words rest.now) }
{
    match first_word(tokens) {
        Some((Word::Reserved(found), rest)) => { if *found == keyword { Some(rest) } else { None } }
        _ => None,
    }
}

/// The reserved word in front.
pub(crate) fn take_keyword(tokens: &[Token]) -> Option<(Keyword, &[Token])>
    ensures { MatchOption result (NotAtKeyword (words tokens.now))
        (λ x. words tokens.now ≡ Word.Reserved x.0 ∷ words x.1.now) }
{
    match first_word(tokens) {
        Some((Word::Reserved(keyword), rest)) => Some((*keyword, rest)),
        _ => None,
    }
}

/// The name in front.
pub(crate) fn take_name(tokens: &[Token]) -> Option<(&Name, &[Token])>
    ensures { MatchOption result (NotAtName (words tokens.now))
        (λ x. words tokens.now ≡ Word.Name x.0.now ∷ words x.1.now) }
{
    match first_word(tokens) {
        Some((Word::Name(name), rest)) => Some((name, rest)),
        _ => None,
    }
}

/// The number in front.
pub(crate) fn take_number(tokens: &[Token]) -> Option<(i64, &[Token])>
    ensures { MatchOption result (NotAtNumber (words tokens.now))
        (λ x. IsNatural x.0 × (words tokens.now ≡ Word.Number x.0 ∷ words x.1.now)) }
{
    match first_word(tokens) {
        Some((Word::Number(n), rest)) => { if *n >= 0 { Some((*n, rest)) } else { None } }
        _ => None,
    }
}

/// The name in front, and the tokens behind the sign that follows it.
pub(crate) fn take_name_before(tokens: &[Token], sign: Sign) -> Option<(&Name, &[Token])>
    ensures { MatchOption result (NotAtNameBefore (Word.Sign sign) (words tokens.now))
        (λ x. words tokens.now ≡ Word.Name x.0.now ∷ Word.Sign sign ∷ words x.1.now) }
{
    let (name, rest) = take_name(tokens)?;
    let rest = past_sign(rest, sign)?;
    Some((name, rest))
}

/// Whether no token is left.
pub(crate) fn is_end(tokens: &[Token]) -> bool
    ensures { IsTrue result ↔ (words tokens.now ≡ []) }
{
    first_word(tokens).is_none()
}

/// The name, where no other token stands there.
pub(crate) fn lone_name(tokens: &[Token]) -> Option<&Name>
    ensures { MatchOption result ((name : List ℕ) → words tokens.now ≡ Word.Name name ∷ [] → ⊥)
        (λ name. words tokens.now ≡ Word.Name name.now ∷ []) }
{
    let (name, rest) = take_name(tokens)?;
    if is_end(rest) { Some(name) } else { None }
}

/// The name behind this reserved word, where no other token stands there.
pub(crate) fn lone_name_behind(tokens: &[Token], keyword: Keyword) -> Option<&Name>
    ensures { MatchOption result ((name : List ℕ) → words tokens.now ≡ Word.Reserved keyword ∷ Word.Name name ∷ [] → ⊥)
        (λ name. words tokens.now ≡ Word.Reserved keyword ∷ Word.Name name.now ∷ []) }
{
    let rest = past_keyword(tokens, keyword)?;
    lone_name(rest)
}

fn relation_of(sign: Sign) -> Option<Relation>
    ensures { MatchOption result ((relation : Relation) → sign ≡ relation_sign relation → ⊥)
        (λ relation. sign ≡ relation_sign relation) }
{
    match sign {
        Sign::Equal => Some(Relation::Equal),
        Sign::Differ => Some(Relation::Differ),
        Sign::Less => Some(Relation::Less),
        Sign::AtMost => Some(Relation::AtMost),
        Sign::Greater => Some(Relation::Greater),
        Sign::AtLeast => Some(Relation::AtLeast),
        _ => None,
    }
}

/// The relation in front.
pub(crate) fn take_relation(tokens: &[Token]) -> Option<(Relation, &[Token])>
    ensures { MatchOption result (NotAtRelation (words tokens.now))
        (λ x. words tokens.now ≡ Word.Sign (relation_sign x.0) ∷ words x.1.now) }
{
    match first_word(tokens) {
        Some((Word::Sign(sign), rest)) => match relation_of(*sign) {
            Some(relation) => Some((relation, rest)),
            None => None,
        },
        _ => None,
    }
}

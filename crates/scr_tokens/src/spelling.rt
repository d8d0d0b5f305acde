//! The word that a piece stands for.

ghost use Rattle.std.specs.Prelude.{◌≡◌, ◌<◌, length, IfOk};
ghost use Rattle.std.specs.Map.{lookup};
ghost use Rattle.std.specs.Str.{bytes_eq};
ghost use Rattle.scr_tokens.specs.Words as spec;

use crate::word::{Keyword, Sign, Word};
use base::{Name, NoMemory, number_of};
use std::alloc::Global;

fn is_spelt(bytes: &[u8], word: &[u8]) -> bool
    ensures { result ≡ bytes_eq bytes.now word.now }
{
    bytes == word
}

#[tactic(auto, unfolding(crate::specs::Words::declaration_words))]
fn declaration_word(bytes: &[u8]) -> Option<Keyword>
    ensures { result ≡ lookup (bytes_eq bytes.now) spec.declaration_words }
{
    if is_spelt(bytes, b"SPECIFICATION") {
        Some(Keyword::Specification)
    } else if is_spelt(bytes, b"TYPE") {
        Some(Keyword::TypeWord)
    } else if is_spelt(bytes, b"CONST") {
        Some(Keyword::Const)
    } else if is_spelt(bytes, b"MONITORED") {
        Some(Keyword::Monitored)
    } else if is_spelt(bytes, b"MODECLASS") {
        Some(Keyword::ModeClass)
    } else if is_spelt(bytes, b"TERM") {
        Some(Keyword::Term)
    } else if is_spelt(bytes, b"CONTROLLED") {
        Some(Keyword::Controlled)
    } else if is_spelt(bytes, b"INIT") {
        Some(Keyword::Init)
    } else if is_spelt(bytes, b"BOOLEAN") {
        Some(Keyword::Boolean)
    } else if is_spelt(bytes, b"NAT") {
        Some(Keyword::Nat)
    } else if is_spelt(bytes, b"STEP") {
        Some(Keyword::Step)
    } else if is_spelt(bytes, b"FINISH") {
        Some(Keyword::Finish)
    } else if is_spelt(bytes, b"ASSERT") {
        Some(Keyword::Assert)
    } else {
        None
    }
}

#[tactic(auto, unfolding(crate::specs::Words::table_words))]
fn table_word(bytes: &[u8]) -> Option<Keyword>
    ensures { result ≡ lookup (bytes_eq bytes.now) spec.table_words }
{
    if is_spelt(bytes, b"CONDITION") {
        Some(Keyword::Condition)
    } else if is_spelt(bytes, b"EVENT") {
        Some(Keyword::Event)
    } else if is_spelt(bytes, b"MODES") {
        Some(Keyword::Modes)
    } else if is_spelt(bytes, b"OVER") {
        Some(Keyword::Over)
    } else if is_spelt(bytes, b"ROW") {
        Some(Keyword::Row)
    } else if is_spelt(bytes, b"VALUES") {
        Some(Keyword::Values)
    } else if is_spelt(bytes, b"FROM") {
        Some(Keyword::From)
    } else if is_spelt(bytes, b"TO") {
        Some(Keyword::To)
    } else if is_spelt(bytes, b"END") {
        Some(Keyword::End)
    } else if is_spelt(bytes, b"AND") {
        Some(Keyword::And)
    } else if is_spelt(bytes, b"OR") {
        Some(Keyword::Or)
    } else if is_spelt(bytes, b"NOT") {
        Some(Keyword::Not)
    } else if is_spelt(bytes, b"TRUE") {
        Some(Keyword::True)
    } else if is_spelt(bytes, b"FALSE") {
        Some(Keyword::False)
    } else if is_spelt(bytes, b"WHEN") {
        Some(Keyword::When)
    } else if is_spelt(bytes, b"NEVER") {
        Some(Keyword::Never)
    } else {
        None
    }
}

/// The reserved word that is spelt so.
pub fn keyword_of(bytes: &[u8]) -> Option<Keyword>
    ensures { result ≡ spec.keyword_of bytes.now }
{
    match declaration_word(bytes) {
        Some(keyword) => Some(keyword),
        None => table_word(bytes),
    }
}

#[tactic(auto, unfolding(crate::specs::Words::signs))]
fn sign_of(bytes: &[u8]) -> Option<Sign>
    ensures { result ≡ spec.sign_of bytes.now }
{
    match bytes {
        b"@T" => Some(Sign::AtT),
        b"@F" => Some(Sign::AtF),
        b"@C" => Some(Sign::AtC),
        b"(" => Some(Sign::OpenParen),
        b")" => Some(Sign::CloseParen),
        b"{" => Some(Sign::OpenBrace),
        b"}" => Some(Sign::CloseBrace),
        b"," => Some(Sign::Comma),
        b":" => Some(Sign::Colon),
        b"|" => Some(Sign::Bar),
        b"=" => Some(Sign::Equal),
        b"!=" => Some(Sign::Differ),
        b"<" => Some(Sign::Less),
        b"<=" => Some(Sign::AtMost),
        b">" => Some(Sign::Greater),
        b">=" => Some(Sign::AtLeast),
        b"+" => Some(Sign::Plus),
        b"-" => Some(Sign::Minus),
        b"*" => Some(Sign::Times),
        b".." => Some(Sign::Dots),
        _ => None,
    }
}

fn named(alloc: Global, bytes: &[u8]) -> Result<Word, NoMemory>
    ensures { IfOk result (λ word. word ≡ spec.named bytes.now (spec.keyword_of bytes.now)) }
{
    match keyword_of(bytes) {
        Some(keyword) => Ok(Word::Reserved(keyword)),
        None => Ok(Word::Name(Name::from_slice(alloc, bytes)?)),
    }
}

fn primed(alloc: Global, bytes: &[u8]) -> Result<Option<Word>, NoMemory>
    ensures { IfOk result (λ word. word ≡ spec.primed bytes.now (spec.keyword_of bytes.now)) }
{
    match keyword_of(bytes) {
        Some(_) => Ok(None),
        None => Ok(Some(Word::Primed(Name::from_slice(alloc, bytes)?))),
    }
}

fn sign_word(bytes: &[u8]) -> Option<Word>
    ensures { result ≡ spec.sign_word (spec.sign_of bytes.now) }
{
    match sign_of(bytes) {
        Some(sign) => Some(Word::Sign(sign)),
        None => None,
    }
}

/// The word that a piece stands for, if any.
#[tactic(auto, unfolding(crate::specs::Words::word_of))]
pub(crate) fn word_of(alloc: Global, piece: &[u8]) -> Result<Option<Word>, NoMemory>
    requires { 0 < length piece.now }
    ensures { IfOk result (λ word. word ≡ spec.word_of piece.now) }
{
    let first = piece[0];
    let last = piece.len() - 1;
    if first.is_ascii_alphabetic() {
        if piece[last] == b'\'' {
            primed(alloc, &piece[..last])
        } else {
            Ok(Some(named(alloc, piece)?))
        }
    } else if first.is_ascii_digit() {
        Ok(Some(Word::Number(i64::from(number_of(piece)))))
    } else {
        Ok(sign_word(piece))
    }
}

//! The word that a token stands for.

ghost use Rattle.std.specs.Prelude.{◌≡◌, ◌<◌, ◌≤◌, length, pos};
ghost use Rattle.std.specs.List.{list_all};
ghost use Rattle.std.specs.Char.{is_ascii_digit};
ghost use Rattle.std.specs.Map.{lookup};
ghost use Rattle.std.specs.Str.{bytes_eq};
ghost use Rattle.c_subset.specs.Names.{is_among};
ghost use Rattle.c_subset.specs.Names as c;
ghost use Rattle.c_reader.specs.Words as spec;
ghost use Rattle.c_reader.specs.Cut.{word_in};

use crate::word::{Keyword, Piece, Sign};

/// The greatest length of a name, in characters.
pub(crate) const NAME_LIMIT: usize = 31;

/// The greatest constant.
const CONSTANT_LIMIT: u64 = 2_147_483_647;

#[tactic(auto, unfolding(crate::specs::Words::keywords))]
fn keyword_of(bytes: &[u8]) -> Option<Keyword>
    ensures { result ≡ lookup (bytes_eq bytes.now) spec.keywords }
{
    if bytes == b"long".as_slice() {
        Some(Keyword::Long)
    } else if bytes == b"void".as_slice() {
        Some(Keyword::Void)
    } else if bytes == b"if".as_slice() {
        Some(Keyword::If)
    } else if bytes == b"else".as_slice() {
        Some(Keyword::Else)
    } else if bytes == b"switch".as_slice() {
        Some(Keyword::Switch)
    } else if bytes == b"case".as_slice() {
        Some(Keyword::Case)
    } else if bytes == b"break".as_slice() {
        Some(Keyword::Break)
    } else {
        None
    }
}

#[tactic(auto, unfolding(crate::specs::Words::first_keywords))]
fn is_first_keyword(bytes: &[u8]) -> bool
    ensures { result ≡ is_among spec.first_keywords bytes.now }
{
    bytes == b"auto".as_slice()
        || bytes == b"break".as_slice()
        || bytes == b"case".as_slice()
        || bytes == b"char".as_slice()
        || bytes == b"const".as_slice()
        || bytes == b"continue".as_slice()
        || bytes == b"default".as_slice()
        || bytes == b"do".as_slice()
        || bytes == b"double".as_slice()
        || bytes == b"else".as_slice()
        || bytes == b"enum".as_slice()
        || bytes == b"extern".as_slice()
}

#[tactic(auto, unfolding(crate::specs::Words::second_keywords))]
fn is_second_keyword(bytes: &[u8]) -> bool
    ensures { result ≡ is_among spec.second_keywords bytes.now }
{
    bytes == b"float".as_slice()
        || bytes == b"for".as_slice()
        || bytes == b"goto".as_slice()
        || bytes == b"if".as_slice()
        || bytes == b"inline".as_slice()
        || bytes == b"int".as_slice()
        || bytes == b"long".as_slice()
        || bytes == b"register".as_slice()
        || bytes == b"restrict".as_slice()
        || bytes == b"return".as_slice()
        || bytes == b"short".as_slice()
        || bytes == b"signed".as_slice()
}

#[tactic(auto, unfolding(crate::specs::Words::third_keywords))]
fn is_third_keyword(bytes: &[u8]) -> bool
    ensures { result ≡ is_among spec.third_keywords bytes.now }
{
    bytes == b"sizeof".as_slice()
        || bytes == b"static".as_slice()
        || bytes == b"struct".as_slice()
        || bytes == b"switch".as_slice()
        || bytes == b"typedef".as_slice()
        || bytes == b"union".as_slice()
        || bytes == b"unsigned".as_slice()
        || bytes == b"void".as_slice()
        || bytes == b"volatile".as_slice()
        || bytes == b"while".as_slice()
}

/// Whether it is a keyword of C.
#[tactic(auto, using(crate::proofs::Keywords::keyword_parts))]
pub(crate) fn is_c_keyword(bytes: &[u8]) -> bool
    ensures { result ≡ is_among c.keywords bytes.now }
{
    is_first_keyword(bytes) || is_second_keyword(bytes) || is_third_keyword(bytes)
}

#[tactic(auto, unfolding(crate::specs::Words::signs))]
fn sign_of(bytes: &[u8]) -> Option<Sign>
    ensures { result ≡ spec.sign_of bytes.now }
{
    match bytes {
        b"(" => Some(Sign::OpenParen),
        b")" => Some(Sign::CloseParen),
        b"{" => Some(Sign::OpenBrace),
        b"}" => Some(Sign::CloseBrace),
        b";" => Some(Sign::Semicolon),
        b":" => Some(Sign::Colon),
        b"=" => Some(Sign::Assign),
        b"==" => Some(Sign::Equal),
        b"!=" => Some(Sign::Differ),
        b"<" => Some(Sign::Less),
        b"<=" => Some(Sign::AtMost),
        b">" => Some(Sign::Greater),
        b">=" => Some(Sign::AtLeast),
        b"+" => Some(Sign::Plus),
        b"-" => Some(Sign::Minus),
        b"*" => Some(Sign::Times),
        b"!" => Some(Sign::Not),
        b"&&" => Some(Sign::And),
        b"||" => Some(Sign::Or),
        _ => None,
    }
}

fn named(bytes: &[u8]) -> Piece<'_>
    ensures { word_in result ≡ spec.named bytes.now (lookup (bytes_eq bytes.now) spec.keywords) }
{
    match keyword_of(bytes) {
        Some(keyword) => Piece::Reserved(keyword),
        None => {
            if bytes.len() <= NAME_LIMIT && !is_c_keyword(bytes) {
                Piece::Name(bytes)
            } else {
                Piece::Other
            }
        }
    }
}

/// The number that these digits spell. Any number above 2,147,483,647 is told as 2,147,483,648.
pub fn number_of(digits: &[u8]) -> u64
    ensures value { result ≡ spec.number_from 0 digits.now }
    ensures capped { result ≤ 2147483648 }
{
    let mut n: u64 = 0;
    for b in digits {
        n = (10 * n + u64::from(b.saturating_sub(b'0'))).min(CONSTANT_LIMIT + 1);
    }
    n
}

fn all_digits(bytes: &[u8]) -> bool
    ensures { result ≡ list_all is_ascii_digit bytes.now }
{
    bytes.iter().all(|b| b.is_ascii_digit())
}

/// Whether these digits begin with 0, and with more behind it.
fn is_led_by_zero(digits: &[u8]) -> bool
    requires { 0 < length digits.now }
    ensures { result ≡ spec.is_led_by_zero digits.now }
{
    digits[0] == b'0' && digits.len() != 1
}

fn run_piece(run: &[u8]) -> Piece<'_>
    requires { 0 < length run.now }
    ensures { word_in result ≡ spec.run_word run.now }
{
    let last = run.len() - 1;
    let digits = run.split_at(last).0;
    let value = number_of(digits);
    if run[last] == b'L'
        && !digits.is_empty()
        && all_digits(digits)
        && !is_led_by_zero(digits)
        && value <= CONSTANT_LIMIT
    {
        Piece::Constant(value as i64)
    } else {
        Piece::Other
    }
}

fn sign_piece(bytes: &[u8]) -> Piece<'_>
    ensures { word_in result ≡ spec.sign_word (spec.sign_of bytes.now) }
{
    match sign_of(bytes) {
        Some(sign) => Piece::Sign(sign),
        None => Piece::Other,
    }
}

/// What a token stands for.
#[tactic(auto, unfolding(crate::specs::Words::word_of))]
pub(crate) fn piece_of(bytes: &[u8]) -> Piece<'_>
    requires { 0 < length bytes.now }
    ensures { word_in result ≡ spec.word_of bytes.now }
{
    let first = bytes[0];
    if first.is_ascii_alphabetic() {
        named(bytes)
    } else if first.is_ascii_digit() {
        run_piece(bytes)
    } else {
        sign_piece(bytes)
    }
}

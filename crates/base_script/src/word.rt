//! The words of a line.
ghost use Rattle.std.specs.Prelude.{◌≡◌, ◌∷◌, ◌≤◌, [], ◌==◌, not, length, MatchOption};
ghost use Rattle.std.specs.Char.{is_ascii_digit};
ghost use Rattle.std.specs.List.{list_all, prefix_len};
ghost use Rattle.base.specs.Bytes.{is_blank};
ghost use Rattle.base_script.specs.Words.{is_readable, words_of, are_digits, is_number};

use base::{LINE_LIMIT, are_allowed, body_of, is_blank};

/// Whether it has at most 4,096 bytes, and outside comments only those that may stand there.
pub fn is_readable(line: &[u8]) -> bool
    ensures { result ≡ is_readable line.now }
{
    line.len() <= LINE_LIMIT && are_allowed(body_of(line))
}

fn blanks_len(bytes: &[u8]) -> usize
    ensures value { result ≡ prefix_len is_blank bytes.now }
    ensures within { result ≤ length bytes.now }
{
    bytes.iter().take_while(|b| is_blank(**b)).count()
}

fn word_len(bytes: &[u8]) -> usize
    ensures value { result ≡ prefix_len (λ b. not (is_blank b)) bytes.now }
    ensures within { result ≤ length bytes.now }
{
    bytes.iter().take_while(|b| !is_blank(**b)).count()
}

/// The first word, and the bytes behind it.
#[tactic(auto, using(crate::proofs::Cut::cut_laws))]
pub fn cut_word(bytes: &[u8]) -> Option<(&[u8], &[u8])>
    ensures { MatchOption result (words_of bytes.now ≡ []) (λ x. words_of bytes.now ≡ x.0.now ∷ words_of x.1.now) }
{
    let (_, rest) = bytes.split_at(blanks_len(bytes));
    let len = word_len(rest);
    if len == 0 {
        return None;
    }
    Some(rest.split_at(len))
}

/// The first byte, and the bytes behind it.
pub fn first_and_rest(bytes: &[u8]) -> Option<(u8, &[u8])>
    ensures { MatchOption result (bytes.now ≡ []) (λ x. bytes.now ≡ x.0 ∷ x.1.now) }
{
    match bytes.split_first() {
        Some((b, rest)) => Some((*b, rest)),
        None => None,
    }
}

fn all_digits(bytes: &[u8]) -> bool
    ensures { result ≡ list_all is_ascii_digit bytes.now }
{
    bytes.iter().all(|b| b.is_ascii_digit())
}

/// Whether it is digits alone, one or more.
pub fn are_digits(bytes: &[u8]) -> bool
    ensures { result ≡ are_digits bytes.now }
{
    match first_and_rest(bytes) {
        Some(_) => all_digits(bytes),
        None => false,
    }
}

/// Whether it is digits, with `-` directly before them or not.
pub fn is_number(word: &[u8]) -> bool
    ensures { result ≡ is_number word.now }
{
    match first_and_rest(word) {
        Some((first, rest)) => {
            if first == b'-' {
                are_digits(rest)
            } else {
                are_digits(word)
            }
        }
        None => false,
    }
}

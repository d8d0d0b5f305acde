//! The form `BACK n`.
ghost use Rattle.std.specs.Prelude.{◌≡◌};
ghost use Rattle.base_script.specs.Words.{words_of};
ghost use Rattle.run_back.specs.StepBack.{has_zero_in_front, is_count, count_in, words_back, count_back};

use crate::history::DEPTH;
use base::{body_of, number_of};
use base_script::{are_digits, cut_word, first_and_rest, is_readable};

fn has_zero_in_front(word: &[u8]) -> bool
    ensures { result ≡ has_zero_in_front word.now }
{
    match first_and_rest(word) {
        Some((first, _)) => first == b'0',
        None => false,
    }
}

/// Whether it is a number from 1 to 256 without a leading zero.
fn is_count(word: &[u8]) -> bool
    ensures { result ≡ is_count word.now }
{
    are_digits(word) && !has_zero_in_front(word) && number_of(word) as usize <= DEPTH
}

fn count_in(first: &[u8], word: &[u8]) -> Option<usize>
    ensures { result ≡ count_in first.now word.now }
{
    if first == b"BACK".as_slice() && is_count(word) {
        Some(number_of(word) as usize)
    } else {
        None
    }
}

#[tactic(auto, using(crate::proofs::BackForms::back_laws))]
fn words_back(bytes: &[u8]) -> Option<usize>
    ensures { result ≡ words_back (words_of bytes.now) }
{
    let (first, rest) = cut_word(bytes)?;
    let (word, rest) = cut_word(rest)?;
    match cut_word(rest) {
        Some(_) => None,
        None => count_in(first, word),
    }
}

/// The n of a line `BACK n`, a number from 1 to 256 without a leading zero. `None` where the line has
/// another form. The line is given without its end.
pub fn count_back(line: &[u8]) -> Option<usize>
    ensures { result ≡ count_back line.now }
{
    if is_readable(line) {
        words_back(body_of(line))
    } else {
        None
    }
}

//! Kinds of words.
ghost use Rattle.std.specs.Prelude.{◌≡◌};
ghost use Rattle.scr_spec.specs.NameSpace.{is_spelt};
ghost use Rattle.run_script.specs.Words.{is_plain_name, is_truth, is_value};

use base::are_word_bytes;
use base_script::{first_and_rest, is_number};
use scr_tokens::keyword_of;

fn is_spelt(word: &[u8]) -> bool
    ensures { result ≡ is_spelt word.now }
{
    match first_and_rest(word) {
        Some((first, rest)) => first.is_ascii_alphabetic() && are_word_bytes(rest),
        None => false,
    }
}

/// Whether it is a name and no reserved word.
pub(crate) fn is_plain_name(word: &[u8]) -> bool
    ensures { result ≡ is_plain_name word.now }
{
    is_spelt(word) && keyword_of(word).is_none()
}

fn is_truth(word: &[u8]) -> bool
    ensures { result ≡ is_truth word.now }
{
    word == b"TRUE".as_slice() || word == b"FALSE".as_slice()
}

/// Whether it is TRUE, FALSE, a name or a number.
pub(crate) fn is_value(word: &[u8]) -> bool
    ensures { result ≡ is_value word.now }
{
    is_truth(word) || is_plain_name(word) || is_number(word)
}

//! The words of `slice`.
ghost use Rattle.std.specs.Prelude.{◌≡◌, ◌≤◌, codes, map, string_bytes, option_map, length, IfSome, IsSome};
ghost use Rattle.dd_store.specs.declared.store.TheConstants.{SPLIT_LIMIT};
ghost use Rattle.cmd_work.specs.Words.{behind};
ghost use Rattle.cmd_slice.specs.Offered as spec;

use crate::slicing::Slicing;
use cmd_work::{behind, number_in};
use dd_store::SPLIT_LIMIT;
use scr_spec::VARIABLE_LIMIT;

/// A file, and what is asked of it.
#[derive(Drop)]
pub(crate) struct Named<'a> {
    pub(crate) name: &'a str,
    pub(crate) slice: Slicing<'a>,
}

/// The limit by the last of the words, where one stands before it.
fn last_limit(words: &[String]) -> Option<u32>
    ensures exact { result ≡ spec.last_limit (map string_bytes words.now) }
    ensures small { IfSome result (λ n. n ≤ SPLIT_LIMIT) }
    ensures behind { IsSome result → 2 ≤ length words.now }
{
    if words.len() < 2 {
        return None;
    }
    let last = words.get(words.len() - 1)?;
    number_in(1, SPLIT_LIMIT, last.as_str())
}

/// A file and names, if there may be so many.
fn with_names<'a>(name: &'a str, names: &'a [String], limit: u32) -> Option<Named<'a>>
    requires { limit ≤ SPLIT_LIMIT }
    ensures { option_map (λ n. (n.name.now, map string_bytes n.slice.names.now, n.slice.limit)) result
        ≡ spec.named name.now (map string_bytes names.now) limit }
{
    if 1 <= names.len() && names.len() <= VARIABLE_LIMIT {
        Some(Named {
            name,
            slice: Slicing { limit, names },
        })
    } else {
        None
    }
}

/// A file, and by the words behind it the names and the limit.
fn names_and_limit<'a>(name: &'a str, words: &'a [String]) -> Option<Named<'a>>
    ensures { option_map (λ n. (n.name.now, map string_bytes n.slice.names.now, n.slice.limit)) result
        ≡ spec.names_and_limit name.now (map string_bytes words.now) (spec.last_limit (map string_bytes words.now)) }
{
    match last_limit(words) {
        Some(limit) => with_names(name, &words[..words.len() - 1], limit),
        None => with_names(name, words, SPLIT_LIMIT),
    }
}

/// What words ask of `slice`.
pub(crate) fn slice_words<'a>(words: &'a [String]) -> Option<Named<'a>>
    ensures { option_map (λ n. (n.name.now, map string_bytes n.slice.names.now, n.slice.limit)) result
        ≡ spec.slice_words (behind (codes "slice") (map string_bytes words.now)) }
{
    let (name, rest) = behind("slice", words)?.split_first()?;
    names_and_limit(name.as_str(), rest)
}

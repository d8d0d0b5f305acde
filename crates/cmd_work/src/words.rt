//! The words behind the one that names a command.
ghost use Rattle.std.specs.Prelude.{◌≡◌, ◌≤◌, map, string_bytes, decimal, option_map, IfSome};
ghost use Rattle.std.specs.Option.{option_copied};
ghost use Rattle.std.specs.Str.{bytes_eq};
ghost use Rattle.cmd_work.specs.Words as spec;

use itoa::Buffer;

/// The words behind this one, where they begin with it.
pub fn behind<'a>(verb: &str, words: &'a [String]) -> Option<&'a [String]>
    ensures { option_map (map string_bytes) (option_copied result) ≡ spec.behind verb.now (map string_bytes words.now) }
{
    let (first, rest) = words.split_first()?;
    if first.as_str() == verb {
        Some(rest)
    } else {
        None
    }
}

/// The only word behind this one.
pub fn only_word<'a>(verb: &str, words: &'a [String]) -> Option<&'a str>
    ensures { option_copied result ≡ spec.only_word (spec.behind verb.now (map string_bytes words.now)) }
{
    match behind(verb, words)? {
        [word] => Some(word.as_str()),
        _ => None,
    }
}

/// Both words behind this one.
pub fn both_words<'a>(verb: &str, words: &'a [String]) -> Option<(&'a str, &'a str)>
    ensures { option_map (λ both. (both.0.now, both.1.now)) result ≡ spec.both_words (spec.behind verb.now (map string_bytes words.now)) }
{
    match behind(verb, words)? {
        [word, next] => Some((word.as_str(), next.as_str())),
        _ => None,
    }
}

/// Whether a word is the decimal text of the number, which has no sign and no leading zero.
fn is_decimal(number: u32, word: &str) -> bool
    ensures { result ≡ bytes_eq (decimal number) word.now }
{
    Buffer::new().format(number) == word
}

/// The number in the range that a word gives.
pub fn number_in(least: u32, greatest: u32, word: &str) -> Option<u32>
    ensures exact { result ≡ spec.number_in least greatest word.now }
    ensures small { IfSome result (λ n. n ≤ greatest) }
{
    let number = word.parse::<u32>().ok()?;
    if least <= number && number <= greatest && is_decimal(number, word) {
        Some(number)
    } else {
        None
    }
}

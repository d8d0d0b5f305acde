//! The words of a command that checks its first file within a limit.
ghost use Rattle.std.specs.Prelude.{◌≡◌, ◌≤◌, map, string_bytes, option_map};
ghost use Rattle.dd_store.specs.declared.store.TheConstants.{SPLIT_LIMIT};
ghost use Rattle.cmd_work.specs.Words.{behind};
ghost use Rattle.cmd_checked.specs.Words.{name_and_limit, names_and_limit};

use cmd_work::{behind, number_in};
use dd_store::SPLIT_LIMIT;

/// What is asked of a command on one file.
#[derive(Drop)]
pub struct OneChecked<'a> {
    /// The name of the file.
    pub name: &'a str,
    /// The limit on the distinct splits of each table.
    pub limit: u32,
    pub ghost limited: { limit ≤ SPLIT_LIMIT },
}

/// What is asked of a command on two files.
#[derive(Drop)]
pub struct TwoChecked<'a> {
    /// The names of the files.
    pub name: &'a str,
    pub second: &'a str,
    /// The limit on the distinct splits of each table.
    pub limit: u32,
    pub ghost limited: { limit ≤ SPLIT_LIMIT },
}

/// What words ask of the command of this name: a file, and the limit, if it is told.
pub fn one_checked<'a>(verb: &str, words: &'a [String]) -> Option<OneChecked<'a>>
    ensures { option_map (λ asked. (asked.name.now, asked.limit)) result
        ≡ name_and_limit (behind verb.now (map string_bytes words.now)) }
{
    match behind(verb, words)? {
        [name] => Some(OneChecked {
            name: name.as_str(),
            limit: SPLIT_LIMIT,
        }),
        [name, limit] => Some(OneChecked {
            name: name.as_str(),
            limit: number_in(1, SPLIT_LIMIT, limit.as_str())?,
        }),
        _ => None,
    }
}

/// What words ask of the command of this name: two files, and the limit, if it is told.
pub fn two_checked<'a>(verb: &str, words: &'a [String]) -> Option<TwoChecked<'a>>
    ensures { option_map (λ asked. (asked.name.now, asked.second.now, asked.limit)) result
        ≡ names_and_limit (behind verb.now (map string_bytes words.now)) }
{
    match behind(verb, words)? {
        [name, second] => Some(TwoChecked {
            name: name.as_str(),
            second: second.as_str(),
            limit: SPLIT_LIMIT,
        }),
        [name, second, limit] => Some(TwoChecked {
            name: name.as_str(),
            second: second.as_str(),
            limit: number_in(1, SPLIT_LIMIT, limit.as_str())?,
        }),
        _ => None,
    }
}

//! The words of `reach`.
ghost use Rattle.std.specs.Prelude.{◌≡◌, ◌<◌, ◌≤◌, codes, map, string_bytes, option_map, IfSome};
ghost use Rattle.run_reach.specs.declared.search.TheConstants.{STATE_LIMIT};
ghost use Rattle.cmd_work.specs.Words.{behind, number_in};
ghost use Rattle.cmd_reach.specs.Offered as spec;

use cmd_work::{behind, number_in};
use run_reach::STATE_LIMIT;

/// The most states that one search stores, where the words do not say it.
pub const STATES: usize = 100_000;

/// What is asked of `reach`.
#[derive(Drop)]
pub(crate) struct Search<'a> {
    /// The names of the files.
    pub(crate) name: &'a str,
    pub(crate) second: &'a str,
    /// The most states that one search stores.
    pub(crate) most: usize,
    pub(crate) ghost some: { 0 < most },
    pub(crate) ghost bounded: { most ≤ STATE_LIMIT },
}

/// The most states that a word tells.
fn states_in(word: &str) -> Option<usize>
    ensures exact { result ≡ number_in 1 STATE_LIMIT word.now }
    ensures some { IfSome result (λ n. 0 < n) }
    ensures bounded { IfSome result (λ n. n ≤ STATE_LIMIT) }
{
    Some(number_in(1, STATE_LIMIT as u32, word)? as usize)
}

/// What words ask of `reach`.
pub(crate) fn search_words<'a>(words: &'a [String]) -> Option<Search<'a>>
    ensures { option_map (λ s. (s.name.now, s.second.now, s.most)) result
        ≡ spec.names_and_states (behind (codes "reach") (map string_bytes words.now)) }
{
    match behind("reach", words)? {
        [name, second] => Some(Search {
            name: name.as_str(),
            second: second.as_str(),
            most: STATES,
        }),
        [name, second, most] => Some(Search {
            name: name.as_str(),
            second: second.as_str(),
            most: states_in(most.as_str())?,
        }),
        _ => None,
    }
}

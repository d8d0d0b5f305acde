//! The words of `generate` and `large`.
ghost use Rattle.std.specs.Prelude.{◌≡◌, ◌≤◌, map, string_bytes, IfSome};
ghost use Rattle.cmd_generate.specs.declared.chain.TheConstants.{LAST_LATCH};
ghost use Rattle.cmd_work.specs.Words.{behind};
ghost use Rattle.cmd_generate.specs.Words as spec;

use crate::chain::LAST_LATCH;
use cmd_work::{number_in, only_word};

/// The number of the last latch, by the only word behind this one.
pub fn last_latch(verb: &str, words: &[String]) -> Option<u32>
    ensures exact { result ≡ spec.last_latch (behind verb.now (map string_bytes words.now)) }
    ensures small { IfSome result (λ n. n ≤ LAST_LATCH) }
{
    number_in(0, LAST_LATCH, only_word(verb, words)?)
}

//! Decimal numbers.
ghost use Rattle.std.specs.Prelude.{◌≡◌, ◌++◌, ◌+◌, ◌≤◌, MatchResult};
ghost use Rattle.std.specs.Fmt.{signed_decimal};
ghost use Rattle.base.specs.Decimals as spec;

use crate::{NUMBER_LIMIT, NoMemory};
use itoa::Buffer;

/// Appends the decimal text of `n`.
pub fn push_number(out: &mut Vec<u8>, n: i64) -> Result<(), NoMemory>
    ensures { MatchResult result (λ _. out.new.items ≡ out.old.items ++ signed_decimal n) (λ _. out.new.items ≡ out.old.items) }
{
    let mut buffer = Buffer::new();
    out.extend_from_slice(buffer.format(n).as_bytes())?;
    Ok(())
}

/// The number that these digits spell. Any number above 1,000,000 is told as 1,000,001.
pub fn number_of(bytes: &[u8]) -> u32
    ensures value { result ≡ spec.number_of bytes.now }
    ensures capped { result ≤ NUMBER_LIMIT + 1 }
{
    let mut n: u32 = 0;
    for b in bytes {
        n = (10 * n + u32::from(b.saturating_sub(b'0'))).min(NUMBER_LIMIT + 1);
    }
    n
}

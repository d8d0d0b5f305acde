//! Arithmetic from -2147483647 to 2147483647, which is the range of `long` in every implementation of C11 (5.2.4.2.1). A
//! result outside has no meaning (6.5p5).
ghost use Rattle.std.specs.Prelude.{◌≡◌, ◌+ℤ◌, ◌-ℤ◌, ◌*ℤ◌, neg_ℤ, not};
ghost use Rattle.std.specs.Option.{option_map};
ghost use Rattle.c_subset.specs.Meaning as spec;

use base::{Relation, holds_between};

const GREATEST: i64 = 2_147_483_647;

/// The number, where it is in the range.
fn checked(number: i64) -> Option<i64>
    ensures { result ≡ spec.checked number }
{
    if -GREATEST <= number && number <= GREATEST {
        Some(number)
    } else {
        None
    }
}

fn product(left: i64, right: i64) -> Option<i64>
    ensures { result ≡ spec.checked (left *ℤ right) }
{
    checked(left.checked_mul(right)?)
}

fn sum(left: i64, right: i64) -> Option<i64>
    ensures { result ≡ spec.checked (left +ℤ right) }
{
    checked(left.checked_add(right)?)
}

fn difference(left: i64, right: i64) -> Option<i64>
    ensures { result ≡ spec.checked (left -ℤ right) }
{
    checked(left.checked_sub(right)?)
}

fn negation(number: i64) -> Option<i64>
    ensures { result ≡ spec.checked (neg_ℤ number) }
{
    checked(number.checked_neg()?)
}

/// The product, where both numbers and the product are there.
pub(crate) fn times(left: Option<i64>, right: Option<i64>) -> Option<i64>
    ensures { result ≡ spec.times left right }
{
    product(left?, right?)
}

/// The sum, where both numbers and the sum are there.
pub(crate) fn plus(left: Option<i64>, right: Option<i64>) -> Option<i64>
    ensures { result ≡ spec.plus left right }
{
    sum(left?, right?)
}

/// The difference, where both numbers and the difference are there.
pub(crate) fn minus(left: Option<i64>, right: Option<i64>) -> Option<i64>
    ensures { result ≡ spec.minus left right }
{
    difference(left?, right?)
}

/// The number with the other sign, where it is there.
pub(crate) fn negative(number: Option<i64>) -> Option<i64>
    ensures { result ≡ spec.negative number }
{
    negation(number?)
}

/// Whether the numbers stand in the relation, where both are there.
pub(crate) fn relates(relation: Relation, left: Option<i64>, right: Option<i64>) -> Option<bool>
    ensures { result ≡ spec.relates relation left right }
{
    Some(holds_between(left?, relation, right?))
}

/// The other truth, where it is there.
pub(crate) fn opposite(truth: Option<bool>) -> Option<bool>
    ensures { result ≡ option_map not truth }
{
    Some(!truth?)
}

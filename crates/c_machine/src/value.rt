//! Numbers and truths of expressions. Nothing here takes memory.
ghost use Rattle.std.specs.Prelude.{◌≡◌, map, slice_get};
ghost use Rattle.c_subset.specs.Meaning as spec;
ghost use Rattle.c_machine.specs.Values.{value_number, value_truth, part_number};

use crate::arith::{minus, negative, opposite, plus, relates, times};
use crate::code::{Part, Value};

fn object_at(row: &[i64], place: usize) -> Option<i64>
    ensures { result ≡ slice_get row.now place }
{
    row.get(place).copied()
}

/// The number of an expression. None where it has none.
#[cycle(number)]
#[tactic(auto, using(crate::proofs::Unrolled::number_laws, crate::specs::declared::code::Value::TheViews::the_lemmas))]
pub(crate) fn number(value: &Value, argument: Option<i64>, row: &[i64]) -> Option<i64>
    ensures { result ≡ value_number argument row.now value.now }
{
    match value {
        Value::Constant(number) => Some(*number),
        Value::Parameter => argument,
        Value::Object(place) => object_at(row, *place),
        Value::Minus(value) => negative(number(value.get(), argument, row)),
        Value::Product(values) => product(values.as_slice(), argument, row),
        Value::Sum(parts) => sum(parts.as_slice(), argument, row),
        Value::Unknown | Value::Not(_) | Value::Relate(_, _, _) | Value::And(_) | Value::Or(_) =>
            None,
    }
}

#[cycle(number)]
fn product(values: &[Value], argument: Option<i64>, row: &[i64]) -> Option<i64>
    ensures { result ≡ spec.product_of (map (value_number argument row.now) values.now) }
{
    let mut product = Some(1);
    for value in values {
        product = times(product, number(value, argument, row));
    }
    product
}

#[cycle(number)]
fn sum(parts: &[Part], argument: Option<i64>, row: &[i64]) -> Option<i64>
    ensures { result ≡ spec.sum_of (map (part_number argument row.now) parts.now) }
{
    let mut sum = Some(0);
    for part in parts {
        let number = number(&part.value, argument, row);
        sum = if part.minus {
            minus(sum, number)
        } else {
            plus(sum, number)
        };
    }
    sum
}

/// The truth of an expression. None where it has none.
#[cycle(truth)]
#[tactic(auto, using(crate::proofs::Unrolled::truth_laws, crate::specs::declared::code::Value::TheViews::the_lemmas))]
pub(crate) fn truth(value: &Value, argument: Option<i64>, row: &[i64]) -> Option<bool>
    ensures { result ≡ value_truth argument row.now value.now }
{
    match value {
        Value::Relate(left, relation, right) => relates(
            *relation,
            number(left.get(), argument, row),
            number(right.get(), argument, row),
        ),
        Value::Not(value) => opposite(truth(value.get(), argument, row)),
        Value::And(values) => all_true(values.as_slice(), argument, row),
        Value::Or(values) => some_true(values.as_slice(), argument, row),
        Value::Constant(_)
        | Value::Parameter
        | Value::Object(_)
        | Value::Unknown
        | Value::Minus(_)
        | Value::Product(_)
        | Value::Sum(_) => None,
    }
}

#[cycle(truth)]
fn all_true(values: &[Value], argument: Option<i64>, row: &[i64]) -> Option<bool>
    ensures { result ≡ spec.all_true (map (value_truth argument row.now) values.now) }
{
    for value in values {
        match truth(value, argument, row) {
            Some(true) => {}
            Some(false) => return Some(false),
            None => return None,
        }
    }
    Some(true)
}

#[cycle(truth)]
fn some_true(values: &[Value], argument: Option<i64>, row: &[i64]) -> Option<bool>
    ensures { result ≡ spec.some_true (map (value_truth argument row.now) values.now) }
{
    for value in values {
        match truth(value, argument, row) {
            Some(true) => return Some(true),
            Some(false) => {}
            None => return None,
        }
    }
    Some(false)
}

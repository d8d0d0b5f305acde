//! Sides as terms and a constant.
ghost use Rattle.std.specs.Prelude.{◌≡◌, ◌≤◌, ◌++◌, ◌*ℤ◌, ◌-ℤ◌, map, unsigned_abs, IsTrue, OnOk, IfOk, MatchOption};
ghost use Rattle.scr_spec.specs.Shown.{data_of};
ghost use Rattle.scr_spec.specs.Over.{is_item_over, is_side_over, is_operand_over, operand_bound, item_bound};
ghost use Rattle.prove_formula.specs.Sides.{plain_in_new as plain_new, primed_in_new as primed_new, negated, term_of, side_terms, fixed_value, side_constant, difference};

use crate::level::level_at;
use crate::{Linear, Op, Term};
use base::NoMemory;
use scr_spec::{Expr, Item, Operand, Spec};
use sqlite_items::Items;
use std::alloc::Global;

/// Which state the names of a side are read in.
#[derive(Clone, Copy, PartialEq, Eq)]
pub enum Reading {
    /// All names in one: the new state where this is true, and the old one else.
    In(bool),
    /// Unprimed names in the old state, and primed ones in the new.
    Across,
}

pub fn plain_in_new(reading: Reading) -> bool
    ensures { result ≡ plain_new reading }
{
    match reading {
        Reading::In(new) => new,
        Reading::Across => false,
    }
}

fn primed_in_new(reading: Reading) -> bool
    ensures { result ≡ primed_new reading }
{
    match reading {
        Reading::In(new) => new,
        Reading::Across => true,
    }
}

fn term_at(spec: &Spec, item: Item, reading: Reading) -> Option<Term>
    requires { IsTrue (is_item_over (data_of spec.now) item) }
    ensures term { result ≡ term_of reading item item.operand }
    ensures narrow { MatchOption result (Unit {0}) (λ t. unsigned_abs t.factor ≤ 1000000) }
{
    match item.operand {
        Operand::Variable(v) => Some(Term {
            factor: item.factor,
            level: level_at(v, plain_in_new(reading)),
        }),
        Operand::Primed(v) => Some(Term {
            factor: item.factor,
            level: level_at(v, primed_in_new(reading)),
        }),
        _ => None,
    }
}

#[tactic(auto, using(std::proofs::lemmas::Int::ints))]
fn negate(term: Term) -> Term
    requires { unsigned_abs term.factor ≤ 1000000 }
    ensures { result ≡ negated term }
{
    Term {
        factor: -term.factor,
        level: term.level,
    }
}

/// Adds the terms of a side.
#[tactic(auto, using(crate::proofs::Terms::more_terms))]
pub fn push_side(
    out: &mut Items<Term>,
    spec: &Spec,
    e: &Expr,
    reading: Reading,
) -> Result<(), NoMemory>
    requires { IsTrue (is_side_over (data_of spec.now) e.now) }
    ensures { OnOk result (out.new ≡ out.old ++ side_terms reading e.now) }
{
    for item in e.items.as_slice() {
        if let Some(term) = term_at(spec, *item, reading) {
            out.push(term)?;
        }
    }
    Ok(())
}

/// Adds the terms of a side that is taken away.
pub fn push_negated_side(
    out: &mut Items<Term>,
    spec: &Spec,
    e: &Expr,
    reading: Reading,
) -> Result<(), NoMemory>
    requires { IsTrue (is_side_over (data_of spec.now) e.now) }
    ensures { OnOk result (out.new ≡ out.old ++ map negated (side_terms reading e.now)) }
{
    for item in e.items.as_slice() {
        if let Some(term) = term_at(spec, *item, reading) {
            out.push(negate(term))?;
        }
    }
    Ok(())
}

fn fixed_at(spec: &Spec, operand: Operand) -> i64
    requires { IsTrue (is_operand_over (data_of spec.now) operand) }
    ensures value { result ≡ fixed_value (data_of spec.now) operand }
    ensures bounded { unsigned_abs result ≤ operand_bound (data_of spec.now) operand }
{
    match operand {
        Operand::One => 1,
        Operand::Truth(b) => i64::from(b),
        Operand::Constant(k) => spec.constants.as_slice()[k].value,
        Operand::Label(_, code) => code,
        Operand::Variable(_) | Operand::Primed(_) => 0,
    }
}

#[tactic(auto, using(crate::proofs::Products::product_bounds))]
fn fixed_item_at(spec: &Spec, item: Item) -> i64
    requires over { IsTrue (is_item_over (data_of spec.now) item) }
    requires narrow { item_bound (data_of spec.now) item ≤ 2000000000 }
    ensures value { result ≡ item.factor *ℤ fixed_value (data_of spec.now) item.operand }
    ensures bounded { unsigned_abs result ≤ item_bound (data_of spec.now) item }
{
    item.factor * fixed_at(spec, item.operand)
}

/// What the items without variables add.
pub fn constant_at(spec: &Spec, e: &Expr) -> i64
    requires { IsTrue (is_side_over (data_of spec.now) e.now) }
    ensures value { result ≡ side_constant (data_of spec.now) e.now }
    ensures bounded { unsigned_abs result ≤ 2000000000 }
{
    let mut sum = 0;
    for item in e.items.as_slice() {
        sum += fixed_item_at(spec, *item);
    }
    sum
}

/// One number less another.
pub fn less(left: i64, right: i64) -> i64
    requires left_narrow { unsigned_abs left ≤ 2000000000 }
    requires right_narrow { unsigned_abs right ≤ 2000000000 }
    ensures value { result ≡ left -ℤ right }
    ensures bounded { unsigned_abs result ≤ 4000000000 }
{
    left - right
}

/// The left side less the right, against 0.
pub fn difference_at(
    alloc: Global,
    spec: &Spec,
    reading: Reading,
    left: &Expr,
    right: &Expr,
    op: Op,
) -> Result<Linear, NoMemory>
    requires left_over { IsTrue (is_side_over (data_of spec.now) left.now) }
    requires right_over { IsTrue (is_side_over (data_of spec.now) right.now) }
    ensures atom { IfOk result (λ a. a ≡ difference (data_of spec.now) reading left.now right.now op) }
    ensures bounded { IfOk result (λ a. unsigned_abs a.constant ≤ 4000000000) }
{
    let mut terms = Items::new(alloc);
    push_side(&mut terms, spec, left, reading)?;
    push_negated_side(&mut terms, spec, right, reading)?;
    Ok(Linear {
        terms,
        constant: less(constant_at(spec, left), constant_at(spec, right)),
        op,
    })
}

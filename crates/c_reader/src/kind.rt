//! Whether expressions are numbers or truths.

ghost use Rattle.std.specs.Prelude.{◌≡◌, ◌&&◌, nat_le, length};
ghost use Rattle.std.specs.List.{list_all};
ghost use Rattle.c_subset.specs.Names as names_of;
ghost use Rattle.c_subset.specs.Kinds as spec;
ghost use Rattle.c_subset.specs.Rules.{number_names};
ghost use Rattle.c_reader.specs.Kept.{scope_of};
ghost use Rattle.c_reader.specs.Terms as terms_of;

use crate::declared::Declared;
use base::Name;
use c_subset::{CExpr, CKind, CTerm};

/// Whether the name is that of the parameter or of an object.
fn is_number_name(declared: &Declared, parameter: &Option<Name>, name: &Name) -> bool
    ensures { result ≡ names_of.is_among (number_names (scope_of declared.now) parameter.now) name.now }
{
    match parameter {
        Some(given) => name.is_same(given) || declared.is_object(name),
        None => declared.is_object(name),
    }
}

/// Whether the number is from -2147483647 to 2147483647.
pub(crate) fn is_number_in_range(value: i64) -> bool
    ensures { result ≡ spec.is_number_in_range value }
{
    value.unsigned_abs() <= 2147483647
}

/// A constant is from 0 to 2147483647.
fn is_constant(value: i64) -> bool
    ensures { result ≡ spec.is_constant value }
{
    value >= 0 && is_number_in_range(value)
}

pub(crate) fn is_number(kind: Option<CKind>) -> bool
    ensures { result ≡ spec.is_number kind }
{
    matches!(kind, Some(CKind::Number))
}

pub(crate) fn is_truth(kind: Option<CKind>) -> bool
    ensures { result ≡ spec.is_truth kind }
{
    matches!(kind, Some(CKind::Truth))
}

/// The kind, where the parts are as they must be.
fn given(right: bool, kind: CKind) -> Option<CKind>
    ensures { result ≡ spec.given right kind }
{
    if right { Some(kind) } else { None }
}

/// Whether nothing is taken away at the first place.
fn begins_plain(terms: &[CTerm]) -> bool
    ensures { result ≡ terms_of.begins_plain terms.now }
{
    match terms.first() {
        Some(term) => !term.minus,
        None => true,
    }
}

/// The kind of an expression, where these are the names of numbers; nothing where it has none.
#[cycle(kinds)]
#[tactic(auto, using(crate::proofs::KindLaws::kind_laws, c_subset::specs::declared::expr::CExpr::TheViews::the_lemmas))]
pub(crate) fn kind_of(declared: &Declared, parameter: &Option<Name>, e: &CExpr) -> Option<CKind>
    ensures { result ≡ spec.kind_of (number_names (scope_of declared.now) parameter.now) e.now }
{
    match e {
        CExpr::Constant(value) => given(is_constant(*value), CKind::Number),
        CExpr::Name(name) => given(is_number_name(declared, parameter, name), CKind::Number),
        CExpr::Minus(x) => given(
            is_number(kind_of(declared, parameter, x.get())),
            CKind::Number,
        ),
        CExpr::Not(x) => given(
            is_truth(kind_of(declared, parameter, x.get())),
            CKind::Truth,
        ),
        CExpr::Product(xs) => given(
            are_numbers(declared, parameter, xs.as_slice()),
            CKind::Number,
        ),
        CExpr::Sum(ts) => given(are_terms(declared, parameter, ts.as_slice()), CKind::Number),
        CExpr::Relate(left, _, right) => given(
            is_number(kind_of(declared, parameter, left.get()))
                && is_number(kind_of(declared, parameter, right.get())),
            CKind::Truth,
        ),
        CExpr::And(xs) => given(are_truths(declared, parameter, xs.as_slice()), CKind::Truth),
        CExpr::Or(xs) => given(are_truths(declared, parameter, xs.as_slice()), CKind::Truth),
    }
}

#[cycle(kinds)]
fn are_numbers(declared: &Declared, parameter: &Option<Name>, xs: &[CExpr]) -> bool
    ensures { result ≡ (nat_le 2 (length xs.now) && list_all (λ x. spec.is_number (spec.kind_of (number_names (scope_of declared.now) parameter.now) x)) xs.now) }
{
    if xs.len() < 2 {
        return false;
    }
    for x in xs {
        if !is_number(kind_of(declared, parameter, x)) {
            return false;
        }
    }
    true
}

#[cycle(kinds)]
fn are_truths(declared: &Declared, parameter: &Option<Name>, xs: &[CExpr]) -> bool
    ensures { result ≡ (nat_le 2 (length xs.now) && list_all (λ x. spec.is_truth (spec.kind_of (number_names (scope_of declared.now) parameter.now) x)) xs.now) }
{
    if xs.len() < 2 {
        return false;
    }
    for x in xs {
        if !is_truth(kind_of(declared, parameter, x)) {
            return false;
        }
    }
    true
}

#[cycle(kinds)]
fn are_terms(declared: &Declared, parameter: &Option<Name>, ts: &[CTerm]) -> bool
    ensures { result ≡ (nat_le 2 (length ts.now) && terms_of.begins_plain ts.now && list_all (λ t. spec.is_number (spec.kind_of (number_names (scope_of declared.now) parameter.now) t.value)) ts.now) }
{
    if ts.len() < 2 || !begins_plain(ts) {
        return false;
    }
    for t in ts {
        if !is_number(kind_of(declared, parameter, &t.value)) {
            return false;
        }
    }
    true
}

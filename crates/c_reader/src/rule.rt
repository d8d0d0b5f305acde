//! The rules on a unit, item by item.

ghost use Rattle.std.specs.Prelude.{◌≡◌, ◌&&◌, false, true, length, IfOk, OnOk};
ghost use Rattle.std.specs.List.{list_all};
ghost use Rattle.std.specs.Option.{option_map_or};
ghost use Rattle.c_subset.specs.Names as names_of;
ghost use Rattle.c_subset.specs.Rules as spec;
ghost use Rattle.c_subset.specs.Scope.{known};
ghost use Rattle.c_reader.specs.Pieces.{is_word_byte};
ghost use Rattle.c_reader.specs.Kept.{signature_of, scope_of, Like};

use crate::declared::{Declared, Signature};
use crate::kind::{is_number, is_number_in_range, is_truth, kind_of};
use crate::labels::are_labels;
use crate::measure::{body_weight, calls_depth};
use crate::nesting::open_function;
use crate::piece;
use crate::piece::first_and_rest;
use crate::spelling::{NAME_LIMIT, is_c_keyword};
use base::{Name, NoMemory};
use c_subset::{CClause, CExpr, CFunction, CItem, CObject, CStmt};
use std::alloc::Global;

/// The greatest weight of a function.
const WEIGHT_LIMIT: usize = 1_000_000;

/// The greatest call depth of a function.
const DEPTH_LIMIT: usize = 256;

/// How many parentheses and braces may be open at one place.
const NESTING_LIMIT: usize = 256;

/// Whether there is an argument exactly where there is a parameter, and it is a number.
fn is_argument(
    declared: &Declared,
    parameter: &Option<Name>,
    takes: bool,
    argument: &Option<CExpr>,
) -> bool
    ensures { result ≡ spec.is_argument (spec.number_names (scope_of declared.now) parameter.now) takes argument.now }
{
    match argument {
        Some(e) => takes && is_number(kind_of(declared, parameter, e)),
        None => !takes,
    }
}

/// Whether the call is of an earlier function, with an argument as it wants one.
fn is_call(
    declared: &Declared,
    parameter: &Option<Name>,
    name: &Name,
    argument: &Option<CExpr>,
) -> bool
    ensures { result ≡ option_map_or (λ f. spec.is_argument (spec.number_names (scope_of declared.now) parameter.now) f.takes argument.now) (known (scope_of declared.now) name.now) false }
{
    match declared.function(name) {
        Some(signature) => is_argument(declared, parameter, signature.takes, argument),
        None => false,
    }
}

/// Whether the statement keeps the rules in a function with this parameter.
#[cycle(rules)]
#[tactic(auto, using(crate::proofs::RuleLaws::stmt_rules, c_subset::specs::declared::stmt::CStmt::TheViews::the_lemmas))]
fn is_stmt(
    alloc: Global,
    declared: &Declared,
    parameter: &Option<Name>,
    s: &CStmt,
) -> Result<bool, NoMemory>
    ensures { IfOk result (λ right. right ≡ spec.is_stmt (scope_of declared.now) (spec.number_names (scope_of declared.now) parameter.now) s.now) }
{
    match s {
        CStmt::Assign(name, e) => {
            Ok(declared.is_object(name) && is_number(kind_of(declared, parameter, e)))
        }
        CStmt::If(e, yes_block, no_block) => {
            let yes_right = are_stmts(alloc, declared, parameter, yes_block.as_slice())?;
            let no_right = are_stmts(alloc, declared, parameter, no_block.as_slice())?;
            Ok(is_truth(kind_of(declared, parameter, e)) & yes_right & no_right)
        }
        CStmt::Call(name, argument) => Ok(is_call(declared, parameter, name, argument)),
        CStmt::Switch(e, clauses) => {
            let labels_right = are_labels(alloc, clauses.as_slice())?;
            let bodies_right = are_bodies(alloc, declared, parameter, clauses.as_slice())?;
            Ok(is_number(kind_of(declared, parameter, e)) & labels_right & bodies_right)
        }
    }
}

/// Whether each of the statements keeps the rules.
#[cycle(rules)]
fn are_stmts(
    alloc: Global,
    declared: &Declared,
    parameter: &Option<Name>,
    xs: &[CStmt],
) -> Result<bool, NoMemory>
    ensures { IfOk result (λ right. right ≡ spec.is_body (scope_of declared.now) parameter.now xs.now) }
{
    for x in xs {
        let right = is_stmt(alloc, declared, parameter, x)?;
        if !right {
            return Ok(false);
        }
    }
    Ok(true)
}

/// Whether each statement of each clause keeps the rules.
#[cycle(rules)]
fn are_bodies(
    alloc: Global,
    declared: &Declared,
    parameter: &Option<Name>,
    clauses: &[CClause],
) -> Result<bool, NoMemory>
    ensures { IfOk result (λ right. right ≡ list_all (λ c. spec.is_body (scope_of declared.now) parameter.now c.body) clauses.now) }
{
    for clause in clauses {
        let right = are_stmts(alloc, declared, parameter, clause.body.as_slice())?;
        if !right {
            return Ok(false);
        }
    }
    Ok(true)
}

fn are_word_bytes(bytes: &[u8]) -> bool
    ensures { result ≡ list_all is_word_byte bytes.now }
{
    bytes.iter().all(|b| piece::is_word_byte(*b))
}

/// A letter, then letters, digits and `_`.
fn is_word(bytes: &[u8]) -> bool
    ensures { result ≡ names_of.is_word bytes.now }
{
    match first_and_rest(bytes) {
        Some((first, rest)) => first.is_ascii_alphabetic() && are_word_bytes(rest),
        None => false,
    }
}

/// Whether the word is a name of C.
fn is_c_name(name: &Name) -> bool
    ensures { result ≡ names_of.is_c_name name.now }
{
    let bytes = name.as_slice();
    is_word(bytes) && bytes.len() <= NAME_LIMIT && !is_c_keyword(bytes)
}

fn is_new(declared: &Declared, name: &Name) -> bool
    ensures { result ≡ spec.is_new (scope_of declared.now) name.now }
{
    is_c_name(name) && !declared.is_taken(name)
}

fn is_object(declared: &Declared, o: &CObject) -> bool
    ensures { result ≡ spec.is_object (scope_of declared.now) o.now }
{
    is_new(declared, &o.name) && is_number_in_range(o.init)
}

/// Whether a function of this name may have this parameter.
fn is_parameter(declared: &Declared, function: &Name, parameter: &Option<Name>) -> bool
    ensures { result ≡ option_map_or (spec.is_parameter (scope_of declared.now) function.now) parameter.now true }
{
    match parameter {
        Some(name) => { is_c_name(name) && !declared.is_item_name(name) && !function.is_same(name) }
        None => true,
    }
}

fn is_within_limits(declared: &Declared, f: &CFunction) -> bool
    ensures { result ≡ spec.is_within_limits (scope_of declared.now) f.now }
{
    let body = f.body.as_slice();
    body_weight(declared, body) <= WEIGHT_LIMIT
        && calls_depth(declared, body) < DEPTH_LIMIT
        && open_function(f) <= NESTING_LIMIT
}

fn is_function(alloc: Global, declared: &Declared, f: &CFunction) -> Result<bool, NoMemory>
    ensures { IfOk result (λ right. right ≡ spec.is_function (scope_of declared.now) f.now) }
{
    let body_right = are_stmts(alloc, declared, &f.parameter, f.body.as_slice())?;
    Ok(
        is_new(declared, &f.name)
            && is_parameter(declared, &f.name, &f.parameter)
            && body_right
            && is_within_limits(declared, f),
    )
}

/// Whether the item keeps the rules behind what is declared.
pub(crate) fn is_item(alloc: Global, declared: &Declared, item: &CItem) -> Result<bool, NoMemory>
    ensures { IfOk result (λ right. right ≡ spec.is_item (scope_of declared.now) item.now) }
{
    match item {
        CItem::Object(o) => Ok(is_object(declared, o)),
        CItem::Function(f) => is_function(alloc, declared, f),
    }
}

/// What calls of a function take and cost.
fn signature(declared: &Declared, f: &CFunction) -> Signature
    requires { spec.is_within_limits (scope_of declared.now) f.now ≡ true }
    ensures { result ≡ signature_of (spec.known_of (scope_of declared.now) f.now) }
{
    let body = f.body.as_slice();
    Signature {
        takes: f.parameter.is_some(),
        weight: body_weight(declared, body),
        depth: calls_depth(declared, body) + 1,
    }
}

/// Declares an item that keeps the rules.
pub(crate) fn declare(alloc: Global, declared: &mut Declared, item: &CItem) -> Result<(), NoMemory>
    requires { spec.is_item (scope_of declared.old) item.now ≡ true }
    ensures { OnOk result (Like (scope_of declared.new) (spec.with_item (scope_of declared.old) item.now)) }
{
    match item {
        CItem::Object(o) => declared.add_object(alloc, &o.name),
        CItem::Function(f) => {
            let signature = signature(declared, f);
            declared.add_function(alloc, &f.name, signature)?;
            declared.add_parameter(alloc, &f.parameter)
        }
    }
}

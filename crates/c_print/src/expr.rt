//! Writes expressions.

ghost use Rattle.std.specs.Prelude.{◌≡◌, true, OnOk};
ghost use Rattle.c_reader.specs.Grammar.{sign_of};
ghost use Rattle.c_print.specs.Appended as spec;
ghost use Rattle.c_print.specs.Printed as printed;

use crate::ink::{push_before, push_between, push_constant, push_name, push_sign};
use base::{NoMemory, Relation};
use c_reader::Sign;
use c_subset::{CExpr, CTerm};

// How tight forms bind, as the grammar of C11 nests them (6.5): a place that wants one of these takes that form and each
// tighter one as it is, and any other in parentheses.
pub(crate) const OR: usize = 0;

const AND: usize = 1;

const RELATION: usize = 2;

const SUM: usize = 3;

const PRODUCT: usize = 4;

const UNARY: usize = 5;

const PRIMARY: usize = 6;

const PARENTHESES: usize = 7;

fn relation_sign(relation: Relation) -> Sign
    ensures { result ≡ sign_of relation }
{
    match relation {
        Relation::Equal => Sign::Equal,
        Relation::Differ => Sign::Differ,
        Relation::Less => Sign::Less,
        Relation::AtMost => Sign::AtMost,
        Relation::Greater => Sign::Greater,
        Relation::AtLeast => Sign::AtLeast,
    }
}

fn sign_between(minus: bool) -> Sign
    ensures { result ≡ printed.sign_between minus }
{
    if minus { Sign::Minus } else { Sign::Plus }
}

/// How tight a form binds.
#[tactic(auto, using(crate::proofs::Forms::binding_laws))]
fn binding(expression: &CExpr) -> usize
    ensures { result ≡ spec.binding expression.now }
{
    match expression {
        CExpr::Constant(_) | CExpr::Name(_) => PRIMARY,
        CExpr::Minus(_) | CExpr::Not(_) => UNARY,
        CExpr::Product(_) => PRODUCT,
        CExpr::Sum(_) => SUM,
        CExpr::Relate(_, _, _) => RELATION,
        CExpr::And(_) => AND,
        CExpr::Or(_) => OR,
    }
}

/// Writes an expression at a place that wants so tight a form: in parentheses where it is not.
#[cycle(expressions)]
pub(crate) fn push_expr(
    out: &mut Vec<u8>,
    expression: &CExpr,
    wanted: usize,
) -> Result<(), NoMemory>
    ensures { OnOk result (spec.Appends (printed.expr_marks expression.now wanted) out.old.items out.new.items) }
{
    if binding(expression) < wanted {
        push_sign(out, Sign::OpenParen)?;
        push_bare(out, expression)?;
        push_sign(out, Sign::CloseParen)
    } else {
        push_bare(out, expression)
    }
}

/// Writes an expression without parentheses round it.
#[cycle(expressions)]
fn push_bare(out: &mut Vec<u8>, expression: &CExpr) -> Result<(), NoMemory>
    ensures { OnOk result (spec.Appends (printed.expr_marks expression.now 0) out.old.items out.new.items) }
{
    match expression {
        CExpr::Constant(value) => push_constant(out, *value),
        CExpr::Name(name) => push_name(out, name),
        CExpr::Minus(operand) => {
            push_sign(out, Sign::Minus)?;
            push_expr(out, operand.get(), PRIMARY)
        }
        CExpr::Not(operand) => {
            push_sign(out, Sign::Not)?;
            push_expr(out, operand.get(), PARENTHESES)
        }
        CExpr::Product(members) => push_joined(out, Sign::Times, UNARY, members.as_slice()),
        CExpr::Sum(terms) => push_terms(out, terms.as_slice()),
        CExpr::Relate(left, relation, right) => {
            push_expr(out, left.get(), SUM)?;
            push_between(out, relation_sign(*relation))?;
            push_expr(out, right.get(), SUM)
        }
        CExpr::And(members) => push_joined(out, Sign::And, RELATION, members.as_slice()),
        CExpr::Or(members) => push_joined(out, Sign::Or, AND, members.as_slice()),
    }
}

/// Writes members with a sign between them.
#[cycle(expressions)]
fn push_joined(
    out: &mut Vec<u8>,
    sign: Sign,
    wanted: usize,
    members: &[CExpr],
) -> Result<(), NoMemory>
    ensures { OnOk result (spec.Appends (spec.joined_from true sign (spec.members wanted members.now)) out.old.items out.new.items) }
{
    let mut is_first = true;
    for member in members {
        push_before(out, is_first, sign)?;
        push_expr(out, member, wanted)?;
        is_first = false;
    }
    Ok(())
}

/// Writes the terms of a sum, each but the first behind its sign.
#[cycle(expressions)]
fn push_terms(out: &mut Vec<u8>, terms: &[CTerm]) -> Result<(), NoMemory>
    ensures { OnOk result (spec.Appends (spec.terms_from true terms.now) out.old.items out.new.items) }
{
    let mut is_first = true;
    for term in terms {
        push_before(out, is_first, sign_between(term.minus))?;
        push_expr(out, &term.value, PRODUCT)?;
        is_first = false;
    }
    Ok(())
}

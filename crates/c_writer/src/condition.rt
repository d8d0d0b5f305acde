//! Conditions of a specification as expressions of C.
ghost use Rattle.std.specs.Prelude.{◌≡◌, ◌++◌, [], ◌∷◌, map, IsTrue, IfOk, OnOk};
ghost use Rattle.std.specs.List.{list_all};
ghost use Rattle.scr_spec.specs.Shown.{data_of};
ghost use Rattle.scr_spec.specs.Over.{is_side_over, is_cond_over};
ghost use Rattle.c_subset.specs.declared.expr.CExpr.TheVariants.{Name as Object, Relate, Not};
ghost use Rattle.c_writer.specs.Objects.{object_of};
ghost use Rattle.c_writer.specs.Sides.{side_expr as side};
ghost use Rattle.c_writer.specs.Conditions.{truth_expr, cond_expr as condition, conjunction as all_of, disjunction as any_of};

use crate::objects::{Moment, object_at};
use crate::side::side_expr;
use base::{NoMemory, Relation};
use c_subset::CExpr;
use scr_spec::{Cond, Expr, Spec};
use sqlite_items::{Boxed, Items};
use std::alloc::Global;

/// Two numbers in a relation.
pub(crate) fn relate(
    alloc: Global,
    left: CExpr,
    relation: Relation,
    right: CExpr,
) -> Result<CExpr, NoMemory>
    ensures { IfOk result (λ e. e ≡ Relate left relation right) }
{
    let left = Boxed::new(alloc, left)?;
    let right = Boxed::new(alloc, right)?;
    Ok(CExpr::Relate(left, relation, right))
}

/// The negation of an expression.
pub(crate) fn negation(alloc: Global, e: CExpr) -> Result<CExpr, NoMemory>
    ensures { IfOk result (λ n. n ≡ Not e) }
{
    Ok(CExpr::Not(Boxed::new(alloc, e)?))
}

/// TRUE and FALSE, as a relation between numbers.
pub(crate) fn truth(alloc: Global, value: bool) -> Result<CExpr, NoMemory>
    ensures { IfOk result (λ e. e ≡ truth_expr value) }
{
    let relation = if value {
        Relation::Equal
    } else {
        Relation::Differ
    };
    relate(alloc, CExpr::Constant(0), relation, CExpr::Constant(0))
}

fn compared(
    alloc: Global,
    spec: &Spec,
    left: &Expr,
    relation: Relation,
    right: &Expr,
    moment: Moment,
) -> Result<CExpr, NoMemory>
    requires left_over { IsTrue (is_side_over (data_of spec.now) left.now) }
    requires right_over { IsTrue (is_side_over (data_of spec.now) right.now) }
    ensures { IfOk result (λ e. e ≡ Relate (side (data_of spec.now) (object_of (data_of spec.now) moment) (object_of (data_of spec.now) moment) left.now) relation (side (data_of spec.now) (object_of (data_of spec.now) moment) (object_of (data_of spec.now) moment) right.now)) }
{
    let left = side_expr(alloc, spec, left, moment, moment)?;
    let right = side_expr(alloc, spec, right, moment, moment)?;
    relate(alloc, left, relation, right)
}

/// The expression of a condition at a moment.
#[cycle(written)]
#[tactic(auto, using(scr_spec::proofs::Laws::cond_laws, crate::proofs::Joined::cond_laws, scr_spec::specs::declared::cond::Cond::TheViews::the_lemmas))]
pub(crate) fn cond_expr(
    alloc: Global,
    spec: &Spec,
    c: &Cond,
    moment: Moment,
) -> Result<CExpr, NoMemory>
    requires { IsTrue (is_cond_over (data_of spec.now) c.now) }
    ensures { IfOk result (λ e. e ≡ condition (data_of spec.now) (object_of (data_of spec.now) moment) c.now) }
{
    match c {
        Cond::Truth(b) => truth(alloc, *b),
        Cond::Holds(v) => {
            let object = object_at(alloc, spec, moment, *v)?;
            relate(
                alloc,
                CExpr::Name(object),
                Relation::Differ,
                CExpr::Constant(0),
            )
        }
        Cond::Compare(left, relation, right) => {
            compared(alloc, spec, left, *relation, right, moment)
        }
        Cond::Not(c) => {
            let member = cond_expr(alloc, spec, c.get(), moment)?;
            negation(alloc, member)
        }
        Cond::And(cs) => {
            let members = cond_exprs(alloc, spec, cs.as_slice(), moment)?;
            Ok(CExpr::And(members))
        }
        Cond::Or(cs) => {
            let members = cond_exprs(alloc, spec, cs.as_slice(), moment)?;
            Ok(CExpr::Or(members))
        }
    }
}

#[cycle(written)]
fn cond_exprs(
    alloc: Global,
    spec: &Spec,
    cs: &[Cond],
    moment: Moment,
) -> Result<Items<CExpr>, NoMemory>
    requires { IsTrue (list_all (is_cond_over (data_of spec.now)) cs.now) }
    ensures { IfOk result (λ es. es ≡ map (condition (data_of spec.now) (object_of (data_of spec.now) moment)) cs.now) }
{
    let mut members = Items::new(alloc);
    for c in cs {
        let member = cond_expr(alloc, spec, c, moment)?;
        members.push(member)?;
    }
    Ok(members)
}

/// The members joined by `&&`. One member stands alone.
pub(crate) fn conjunction(alloc: Global, mut members: Items<CExpr>) -> Result<CExpr, NoMemory>
    ensures { IfOk result (λ e. e ≡ all_of members) }
{
    match members.len() {
        0 => truth(alloc, true),
        1 => match members.pop() {
            Some(member) => Ok(member),
            None => truth(alloc, true),
        },
        _ => Ok(CExpr::And(members)),
    }
}

/// The members joined by `||`. One member stands alone.
pub(crate) fn disjunction(alloc: Global, mut members: Items<CExpr>) -> Result<CExpr, NoMemory>
    ensures { IfOk result (λ e. e ≡ any_of members) }
{
    match members.len() {
        0 => truth(alloc, false),
        1 => match members.pop() {
            Some(member) => Ok(member),
            None => truth(alloc, false),
        },
        _ => Ok(CExpr::Or(members)),
    }
}

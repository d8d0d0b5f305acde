//! Sides of a specification as expressions of C.
ghost use Rattle.std.specs.Prelude.{◌≡◌, ◌≤◌, ◌*◌, ◌*ℤ◌, ◌++◌, [], ◌∷◌, pos, map, unsigned_abs, sum_by, IsTrue, IfOk, OnOk};
ghost use Rattle.std.specs.List.{list_all};
ghost use Rattle.scr_spec.specs.Shown.{data_of};
ghost use Rattle.scr_spec.specs.Over.{operand_bound, item_bound, is_operand_over, is_item_over, is_side_over};
ghost use Rattle.c_subset.specs.declared.expr.CExpr.TheVariants.{Constant, Name as Object, Minus, Product};
ghost use Rattle.c_writer.specs.Objects.{object_of};
ghost use Rattle.c_writer.specs.Sides.{coefficient_of, object_in as object_of_operand, term_of_item, size_expr, negated_expr, leading_expr, leading_term as first_term, later_term as next_term, side_expr as side};

use crate::objects::{Moment, object_at};
use base::{Name, NoMemory};
use c_subset::{CExpr, CTerm};
use scr_spec::{Expr, Item, Operand, Spec};
use sqlite_items::{Boxed, Items};
use std::alloc::Global;

/// A number, or a number times an object.
#[derive(Drop)]
pub(crate) struct LinearTerm {
    pub coefficient: i64,
    pub object: Option<Name>,
}

#[tactic(auto, using(scr_eval::proofs::Bounds::product_bounds))]
fn times(factor: i64, value: i64) -> i64
    requires { unsigned_abs factor * unsigned_abs value ≤ 2000000000 }
    ensures { result ≡ factor *ℤ value }
{
    factor * value
}

fn coefficient_at(spec: &Spec, factor: i64, operand: Operand) -> i64
    requires over { IsTrue (is_operand_over (data_of spec.now) operand) }
    requires narrow { unsigned_abs factor * operand_bound (data_of spec.now) operand ≤ 2000000000 }
    ensures { result ≡ coefficient_of (data_of spec.now) factor operand }
{
    match operand {
        Operand::One => times(factor, 1),
        Operand::Truth(b) => times(factor, i64::from(b)),
        Operand::Constant(k) => times(factor, spec.constants.as_slice()[k].value),
        Operand::Label(_, code) => times(factor, code),
        Operand::Variable(_) | Operand::Primed(_) => factor,
    }
}

fn object_in(
    alloc: Global,
    spec: &Spec,
    operand: Operand,
    plain: Moment,
    primed: Moment,
) -> Result<Option<Name>, NoMemory>
    ensures { IfOk result (λ o. o ≡ object_of_operand (object_of (data_of spec.now) plain) (object_of (data_of spec.now) primed) operand) }
{
    match operand {
        Operand::One | Operand::Truth(_) | Operand::Constant(_) | Operand::Label(_, _) => Ok(None),
        Operand::Variable(v) => Ok(Some(object_at(alloc, spec, plain, v)?)),
        Operand::Primed(v) => Ok(Some(object_at(alloc, spec, primed, v)?)),
    }
}

fn term_at(
    alloc: Global,
    spec: &Spec,
    item: &Item,
    plain: Moment,
    primed: Moment,
) -> Result<LinearTerm, NoMemory>
    requires over { IsTrue (is_item_over (data_of spec.now) item.now) }
    requires narrow { item_bound (data_of spec.now) item.now ≤ 2000000000 }
    ensures { IfOk result (λ w. w ≡ term_of_item (data_of spec.now) (object_of (data_of spec.now) plain) (object_of (data_of spec.now) primed) item.now) }
{
    let object = object_in(alloc, spec, item.operand, plain, primed)?;
    Ok(LinearTerm {
        coefficient: coefficient_at(spec, item.factor, item.operand),
        object,
    })
}

#[tactic(auto, using(std::proofs::lemmas::Int::ints))]
fn constant(size: u64) -> CExpr
    requires { size ≤ 2147483647 }
    ensures { result ≡ Constant (pos size) }
{
    CExpr::Constant(size as i64)
}

/// The number times the object.
fn product(alloc: Global, factor: CExpr, object: Name) -> Result<CExpr, NoMemory>
    ensures { IfOk result (λ e. e ≡ Product (factor ∷ Object object ∷ [])) }
{
    let mut members = Items::new(alloc);
    members.push(factor)?;
    members.push(CExpr::Name(object))?;
    Ok(CExpr::Product(members))
}

fn minus(alloc: Global, e: CExpr) -> Result<CExpr, NoMemory>
    ensures { IfOk result (λ m. m ≡ Minus e) }
{
    Ok(CExpr::Minus(Boxed::new(alloc, e)?))
}

fn sized(alloc: Global, size: u64, object: Option<Name>) -> Result<CExpr, NoMemory>
    requires { size ≤ 2147483647 }
    ensures { IfOk result (λ e. e ≡ size_expr size object) }
{
    match object {
        None => Ok(constant(size)),
        Some(name) => {
            if size == 1 {
                Ok(CExpr::Name(name))
            } else {
                product(alloc, constant(size), name)
            }
        }
    }
}

fn negated(alloc: Global, size: u64, object: Option<Name>) -> Result<CExpr, NoMemory>
    requires { size ≤ 2147483647 }
    ensures { IfOk result (λ e. e ≡ negated_expr size object) }
{
    match object {
        None => minus(alloc, constant(size)),
        Some(name) => {
            if size == 1 {
                minus(alloc, CExpr::Name(name))
            } else {
                let factor = minus(alloc, constant(size))?;
                product(alloc, factor, name)
            }
        }
    }
}

fn leading(alloc: Global, term: LinearTerm) -> Result<CExpr, NoMemory>
    requires { unsigned_abs term.coefficient ≤ 2147483647 }
    ensures { IfOk result (λ e. e ≡ leading_expr term) }
{
    let size = term.coefficient.unsigned_abs();
    if term.coefficient < 0 {
        negated(alloc, size, term.object)
    } else {
        sized(alloc, size, term.object)
    }
}

/// What stands first in a side of several items.
fn leading_term(alloc: Global, term: LinearTerm) -> Result<CTerm, NoMemory>
    requires { unsigned_abs term.coefficient ≤ 2147483647 }
    ensures { IfOk result (λ t. t ≡ first_term term) }
{
    Ok(CTerm {
        minus: false,
        value: leading(alloc, term)?,
    })
}

/// What is added to it or taken away.
fn later_term(alloc: Global, term: LinearTerm) -> Result<CTerm, NoMemory>
    requires { unsigned_abs term.coefficient ≤ 2147483647 }
    ensures { IfOk result (λ t. t ≡ next_term term) }
{
    let minus = term.coefficient < 0;
    Ok(CTerm {
        minus,
        value: sized(alloc, term.coefficient.unsigned_abs(), term.object)?,
    })
}

#[tactic(auto, using(crate::proofs::Written::narrow_coefficient))]
fn narrow_item(
    alloc: Global,
    spec: &Spec,
    item: &Item,
    plain: Moment,
    primed: Moment,
) -> Result<LinearTerm, NoMemory>
    requires over { IsTrue (is_item_over (data_of spec.now) item.now) }
    requires narrow { item_bound (data_of spec.now) item.now ≤ 2000000000 }
    ensures value { IfOk result (λ w. w ≡ term_of_item (data_of spec.now) (object_of (data_of spec.now) plain) (object_of (data_of spec.now) primed) item.now) }
    ensures narrow { IfOk result (λ w. unsigned_abs w.coefficient ≤ 2147483647) }
{
    term_at(alloc, spec, item, plain, primed)
}

fn push_later(
    out: &mut Items<CTerm>,
    alloc: Global,
    spec: &Spec,
    items: &[Item],
    plain: Moment,
    primed: Moment,
) -> Result<(), NoMemory>
    requires over { IsTrue (list_all (is_item_over (data_of spec.now)) items.now) }
    requires narrow { sum_by (item_bound (data_of spec.now)) items.now ≤ 2000000000 }
    ensures { OnOk result (out.new ≡ out.old ++ map next_term (map (term_of_item (data_of spec.now) (object_of (data_of spec.now) plain) (object_of (data_of spec.now) primed)) items.now)) }
{
    for item in items {
        let w = narrow_item(alloc, spec, item, plain, primed)?;
        let term = later_term(alloc, w)?;
        out.push(term)?;
    }
    Ok(())
}

/// The expression of a side, whose unprimed names are read at the moment `plain`, and whose primed
/// names at the moment `primed`.
pub(crate) fn side_expr(
    alloc: Global,
    spec: &Spec,
    e: &Expr,
    plain: Moment,
    primed: Moment,
) -> Result<CExpr, NoMemory>
    requires { IsTrue (is_side_over (data_of spec.now) e.now) }
    ensures { IfOk result (λ x. x ≡ side (data_of spec.now) (object_of (data_of spec.now) plain) (object_of (data_of spec.now) primed) e.now) }
{
    match e.items.as_slice() {
        [] => Ok(constant(0)),
        [only] => {
            let w = narrow_item(alloc, spec, only, plain, primed)?;
            leading(alloc, w)
        }
        [first, rest @ ..] => {
            let mut terms = Items::new(alloc);
            let w = narrow_item(alloc, spec, first, plain, primed)?;
            let term = leading_term(alloc, w)?;
            terms.push(term)?;
            push_later(&mut terms, alloc, spec, rest, plain, primed)?;
            Ok(CExpr::Sum(terms))
        }
    }
}

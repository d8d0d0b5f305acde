//! Events of a specification as expressions of C.
ghost use Rattle.std.specs.Prelude.{◌≡◌, ◌++◌, [], ◌∷◌, map, IsTrue, IfOk, OnOk};
ghost use Rattle.std.specs.List.{list_all};
ghost use Rattle.scr_spec.specs.Shown.{data_of};
ghost use Rattle.scr_spec.specs.declared.table.Change.TheVariants.{Changes};
ghost use Rattle.scr_spec.specs.Events.{is_change_over, is_guard_over, is_prim_over, is_event_over};
ghost use Rattle.c_writer.specs.Conditions.{change_exprs as exprs_of_change, guard_exprs, prim_expr as expr_of_prim, event_expr as expr_of_event};

use crate::condition::{cond_expr, conjunction, disjunction, negation, relate, truth};
use crate::objects::{Moment, object_at};
use base::{NoMemory, Relation};
use c_subset::CExpr;
use scr_spec::{Change, Cond, Event, Primitive, Spec};
use sqlite_items::Items;
use std::alloc::Global;

/// A variable whose new code differs from its old one.
fn differs(alloc: Global, spec: &Spec, v: usize) -> Result<CExpr, NoMemory>
    ensures { IfOk result (λ e. e ∷ [] ≡ exprs_of_change (data_of spec.now) (Changes v)) }
{
    let new = object_at(alloc, spec, Moment::New, v)?;
    let old = object_at(alloc, spec, Moment::Old, v)?;
    relate(alloc, CExpr::Name(new), Relation::Differ, CExpr::Name(old))
}

fn pair(alloc: Global, first: CExpr, second: CExpr) -> Result<Items<CExpr>, NoMemory>
    ensures { IfOk result (λ es. es ≡ first ∷ second ∷ []) }
{
    let mut members = Items::new(alloc);
    members.push(first)?;
    members.push(second)?;
    Ok(members)
}

fn single(alloc: Global, only: CExpr) -> Result<Items<CExpr>, NoMemory>
    ensures { IfOk result (λ es. es ≡ only ∷ []) }
{
    let mut members = Items::new(alloc);
    members.push(only)?;
    Ok(members)
}

fn change_exprs(alloc: Global, spec: &Spec, change: &Change) -> Result<Items<CExpr>, NoMemory>
    requires { IsTrue (is_change_over (data_of spec.now) change.now) }
    ensures { IfOk result (λ es. es ≡ exprs_of_change (data_of spec.now) change.now) }
{
    match change {
        Change::Becomes(c) => {
            let before = cond_expr(alloc, spec, c, Moment::Old)?;
            let after = cond_expr(alloc, spec, c, Moment::New)?;
            pair(alloc, negation(alloc, before)?, after)
        }
        Change::Ceases(c) => {
            let before = cond_expr(alloc, spec, c, Moment::Old)?;
            let after = cond_expr(alloc, spec, c, Moment::New)?;
            pair(alloc, before, negation(alloc, after)?)
        }
        Change::Changes(v) => single(alloc, differs(alloc, spec, *v)?),
        Change::Never => single(alloc, truth(alloc, false)?),
    }
}

/// The condition behind `WHEN` is one more member.
fn push_guard(
    out: &mut Items<CExpr>,
    alloc: Global,
    spec: &Spec,
    guard: &Option<Cond>,
) -> Result<(), NoMemory>
    requires { IsTrue (is_guard_over (data_of spec.now) guard.now) }
    ensures { OnOk result (out.new ≡ out.old ++ guard_exprs (data_of spec.now) guard.now) }
{
    if let Some(c) = guard {
        let member = cond_expr(alloc, spec, c, Moment::Old)?;
        out.push(member)?;
    }
    Ok(())
}

fn prim_expr(alloc: Global, spec: &Spec, prim: &Primitive) -> Result<CExpr, NoMemory>
    requires { IsTrue (is_prim_over (data_of spec.now) prim.now) }
    ensures { IfOk result (λ e. e ≡ expr_of_prim (data_of spec.now) prim.now) }
{
    let mut members = change_exprs(alloc, spec, &prim.change)?;
    push_guard(&mut members, alloc, spec, &prim.guard)?;
    conjunction(alloc, members)
}

/// The expression of an event, over the objects of the old and the new codes.
pub(crate) fn event_expr(alloc: Global, spec: &Spec, e: &Event) -> Result<CExpr, NoMemory>
    requires { IsTrue (is_event_over (data_of spec.now) e.now) }
    ensures { IfOk result (λ x. x ≡ expr_of_event (data_of spec.now) e.now) }
{
    let mut members = Items::new(alloc);
    for prim in e.prims.as_slice() {
        let member = prim_expr(alloc, spec, prim)?;
        members.push(member)?;
    }
    disjunction(alloc, members)
}

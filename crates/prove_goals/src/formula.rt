//! The formula of a goal.
ghost use Rattle.std.specs.Prelude.{◌≡◌, ◌++◌, ◌-◌, IsTrue, IfOk, map};
ghost use Rattle.scr_spec.specs.Shown.{data_of};
ghost use Rattle.scr_spec.specs.Cells.{is_table_over};
ghost use Rattle.scr_spec.specs.Relations.{is_monitored};
ghost use Rattle.dd_formula.specs.declared.formula.Formula.TheVariants.{And};
ghost use Rattle.prove_formula.specs.Frozen.{frozen};
ghost use Rattle.prove_formula.specs.Measure.{IsOver};
ghost use Rattle.prove_formula.specs.Violations.{gap_formula};
ghost use Rattle.prove_goals.specs.Goals.{is_change_over, is_goal_over};
ghost use Rattle.prove_goals.specs.Pairs.{pair_formulas, AreOver};
ghost use Rattle.prove_goals.specs.Formulas.{held, at_row, outside, violation, violated, wrong_where, related_where, table_goal_formula, goal_formula_of, IsGoalFormula};

use crate::pair::pairs_for;
use crate::{Goal, GoalKind};
use base::NoMemory;
use prove_formula::{Formula, of_cell, of_gap, of_outside, only_changed};
use scr_depend::{Order, need};
use scr_spec::{Spec, Table};
use sqlite_items::Items;
use std::alloc::Global;

#[tactic(auto, using(scr_spec::proofs::Lookup::lookup_laws))]
fn held(
    alloc: Global,
    spec: &Spec,
    table: &Table,
    row: usize,
    column: usize,
) -> Result<Formula, NoMemory>
    requires { IsTrue (is_table_over (data_of spec.now) table.now) }
    ensures { IfOk result (λ f. f ≡ held (data_of spec.now) table.now row column) }
{
    match table.rows.get(row) {
        None => Ok(Formula::False),
        Some(r) => of_cell(alloc, spec, table, false, r, column),
    }
}

#[tactic(auto, using(scr_spec::proofs::Lookup::lookup_laws))]
fn gap(alloc: Global, spec: &Spec, table: &Table, row: usize) -> Result<Formula, NoMemory>
    requires { IsTrue (is_table_over (data_of spec.now) table.now) }
    ensures { IfOk result (λ f. f ≡ at_row table.now row (gap_formula (data_of spec.now) table.now)) }
{
    match table.rows.get(row) {
        None => Ok(Formula::False),
        Some(r) => of_gap(alloc, spec, table, r),
    }
}

#[tactic(auto, using(scr_spec::proofs::Lookup::lookup_laws))]
fn outside(
    alloc: Global,
    spec: &Spec,
    table: &Table,
    row: usize,
    column: usize,
) -> Result<Formula, NoMemory>
    requires { IsTrue (is_table_over (data_of spec.now) table.now) }
    ensures { IfOk result (λ f. f ≡ outside (data_of spec.now) table.now row column) }
{
    let domain = spec.domain(table.variable);
    match table.rows.get(row) {
        None => Ok(Formula::False),
        Some(r) => of_outside(alloc, spec, table, false, r, column, domain),
    }
}

fn over_pairs(
    alloc: Global,
    spec: &Spec,
    order: &[usize],
    need: &[usize],
    wrong: Items<Formula>,
    x: usize,
) -> Result<Formula, NoMemory>
    requires { IsTrue (is_monitored (data_of spec.now) x) }
    ensures { IfOk result (λ f. f ≡ frozen (data_of spec.now) x (And (wrong ++ pair_formulas (data_of spec.now) order.now need.now x))) }
{
    let mut members = wrong;
    members.append(pairs_for(alloc, spec, order, need, x)?)?;
    let all = Formula::And(members);
    only_changed(alloc, spec, &all, x)
}

fn violated(
    alloc: Global,
    spec: &Spec,
    order: &[usize],
    need: &[usize],
    wrong: Items<Formula>,
    changed: Option<usize>,
) -> Result<Formula, NoMemory>
    requires { IsTrue (is_change_over (data_of spec.now) changed) }
    ensures { IfOk result (λ f. f ≡ violated (data_of spec.now) order.now need.now wrong changed) }
{
    match changed {
        None => Ok(Formula::conjunction(wrong)),
        Some(x) => over_pairs(alloc, spec, order, need, wrong, x),
    }
}

/// What is wrong where the goal is not met.
fn violation_of(
    alloc: Global,
    spec: &Spec,
    table: &Table,
    goal: &Goal,
) -> Result<Items<Formula>, NoMemory>
    requires { IsTrue (is_table_over (data_of spec.now) table.now) }
    ensures { IfOk result (λ fs. fs ≡ violation (data_of spec.now) table.now goal.now.kind (goal.now.row - 1) (goal.now.first - 1) (goal.now.second - 1)) }
{
    let row = goal.row.saturating_sub(1) as usize;
    let first = goal.first.saturating_sub(1) as usize;
    let second = goal.second.saturating_sub(1) as usize;
    let mut wrong = Items::new(alloc);
    match goal.kind {
        GoalKind::Disjoint => {
            wrong.push(held(alloc, spec, table, row, first)?)?;
            wrong.push(held(alloc, spec, table, row, second)?)?;
        }
        GoalKind::Cover => wrong.push(gap(alloc, spec, table, row)?)?,
        GoalKind::Range => {
            wrong.push(held(alloc, spec, table, row, first)?)?;
            wrong.push(outside(alloc, spec, table, row, first)?)?;
        }
    }
    Ok(wrong)
}

fn table_goal_formula(
    alloc: Global,
    spec: &Spec,
    order: &[usize],
    need: &[usize],
    table: &Table,
    goal: &Goal,
) -> Result<Formula, NoMemory>
    requires over { IsTrue (is_table_over (data_of spec.now) table.now) }
    requires monitored { IsTrue (is_goal_over (data_of spec.now) goal.now) }
    ensures { IfOk result (λ f. f ≡ table_goal_formula (data_of spec.now) order.now need.now table.now goal.now) }
{
    let wrong = violation_of(alloc, spec, table, goal)?;
    violated(alloc, spec, order, need, wrong, goal.changed)
}

#[tactic(auto, using(scr_spec::proofs::Found::found_laws))]
fn goal_formula_at(
    alloc: Global,
    spec: &Spec,
    order: &[usize],
    need: &[usize],
    v: usize,
    goal: &Goal,
) -> Result<Formula, NoMemory>
    requires { IsTrue (is_goal_over (data_of spec.now) goal.now) }
    ensures { IfOk result (λ f. f ≡ goal_formula_of (data_of spec.now) order.now need.now v goal.now) }
{
    match spec.table_of(v) {
        None => Ok(Formula::False),
        Some(table) => table_goal_formula(alloc, spec, order, need, table, goal),
    }
}

/// The formula of a goal of the table of a variable, for the order and for the list of what the
/// variable needs, which is the same for all its goals. It is true exactly where the goal is not met.
/// False for a variable without a table, and for a row or column that is not there.
pub fn goal_formula_for(
    alloc: Global,
    spec: &Spec,
    order: &[usize],
    need: &[usize],
    v: usize,
    goal: &Goal,
) -> Result<Formula, NoMemory>
    requires { IsTrue (is_goal_over (data_of spec.now) goal.now) }
    ensures formula { IfOk result (λ f. f ≡ goal_formula_of (data_of spec.now) order.now need.now v goal.now) }
    ensures narrow { IfOk result (λ f. IsOver (data_of spec.now) f) }
{
    goal_formula_at(alloc, spec, order, need, v, goal)
}

/// The same where the variable's goals have no such list in common.
#[tactic(auto, using(crate::proofs::Calls::is_goal_formula))]
pub fn goal_formula(
    alloc: Global,
    spec: &Spec,
    order: &Order,
    v: usize,
    goal: &Goal,
) -> Result<Formula, NoMemory>
    requires { IsTrue (is_goal_over (data_of spec.now) goal.now) }
    ensures formula { IfOk result (IsGoalFormula (data_of spec.now) order.now.list v goal.now) }
    ensures narrow { IfOk result (λ f. IsOver (data_of spec.now) f) }
{
    let need = need(alloc, spec, v)?;
    goal_formula_for(alloc, spec, order.list.as_slice(), need.as_slice(), v, goal)
}

/// Each formula with the new level of each monitored variable but `x` replaced by the old one.
#[tactic(auto, using(crate::proofs::Shared::one_more_frozen))]
fn all_only_changed(
    alloc: Global,
    spec: &Spec,
    fs: &[Formula],
    x: usize,
) -> Result<Items<Formula>, NoMemory>
    ensures { IfOk result (λ gs. gs ≡ map (frozen (data_of spec.now) x) fs.now) }
{
    let mut members = Items::new(alloc);
    for f in fs {
        members.push(only_changed(alloc, spec, f, x)?)?;
    }
    Ok(members)
}

fn wrong_at(
    alloc: Global,
    spec: &Spec,
    table: &Table,
    goal: &Goal,
    x: usize,
) -> Result<Items<Formula>, NoMemory>
    requires { IsTrue (is_table_over (data_of spec.now) table.now) }
    ensures { IfOk result (λ fs. fs ≡ wrong_where (data_of spec.now) table.now goal.now x) }
{
    let wrong = violation_of(alloc, spec, table, goal)?;
    all_only_changed(alloc, spec, wrong.as_slice(), x)
}

/// The first part of the formula of a goal for which `x` changed: what is wrong where the goal is not
/// met. The formula is the conjunction of these and those of `related_where`.
pub fn wrong_where(
    alloc: Global,
    spec: &Spec,
    table: &Table,
    goal: &Goal,
    x: usize,
) -> Result<Items<Formula>, NoMemory>
    requires { IsTrue (is_table_over (data_of spec.now) table.now) }
    ensures formulas { IfOk result (λ fs. fs ≡ wrong_where (data_of spec.now) table.now goal.now x) }
    ensures narrow { IfOk result (AreOver (data_of spec.now)) }
{
    wrong_at(alloc, spec, table, goal, x)
}

fn related_at(
    alloc: Global,
    spec: &Spec,
    order: &[usize],
    need: &[usize],
    x: usize,
) -> Result<Items<Formula>, NoMemory>
    requires { IsTrue (is_monitored (data_of spec.now) x) }
    ensures { IfOk result (λ fs. fs ≡ related_where (data_of spec.now) order.now need.now x) }
{
    let pairs = pairs_for(alloc, spec, order, need, x)?;
    all_only_changed(alloc, spec, pairs.as_slice(), x)
}

/// The second part: that the pair of states is related. The goals of a table for which `x` changed
/// have it in common.
pub fn related_where(
    alloc: Global,
    spec: &Spec,
    order: &[usize],
    need: &[usize],
    x: usize,
) -> Result<Items<Formula>, NoMemory>
    requires { IsTrue (is_monitored (data_of spec.now) x) }
    ensures formulas { IfOk result (λ fs. fs ≡ related_where (data_of spec.now) order.now need.now x) }
    ensures narrow { IfOk result (AreOver (data_of spec.now)) }
{
    related_at(alloc, spec, order, need, x)
}

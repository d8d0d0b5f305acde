//! The goals of a table, in order.
ghost use Rattle.std.specs.Prelude.{Some, ◌≡◌, ◌++◌, ◌<◌, ◌≤◌, ◌+◌, IsTrue, OnOk, IfOk, map};
ghost use Rattle.std.specs.List.{list_all, flat_map};
ghost use Rattle.scr_spec.specs.Shown.{data_of};
ghost use Rattle.scr_spec.specs.Cells.{is_small, is_table_over};
ghost use Rattle.scr_spec.specs.Values as value;
ghost use Rattle.prove_goals.specs.Goals.{monitored_variables, changes_in, disjoint_goal, columns_behind, disjoint_goals, cover_goals, range_goal, has_range, range_goals, columns_in, row_goals, table_goals, goals_of, is_goal_over};

use crate::{Goal, GoalKind};
use base::NoMemory;
use scr_spec::{Expr, Heading, Operand, Spec, Table, variable_range};
use sqlite_items::Items;
use std::alloc::Global;

/// Counted from 1.
fn number(place: usize) -> u32
    requires { place < 64 }
    ensures { result ≡ place + 1 }
{
    place as u32 + 1
}

#[tactic(auto, using(crate::proofs::Growth::goal_steps))]
fn monitored_changes(alloc: Global, spec: &Spec) -> Result<Items<Option<usize>>, NoMemory>
    ensures { IfOk result (λ xs. xs ≡ map (λ x. Some x) (monitored_variables (data_of spec.now))) }
{
    let mut changes = Items::new(alloc);
    let count = spec.variables.len();
    for v in 0..count {
        if spec.is_monitored(v) {
            changes.push(Some(v))?;
        }
    }
    Ok(changes)
}

fn changes_of(
    alloc: Global,
    spec: &Spec,
    heading: Heading,
) -> Result<Items<Option<usize>>, NoMemory>
    ensures { IfOk result (λ xs. xs ≡ changes_in (data_of spec.now) heading) }
{
    match heading {
        Heading::Condition => {
            let mut changes = Items::new(alloc);
            changes.push(None)?;
            Ok(changes)
        }
        Heading::Event | Heading::Modes => monitored_changes(alloc, spec),
    }
}

#[tactic(auto, using(crate::proofs::Growth::goal_steps))]
fn push_disjoint(
    out: &mut Items<Goal>,
    changes: &[Option<usize>],
    row: usize,
    i: usize,
    j: usize,
) -> Result<(), NoMemory>
    requires row_small { row < 64 }
    requires i_small { i < 64 }
    requires j_small { j < 64 }
    ensures { OnOk result (out.new ≡ out.old ++ map (disjoint_goal row i j) changes.now) }
{
    for changed in changes {
        out.push(Goal {
            kind: GoalKind::Disjoint,
            row: number(row),
            first: number(i),
            second: number(j),
            changed: *changed,
        })?;
    }
    Ok(())
}

#[tactic(auto, using(crate::proofs::Growth::goal_steps))]
fn push_disjoint_behind(
    out: &mut Items<Goal>,
    changes: &[Option<usize>],
    row: usize,
    i: usize,
    count: usize,
) -> Result<(), NoMemory>
    requires row_small { row < 64 }
    requires i_small { i < 64 }
    requires count_small { count ≤ 64 }
    ensures { OnOk result (out.new ≡ out.old ++ flat_map (λ j. map (disjoint_goal row i j) changes.now) (columns_behind i count)) }
{
    for j in 0..count {
        if i < j {
            push_disjoint(out, changes, row, i, j)?;
        }
    }
    Ok(())
}

#[tactic(auto, using(crate::proofs::Growth::goal_steps))]
fn push_all_disjoint(
    out: &mut Items<Goal>,
    changes: &[Option<usize>],
    row: usize,
    count: usize,
) -> Result<(), NoMemory>
    requires row_small { row < 64 }
    requires count_small { count ≤ 64 }
    ensures { OnOk result (out.new ≡ out.old ++ disjoint_goals changes.now row count) }
{
    for i in 0..count {
        push_disjoint_behind(out, changes, row, i, count)?;
    }
    Ok(())
}

fn push_cover(out: &mut Items<Goal>, heading: Heading, row: usize) -> Result<(), NoMemory>
    requires row_small { row < 64 }
    ensures { OnOk result (out.new ≡ out.old ++ cover_goals heading row) }
{
    if heading == Heading::Condition {
        out.push(Goal {
            kind: GoalKind::Cover,
            row: number(row),
            first: 0,
            second: 0,
            changed: None,
        })?;
    }
    Ok(())
}

#[tactic(auto, using(crate::proofs::Growth::goal_steps))]
fn push_range(
    out: &mut Items<Goal>,
    changes: &[Option<usize>],
    row: usize,
    i: usize,
) -> Result<(), NoMemory>
    requires row_small { row < 64 }
    requires i_small { i < 64 }
    ensures { OnOk result (out.new ≡ out.old ++ map (range_goal row i) changes.now) }
{
    for changed in changes {
        out.push(Goal {
            kind: GoalKind::Range,
            row: number(row),
            first: number(i),
            second: 0,
            changed: *changed,
        })?;
    }
    Ok(())
}

fn is_variable(operand: Operand) -> bool
    ensures { result ≡ value.is_variable operand }
{
    match operand {
        Operand::Variable(_) | Operand::Primed(_) => true,
        Operand::One | Operand::Truth(_) | Operand::Constant(_) | Operand::Label(_, _) => false,
    }
}

fn names_variable(e: &Expr) -> bool
    ensures { result ≡ value.names_variable e.now }
{
    e.items
        .as_slice()
        .iter()
        .any(|item| is_variable(item.operand))
}

/// Whether the table gives integers, and the value of the column names a variable.
#[tactic(auto, using(scr_spec::proofs::Lookup::lookup_laws))]
fn has_range(spec: &Spec, table: &Table, column: usize) -> bool
    ensures { result ≡ has_range (data_of spec.now) table.now column }
{
    let range = variable_range(
        spec.types.as_slice(),
        spec.variables.as_slice(),
        table.variable,
    );
    match table.values.get(column) {
        Some(e) => range.is_some() && names_variable(e),
        None => false,
    }
}

#[tactic(auto, using(crate::proofs::Growth::goal_steps))]
fn push_all_ranges(
    out: &mut Items<Goal>,
    changes: &[Option<usize>],
    spec: &Spec,
    table: &Table,
    row: usize,
    count: usize,
) -> Result<(), NoMemory>
    requires row_small { row < 64 }
    requires count_small { count ≤ 64 }
    ensures { OnOk result (out.new ≡ out.old ++ range_goals (data_of spec.now) changes.now table.now row count) }
{
    for i in 0..count {
        if has_range(spec, table, i) {
            push_range(out, changes, row, i)?;
        }
    }
    Ok(())
}

#[tactic(auto, using(scr_spec::proofs::Lookup::lookup_laws))]
fn columns_at(table: &Table, row: usize) -> usize
    ensures { result ≡ columns_in table.now row }
{
    match table.rows.get(row) {
        None => 0,
        Some(r) => r.cells.len(),
    }
}

#[tactic(auto, using(crate::proofs::Growth::goal_steps, crate::proofs::Sizes::size_laws))]
fn push_row(
    out: &mut Items<Goal>,
    changes: &[Option<usize>],
    spec: &Spec,
    table: &Table,
    row: usize,
) -> Result<(), NoMemory>
    requires small { IsTrue (is_small table.now) }
    requires row_small { row < 64 }
    requires changes { changes.now ≡ changes_in (data_of spec.now) table.now.heading }
    ensures { OnOk result (out.new ≡ out.old ++ row_goals (data_of spec.now) table.now row) }
{
    let count = columns_at(table, row);
    push_all_disjoint(out, changes, row, count)?;
    push_cover(out, table.heading, row)?;
    push_all_ranges(out, changes, spec, table, row, count)
}

#[tactic(auto, using(crate::proofs::Growth::goal_steps, crate::proofs::Sizes::size_laws))]
fn table_goals(alloc: Global, spec: &Spec, table: &Table) -> Result<Items<Goal>, NoMemory>
    requires { IsTrue (is_small table.now) }
    ensures { IfOk result (λ gs. gs ≡ table_goals (data_of spec.now) table.now) }
{
    let changes = changes_of(alloc, spec, table.heading)?;
    let mut out = Items::new(alloc);
    let count = table.rows.len();
    for row in 0..count {
        push_row(&mut out, changes.as_slice(), spec, table, row)?;
    }
    Ok(out)
}

#[tactic(auto, using(scr_spec::proofs::Found::found_laws, crate::proofs::Sizes::small_table))]
fn goals_at(alloc: Global, spec: &Spec, v: usize) -> Result<Items<Goal>, NoMemory>
    ensures { IfOk result (λ gs. gs ≡ goals_of (data_of spec.now) v) }
{
    match spec.table_of(v) {
        Some(table) => table_goals(alloc, spec, table),
        None => Ok(Items::new(alloc)),
    }
}

/// The goals of the table of a variable, in order. A monitored variable has none.
pub fn goals(alloc: Global, spec: &Spec, v: usize) -> Result<Items<Goal>, NoMemory>
    ensures goals { IfOk result (λ gs. gs ≡ goals_of (data_of spec.now) v) }
    ensures over { IfOk result (λ gs. IsTrue (list_all (is_goal_over (data_of spec.now)) gs)) }
{
    goals_at(alloc, spec, v)
}

//! The formulas of what a table says of its variable.
ghost use Rattle.std.specs.Prelude.{◌≡◌, ◌++◌, true, IsTrue, OnOk, IfOk};
ghost use Rattle.scr_spec.specs.Shown.{data_of};
ghost use Rattle.scr_spec.specs.Cells.{is_row_over, is_table_over};
ghost use Rattle.scr_spec.specs.Relations.{has_condition_table};
ghost use Rattle.prove_formula.specs.Measure.{IsOver};
ghost use Rattle.prove_formula.specs.Tables.{hold_formula, taken_formula, row_formulas, some_holds_formula, some_taken_formula, kept_formula, table_formula, own_formula, relation_formula, HasTruthOfOwn, HasTruthOfRelation};

use crate::Formula;
use crate::cell::of_cell;
use crate::event::keeps_code;
use crate::value::takes_at;
use base::NoMemory;
use scr_spec::{Heading, Row, Spec, Table};
use sqlite_items::Items;
use std::alloc::Global;

fn taken_at(
    alloc: Global,
    spec: &Spec,
    table: &Table,
    new: bool,
    row: &Row,
    column: usize,
) -> Result<Formula, NoMemory>
    requires over { IsTrue (is_table_over (data_of spec.now) table.now) }
    requires row_over { IsTrue (is_row_over (data_of spec.now) row.now) }
    ensures { IfOk result (λ f. f ≡ taken_formula (data_of spec.now) table.now new row.now column) }
{
    let hold = of_cell(alloc, spec, table, new, row, column)?;
    let takes = takes_at(alloc, spec, table, new, row, column)?;
    Formula::both(alloc, hold, takes)
}

#[tactic(auto, using(crate::proofs::Growth::row_laws))]
fn push_taken(
    out: &mut Items<Formula>,
    alloc: Global,
    spec: &Spec,
    table: &Table,
    new: bool,
    row: &Row,
) -> Result<(), NoMemory>
    requires over { IsTrue (is_table_over (data_of spec.now) table.now) }
    requires row_over { IsTrue (is_row_over (data_of spec.now) row.now) }
    ensures { OnOk result (out.new ≡ out.old ++ row_formulas (taken_formula (data_of spec.now) table.now new) row.now) }
{
    let count = row.cells.len();
    for column in 0..count {
        let member = taken_at(alloc, spec, table, new, row, column)?;
        out.push(member)?;
    }
    Ok(())
}

#[tactic(auto, using(crate::proofs::Growth::row_laws))]
fn push_holds(
    out: &mut Items<Formula>,
    alloc: Global,
    spec: &Spec,
    table: &Table,
    row: &Row,
) -> Result<(), NoMemory>
    requires over { IsTrue (is_table_over (data_of spec.now) table.now) }
    requires row_over { IsTrue (is_row_over (data_of spec.now) row.now) }
    ensures { OnOk result (out.new ≡ out.old ++ row_formulas (hold_formula (data_of spec.now) table.now true) row.now) }
{
    let count = row.cells.len();
    for column in 0..count {
        let member = of_cell(alloc, spec, table, true, row, column)?;
        out.push(member)?;
    }
    Ok(())
}

#[tactic(auto, using(crate::proofs::Growth::row_laws))]
fn some_taken_at(alloc: Global, spec: &Spec, table: &Table, new: bool) -> Result<Formula, NoMemory>
    requires { IsTrue (is_table_over (data_of spec.now) table.now) }
    ensures { IfOk result (λ f. f ≡ some_taken_formula (data_of spec.now) table.now new) }
{
    let mut members = Items::new(alloc);
    for row in table.rows.as_slice() {
        push_taken(&mut members, alloc, spec, table, new, row)?;
    }
    Ok(Formula::disjunction(members))
}

#[tactic(auto, using(crate::proofs::Growth::row_laws))]
fn some_holds_at(alloc: Global, spec: &Spec, table: &Table) -> Result<Formula, NoMemory>
    requires { IsTrue (is_table_over (data_of spec.now) table.now) }
    ensures { IfOk result (λ f. f ≡ some_holds_formula (data_of spec.now) table.now) }
{
    let mut members = Items::new(alloc);
    for row in table.rows.as_slice() {
        push_holds(&mut members, alloc, spec, table, row)?;
    }
    Ok(Formula::disjunction(members))
}

fn kept_at(alloc: Global, spec: &Spec, table: &Table) -> Result<Formula, NoMemory>
    requires { IsTrue (is_table_over (data_of spec.now) table.now) }
    ensures { IfOk result (λ f. f ≡ kept_formula (data_of spec.now) table.now) }
{
    let some = some_holds_at(alloc, spec, table)?;
    let none = Formula::negation(alloc, some)?;
    let same = keeps_code(alloc, table.variable)?;
    Formula::both(alloc, none, same)
}

fn table_at(alloc: Global, spec: &Spec, table: &Table) -> Result<Formula, NoMemory>
    requires { IsTrue (is_table_over (data_of spec.now) table.now) }
    ensures { IfOk result (λ f. f ≡ table_formula (data_of spec.now) table.now table.now.heading) }
{
    let taken = some_taken_at(alloc, spec, table, true)?;
    match table.heading {
        Heading::Condition => Ok(taken),
        Heading::Event | Heading::Modes => {
            let kept = kept_at(alloc, spec, table)?;
            Formula::either(alloc, taken, kept)
        }
    }
}

#[tactic(auto, using(scr_spec::proofs::Found::found_laws))]
fn own_at(alloc: Global, spec: &Spec, v: usize, new: bool) -> Result<Formula, NoMemory>
    ensures { IfOk result (λ f. f ≡ own_formula (data_of spec.now) v new) }
{
    match spec.table_of(v) {
        Some(table) => some_taken_at(alloc, spec, table, new),
        None => Ok(Formula::False),
    }
}

#[tactic(auto, using(scr_spec::proofs::Found::found_laws))]
fn relation_at(alloc: Global, spec: &Spec, v: usize) -> Result<Formula, NoMemory>
    ensures { IfOk result (λ f. f ≡ relation_formula (data_of spec.now) v) }
{
    match spec.table_of(v) {
        Some(table) => table_at(alloc, spec, table),
        None => Ok(Formula::False),
    }
}

/// The variable of a condition table has the value of some cell that holds, in the new state where
/// `new` is true and in the old one else.
#[tactic(auto, using(crate::proofs::TableTruth::own_truth_ok))]
pub fn of_own(alloc: Global, spec: &Spec, v: usize, new: bool) -> Result<Formula, NoMemory>
    requires { IsTrue (has_condition_table (data_of spec.now) v) }
    ensures formula { IfOk result (λ f. f ≡ own_formula (data_of spec.now) v new) }
    ensures truth { IfOk result (λ f. HasTruthOfOwn (data_of spec.now) v new f) }
    ensures narrow { IfOk result (λ f. IsOver (data_of spec.now) f) }
{
    own_at(alloc, spec, v, new)
}

/// The relation of the old and the new value of a dependent variable that its table gives. False
/// for a variable without a table, as a monitored one is.
#[tactic(auto, using(crate::proofs::TableTruth::relation_truth_ok))]
pub fn of_relation(alloc: Global, spec: &Spec, v: usize) -> Result<Formula, NoMemory>
    ensures formula { IfOk result (λ f. f ≡ relation_formula (data_of spec.now) v) }
    ensures truth { IfOk result (λ f. HasTruthOfRelation (data_of spec.now) v f) }
    ensures narrow { IfOk result (λ f. IsOver (data_of spec.now) f) }
{
    relation_at(alloc, spec, v)
}

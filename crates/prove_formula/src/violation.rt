//! The formulas of what a table must not meet.
ghost use Rattle.std.specs.Prelude.{◌≡◌, map, true, false, IsTrue, IfOk};
ghost use Rattle.std.specs.List.{list_all};
ghost use Rattle.scr_spec.specs.declared.table.Heading.TheVariants.{Condition};
ghost use Rattle.scr_spec.specs.Shown.{data_of};
ghost use Rattle.scr_spec.specs.Types.{is_narrow};
ghost use Rattle.scr_spec.specs.Cells.{is_cell_over, is_row_over, is_table_over};
ghost use Rattle.dd_formula.specs.Joined.{any_of};
ghost use Rattle.prove_formula.specs.Tables.{cell_formula};
ghost use Rattle.prove_formula.specs.Violations.{gap_formula, at_least_formula, at_most_formula, outside_formula, HasTruthOfGap, HasTruthOfOutside};
ghost use Rattle.prove_formula.specs.Measure.{IsOver};

use crate::cell::{cell_at, under_modes};
use crate::side::less;
use crate::value::{push_negated_value, push_value, value_constant_at};
use crate::{Formula, Linear, Op};
use base::NoMemory;
use scr_spec::{Cell, Domain, Heading, Row, Spec, Table};
use sqlite_items::Items;
use std::alloc::Global;

fn some_condition_at(alloc: Global, spec: &Spec, cells: &[Cell]) -> Result<Formula, NoMemory>
    requires { IsTrue (list_all (is_cell_over (data_of spec.now)) cells.now) }
    ensures { IfOk result (λ f. f ≡ any_of (map (cell_formula (data_of spec.now) Condition false) cells.now)) }
{
    let mut members = Items::new(alloc);
    for cell in cells {
        let member = cell_at(alloc, spec, Heading::Condition, false, cell)?;
        members.push(member)?;
    }
    Ok(Formula::disjunction(members))
}

fn gap_at(alloc: Global, spec: &Spec, table: &Table, row: &Row) -> Result<Formula, NoMemory>
    requires over { IsTrue (is_table_over (data_of spec.now) table.now) }
    requires row_over { IsTrue (is_row_over (data_of spec.now) row.now) }
    ensures { IfOk result (λ f. f ≡ gap_formula (data_of spec.now) table.now row.now) }
{
    let some = some_condition_at(alloc, spec, row.cells.as_slice())?;
    let none = Formula::negation(alloc, some)?;
    under_modes(alloc, false, table.class, row.modes.as_slice(), none)
}

/// The formula that says of a row of a condition table that the class has one of its modes and none
/// of its conditions is true, in the old state.
#[tactic(auto, using(crate::proofs::ViolationTruth::gap_truth_ok))]
pub fn of_gap(alloc: Global, spec: &Spec, table: &Table, row: &Row) -> Result<Formula, NoMemory>
    requires over { IsTrue (is_table_over (data_of spec.now) table.now) }
    requires row_over { IsTrue (is_row_over (data_of spec.now) row.now) }
    ensures formula { IfOk result (λ f. f ≡ gap_formula (data_of spec.now) table.now row.now) }
    ensures truth { IfOk result (λ f. HasTruthOfGap (data_of spec.now) table.now row.now f) }
    ensures narrow { IfOk result (λ f. IsOver (data_of spec.now) f) }
{
    gap_at(alloc, spec, table, row)
}

fn at_least(
    alloc: Global,
    spec: &Spec,
    table: &Table,
    new: bool,
    row: &Row,
    column: usize,
    lo: i64,
) -> Result<Formula, NoMemory>
    requires over { IsTrue (is_table_over (data_of spec.now) table.now) }
    requires row_over { IsTrue (is_row_over (data_of spec.now) row.now) }
    requires narrow { IsTrue (is_narrow lo) }
    ensures { IfOk result (λ f. f ≡ at_least_formula (data_of spec.now) table.now new row.now column lo) }
{
    let mut terms = Items::new(alloc);
    push_negated_value(&mut terms, spec, table, column, new)?;
    let constant = less(lo, value_constant_at(spec, table, row, column));
    Ok(Formula::Atom(Linear {
        terms,
        constant,
        op: Op::Le,
    }))
}

fn at_most(
    alloc: Global,
    spec: &Spec,
    table: &Table,
    new: bool,
    row: &Row,
    column: usize,
    hi: i64,
) -> Result<Formula, NoMemory>
    requires over { IsTrue (is_table_over (data_of spec.now) table.now) }
    requires row_over { IsTrue (is_row_over (data_of spec.now) row.now) }
    requires narrow { IsTrue (is_narrow hi) }
    ensures { IfOk result (λ f. f ≡ at_most_formula (data_of spec.now) table.now new row.now column hi) }
{
    let mut terms = Items::new(alloc);
    push_value(&mut terms, spec, table, column, new)?;
    let constant = less(value_constant_at(spec, table, row, column), hi);
    Ok(Formula::Atom(Linear {
        terms,
        constant,
        op: Op::Le,
    }))
}

fn outside_at(
    alloc: Global,
    spec: &Spec,
    table: &Table,
    new: bool,
    row: &Row,
    column: usize,
    domain: Domain,
) -> Result<Formula, NoMemory>
    requires over { IsTrue (is_table_over (data_of spec.now) table.now) }
    requires row_over { IsTrue (is_row_over (data_of spec.now) row.now) }
    requires lo { IsTrue (is_narrow domain.lo) }
    requires hi { IsTrue (is_narrow domain.hi) }
    ensures { IfOk result (λ f. f ≡ outside_formula (data_of spec.now) table.now new row.now column domain) }
{
    let above = at_least(alloc, spec, table, new, row, column, domain.lo)?;
    let below = at_most(alloc, spec, table, new, row, column, domain.hi)?;
    let within = Formula::both(alloc, above, below)?;
    Formula::negation(alloc, within)
}

/// The formula that says that the value of a cell of the row is outside the domain. Columns count
/// from 0. A condition table is read in the new state where `new` is true and in the old one else;
/// any other table in both.
#[tactic(auto, using(crate::proofs::ViolationTruth::outside_truth_ok))]
pub fn of_outside(
    alloc: Global,
    spec: &Spec,
    table: &Table,
    new: bool,
    row: &Row,
    column: usize,
    domain: Domain,
) -> Result<Formula, NoMemory>
    requires over { IsTrue (is_table_over (data_of spec.now) table.now) }
    requires row_over { IsTrue (is_row_over (data_of spec.now) row.now) }
    requires lo { IsTrue (is_narrow domain.lo) }
    requires hi { IsTrue (is_narrow domain.hi) }
    ensures formula { IfOk result (λ f. f ≡ outside_formula (data_of spec.now) table.now new row.now column domain) }
    ensures truth { IfOk result (λ f. HasTruthOfOutside (data_of spec.now) table.now new row.now column domain f) }
    ensures narrow { IfOk result (λ f. IsOver (data_of spec.now) f) }
{
    outside_at(alloc, spec, table, new, row, column, domain)
}

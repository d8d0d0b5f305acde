//! The formulas of cells that hold.
ghost use Rattle.std.specs.Prelude.{◌≡◌, ◌<◌, map, IsTrue, IfOk, MatchOption, slice_get};
ghost use Rattle.std.specs.Option.{option_map_or};
ghost use Rattle.std.specs.List.{list_all};
ghost use Rattle.scr_spec.specs.Shown.{data_of};
ghost use Rattle.scr_spec.specs.Types.{is_narrow};
ghost use Rattle.scr_spec.specs.Cells.{is_cell_over, is_row_over, is_table_over};
ghost use Rattle.dd_formula.specs.declared.formula.Formula.TheVariants.{False};
ghost use Rattle.prove_formula.specs.Conditions.{has_code};
ghost use Rattle.dd_formula.specs.Joined.{any_of};
ghost use Rattle.prove_formula.specs.Tables.{class_in_new as class_new, under_modes as modes_formula, cell_formula, hold_formula, HasTruthOfCell};
ghost use Rattle.prove_formula.specs.Measure.{IsOver};

use crate::Formula;
use crate::condition::{of_cond, variable_is};
use crate::event::of_event;
use base::NoMemory;
use scr_spec::{Cell, Heading, Row, Spec, Table};
use sqlite_items::Items;
use std::alloc::Global;

fn has_some_code(alloc: Global, v: usize, new: bool, codes: &[i64]) -> Result<Formula, NoMemory>
    requires number { v < 128 }
    requires narrow { IsTrue (list_all is_narrow codes.now) }
    ensures { IfOk result (λ f. f ≡ any_of (map (has_code new v) codes.now)) }
{
    let mut members = Items::new(alloc);
    for code in codes {
        let member = variable_is(alloc, v, new, *code)?;
        members.push(member)?;
    }
    Ok(Formula::disjunction(members))
}

pub fn under_modes(
    alloc: Global,
    new: bool,
    class: Option<usize>,
    modes: &[i64],
    f: Formula,
) -> Result<Formula, NoMemory>
    requires number { MatchOption class (Unit {0}) (λ v. v < 128) }
    requires narrow { IsTrue (list_all is_narrow modes.now) }
    ensures { IfOk result (λ g. g ≡ modes_formula new class modes.now f) }
{
    match class {
        None => Ok(f),
        Some(v) => {
            let test = has_some_code(alloc, v, new, modes)?;
            Formula::both(alloc, test, f)
        }
    }
}

fn class_in_new(heading: Heading, new: bool) -> bool
    ensures { result ≡ class_new heading new }
{
    match heading {
        Heading::Condition => new,
        Heading::Event | Heading::Modes => false,
    }
}

pub fn cell_at(
    alloc: Global,
    spec: &Spec,
    heading: Heading,
    new: bool,
    cell: &Cell,
) -> Result<Formula, NoMemory>
    requires { IsTrue (is_cell_over (data_of spec.now) cell.now) }
    ensures { IfOk result (λ f. f ≡ cell_formula (data_of spec.now) heading new cell.now) }
{
    match (heading, cell) {
        (Heading::Condition, Cell::Cond(c)) => of_cond(alloc, spec, c, new),
        (Heading::Event | Heading::Modes, Cell::Event(e)) => of_event(alloc, spec, e),
        _ => Ok(Formula::False),
    }
}

#[tactic(auto, using(scr_spec::proofs::Lookup::lookup_laws))]
fn column_at(
    alloc: Global,
    spec: &Spec,
    heading: Heading,
    new: bool,
    row: &Row,
    column: usize,
) -> Result<Formula, NoMemory>
    requires { IsTrue (is_row_over (data_of spec.now) row.now) }
    ensures { IfOk result (λ f. f ≡ option_map_or (cell_formula (data_of spec.now) heading new) (slice_get row.now.cells column) False) }
{
    match row.cells.get(column) {
        None => Ok(Formula::False),
        Some(cell) => cell_at(alloc, spec, heading, new, cell),
    }
}

fn hold_at(
    alloc: Global,
    spec: &Spec,
    table: &Table,
    new: bool,
    row: &Row,
    column: usize,
) -> Result<Formula, NoMemory>
    requires over { IsTrue (is_table_over (data_of spec.now) table.now) }
    requires row_over { IsTrue (is_row_over (data_of spec.now) row.now) }
    ensures { IfOk result (λ f. f ≡ hold_formula (data_of spec.now) table.now new row.now column) }
{
    let cell = column_at(alloc, spec, table.heading, new, row, column)?;
    under_modes(
        alloc,
        class_in_new(table.heading, new),
        table.class,
        row.modes.as_slice(),
        cell,
    )
}

/// The formula that says that a cell of the row holds. Columns count from 0, and a cell that is not
/// there never holds. A condition table is read in the new state where `new` is true and in the old
/// one else; any other table in both.
#[tactic(auto, using(crate::proofs::TableTruth::cell_truth_ok))]
pub fn of_cell(
    alloc: Global,
    spec: &Spec,
    table: &Table,
    new: bool,
    row: &Row,
    column: usize,
) -> Result<Formula, NoMemory>
    requires over { IsTrue (is_table_over (data_of spec.now) table.now) }
    requires row_over { IsTrue (is_row_over (data_of spec.now) row.now) }
    ensures formula { IfOk result (λ f. f ≡ hold_formula (data_of spec.now) table.now new row.now column) }
    ensures truth { IfOk result (λ f. HasTruthOfCell (data_of spec.now) table.now new row.now column f) }
    ensures narrow { IfOk result (λ f. IsOver (data_of spec.now) f) }
{
    hold_at(alloc, spec, table, new, row, column)
}

//! Cells and rows of tables as statements of C.
ghost use Rattle.std.specs.Prelude.{◌≡◌, ◌++◌, [], ◌∷◌, true, pos, map, IsTrue, IfOk, OnOk, slice_get, slice_index_or};
ghost use Rattle.std.specs.Option.{option_map_or};
ghost use Rattle.std.specs.List.{list_all, range_with_len};
ghost use Rattle.scr_spec.specs.Shown.{data_of};
ghost use Rattle.scr_spec.specs.Over.{is_side_over};
ghost use Rattle.scr_spec.specs.Cells.{is_cell_over, is_row_over, is_table_over};
ghost use Rattle.c_subset.specs.declared.stmt.CStmt.TheVariants.{Assign as Assigned, If as Chosen};
ghost use Rattle.c_writer.specs.declared.objects.Moment.TheVariants.{New};
ghost use Rattle.c_writer.specs.Objects.{object_of};
ghost use Rattle.c_writer.specs.Tables.{cell_expr as expr_of_cell, column_cond as cond_of_column, column_expr as expr_of_column, value_expr as expr_of_value, cell_stmt as stmt_of_cell, row_stmts as stmts_of_row};

use crate::condition::{cond_expr, truth};
use crate::event::event_expr;
use crate::objects::{Moment, object_at};
use crate::side::side_expr;
use base::{Name, NoMemory};
use c_subset::{CExpr, CStmt};
use scr_spec::{Cell, Heading, Row, Spec, Table};
use sqlite_items::Items;
use std::alloc::Global;

fn cell_expr(alloc: Global, spec: &Spec, cell: &Cell) -> Result<CExpr, NoMemory>
    requires { IsTrue (is_cell_over (data_of spec.now) cell.now) }
    ensures { IfOk result (λ e. e ≡ expr_of_cell (data_of spec.now) cell.now) }
{
    match cell {
        Cell::Cond(c) => cond_expr(alloc, spec, c, Moment::New),
        Cell::Event(e) => event_expr(alloc, spec, e),
    }
}

#[tactic(auto, using(scr_spec::proofs::Lookup::lookup_laws))]
fn column_cond(alloc: Global, spec: &Spec, row: &Row, column: usize) -> Result<CExpr, NoMemory>
    requires { IsTrue (is_row_over (data_of spec.now) row.now) }
    ensures { IfOk result (λ e. e ≡ cond_of_column (data_of spec.now) row.now column) }
{
    match row.cells.get(column) {
        None => truth(alloc, false),
        Some(cell) => cell_expr(alloc, spec, cell),
    }
}

#[tactic(auto, using(scr_spec::proofs::Lookup::lookup_laws))]
fn column_expr(
    alloc: Global,
    spec: &Spec,
    table: &Table,
    column: usize,
    plain: Moment,
) -> Result<CExpr, NoMemory>
    requires { IsTrue (list_all (is_side_over (data_of spec.now)) table.now.values) }
    ensures { IfOk result (λ e. e ≡ expr_of_column (data_of spec.now) (object_of (data_of spec.now) plain) (object_of (data_of spec.now) New) table.now column) }
{
    match table.values.get(column) {
        None => Ok(CExpr::Constant(0)),
        Some(e) => side_expr(alloc, spec, e, plain, Moment::New),
    }
}

fn target_at(row: &Row, column: usize) -> i64
    ensures { result ≡ slice_index_or row.now.targets column (pos 0) }
{
    let targets = row.targets.as_slice();
    if column < targets.len() {
        targets[column]
    } else {
        0
    }
}

/// The value of a cell. All names of a value in a condition table are read in the new state, and
/// the unprimed ones of any other table in the old.
#[tactic(auto, using(crate::proofs::Tabled::table_laws))]
fn value_expr(
    alloc: Global,
    spec: &Spec,
    table: &Table,
    row: &Row,
    column: usize,
) -> Result<CExpr, NoMemory>
    requires { IsTrue (is_table_over (data_of spec.now) table.now) }
    ensures { IfOk result (λ e. e ≡ expr_of_value (data_of spec.now) table.now row.now column table.now.heading) }
{
    match table.heading {
        Heading::Condition => column_expr(alloc, spec, table, column, Moment::New),
        Heading::Event => column_expr(alloc, spec, table, column, Moment::Old),
        Heading::Modes => Ok(CExpr::Constant(target_at(row, column))),
    }
}

fn assignment(alloc: Global, object: Name, value: CExpr) -> Result<Items<CStmt>, NoMemory>
    ensures { IfOk result (λ ss. ss ≡ Assigned object value ∷ []) }
{
    let mut body = Items::new(alloc);
    body.push(CStmt::Assign(object, value))?;
    Ok(body)
}

/// Where the cell holds, the variable takes its value.
fn cell_stmt(
    alloc: Global,
    spec: &Spec,
    table: &Table,
    row: &Row,
    column: usize,
) -> Result<CStmt, NoMemory>
    requires over { IsTrue (is_table_over (data_of spec.now) table.now) }
    requires row_over { IsTrue (is_row_over (data_of spec.now) row.now) }
    ensures { IfOk result (λ s. s ≡ stmt_of_cell (data_of spec.now) table.now row.now column) }
{
    let condition = column_cond(alloc, spec, row, column)?;
    let object = object_at(alloc, spec, Moment::New, table.variable)?;
    let value = value_expr(alloc, spec, table, row, column)?;
    let body = assignment(alloc, object, value)?;
    Ok(CStmt::If(condition, body, Items::new(alloc)))
}

/// The statements of the cells of a row.
#[tactic(auto, using(crate::proofs::Growth::range_laws))]
pub(crate) fn row_stmts(
    alloc: Global,
    spec: &Spec,
    table: &Table,
    row: &Row,
) -> Result<Items<CStmt>, NoMemory>
    requires over { IsTrue (is_table_over (data_of spec.now) table.now) }
    requires row_over { IsTrue (is_row_over (data_of spec.now) row.now) }
    ensures { IfOk result (λ ss. ss ≡ stmts_of_row (data_of spec.now) table.now row.now) }
{
    let mut body = Items::new(alloc);
    let count = row.cells.len();
    for column in 0..count {
        let statement = cell_stmt(alloc, spec, table, row, column)?;
        body.push(statement)?;
    }
    Ok(body)
}

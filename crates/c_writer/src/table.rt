//! Tables as statements of C.
ghost use Rattle.std.specs.Prelude.{◌≡◌, ◌++◌, map, IsTrue, IfOk, OnOk};
ghost use Rattle.std.specs.List.{list_all, flat_map};
ghost use Rattle.scr_spec.specs.Shown.{data_of};
ghost use Rattle.scr_spec.specs.Cells.{is_table_over};
ghost use Rattle.c_writer.specs.Tables.{row_stmts as stmts_of_row, passed_clause, mode_clauses, row_clauses as clauses_of_row, class_object as object_of_class, switch_stmts as switched, table_stmts as stmts_of_table, variable_stmts as stmts_of_variable};

use crate::cell::row_stmts;
use crate::objects::{Moment, object_at};
use base::{Name, NoMemory};
use c_subset::{CClause, CExpr, CStmt};
use scr_spec::{Heading, Spec, Table};
use sqlite_items::Items;
use std::alloc::Global;

/// Clauses that pass on to the next one.
fn push_passed(out: &mut Items<CClause>, alloc: Global, modes: &[i64]) -> Result<(), NoMemory>
    ensures { OnOk result (out.new ≡ out.old ++ map passed_clause modes.now) }
{
    for mode in modes {
        out.push(CClause {
            label: *mode,
            body: Items::new(alloc),
            stops: false,
        })?;
    }
    Ok(())
}

/// One clause for each mode, of which the last has the statements.
#[tactic(auto, using(crate::proofs::Tabled::mode_laws))]
fn push_modes(
    out: &mut Items<CClause>,
    alloc: Global,
    modes: &[i64],
    body: Items<CStmt>,
) -> Result<(), NoMemory>
    ensures { OnOk result (out.new ≡ out.old ++ mode_clauses modes.now body) }
{
    if let Some((last, before)) = modes.split_last() {
        push_passed(out, alloc, before)?;
        out.push(CClause {
            label: *last,
            body,
            stops: true,
        })?;
    }
    Ok(())
}

/// The statements of all rows.
#[tactic(auto, using(crate::proofs::Tabled::row_laws))]
fn plain_rows(alloc: Global, spec: &Spec, table: &Table) -> Result<Items<CStmt>, NoMemory>
    requires { IsTrue (is_table_over (data_of spec.now) table.now) }
    ensures { IfOk result (λ ss. ss ≡ flat_map (stmts_of_row (data_of spec.now) table.now) table.now.rows) }
{
    let mut body = Items::new(alloc);
    for row in table.rows.as_slice() {
        let statements = row_stmts(alloc, spec, table, row)?;
        body.append(statements)?;
    }
    Ok(body)
}

/// The clauses of all rows.
#[tactic(auto, using(crate::proofs::Tabled::row_laws))]
fn rows_clauses(alloc: Global, spec: &Spec, table: &Table) -> Result<Items<CClause>, NoMemory>
    requires { IsTrue (is_table_over (data_of spec.now) table.now) }
    ensures { IfOk result (λ cs. cs ≡ flat_map (clauses_of_row (data_of spec.now) table.now) table.now.rows) }
{
    let mut clauses = Items::new(alloc);
    for row in table.rows.as_slice() {
        let body = row_stmts(alloc, spec, table, row)?;
        push_modes(&mut clauses, alloc, row.modes.as_slice(), body)?;
    }
    Ok(clauses)
}

/// Without clauses there is nothing to choose.
fn switch_stmts(
    alloc: Global,
    object: Name,
    clauses: Items<CClause>,
) -> Result<Items<CStmt>, NoMemory>
    ensures { IfOk result (λ ss. ss ≡ switched object clauses) }
{
    let mut body = Items::new(alloc);
    if !clauses.is_empty() {
        body.push(CStmt::Switch(CExpr::Name(object), clauses))?;
    }
    Ok(body)
}

/// A condition table looks at its class in the new state, and any other in the old.
fn class_object(
    alloc: Global,
    spec: &Spec,
    heading: Heading,
    class: usize,
) -> Result<Name, NoMemory>
    ensures { IfOk result (λ n. n ≡ object_of_class (data_of spec.now) heading class) }
{
    match heading {
        Heading::Condition => object_at(alloc, spec, Moment::New, class),
        Heading::Event | Heading::Modes => object_at(alloc, spec, Moment::Old, class),
    }
}

fn table_stmts(alloc: Global, spec: &Spec, table: &Table) -> Result<Items<CStmt>, NoMemory>
    requires { IsTrue (is_table_over (data_of spec.now) table.now) }
    ensures { IfOk result (λ ss. ss ≡ stmts_of_table (data_of spec.now) table.now) }
{
    match table.class {
        None => plain_rows(alloc, spec, table),
        Some(class) => {
            let object = class_object(alloc, spec, table.heading, class)?;
            let clauses = rows_clauses(alloc, spec, table)?;
            switch_stmts(alloc, object, clauses)
        }
    }
}

/// The statements by which a dependent variable takes its new code.
#[tactic(auto, using(scr_spec::proofs::Found::found_laws))]
pub(crate) fn variable_stmts(alloc: Global, spec: &Spec, v: usize) -> Result<Items<CStmt>, NoMemory>
    ensures { IfOk result (λ ss. ss ≡ stmts_of_variable (data_of spec.now) v) }
{
    match spec.table_of(v) {
        Some(table) => table_stmts(alloc, spec, table),
        None => Ok(Items::new(alloc)),
    }
}

//! The formulas that say that a variable has the value of a cell.
ghost use Rattle.std.specs.Prelude.{◌≡◌, ◌≤◌, ◌++◌, pos, map, unsigned_abs, IsTrue, OnOk, IfOk, slice_get, slice_index_or};
ghost use Rattle.std.specs.Option.{option_copied, option_map_or};
ghost use Rattle.std.specs.List.{list_all};
ghost use Rattle.scr_spec.specs.Shown.{data_of};
ghost use Rattle.scr_spec.specs.Types.{is_narrow};
ghost use Rattle.scr_spec.specs.Cells.{is_row_over, is_table_over};
ghost use Rattle.prove_formula.specs.Sides.{side_constant, negated};
ghost use Rattle.prove_formula.specs.Tables.{taken_in_new as taken_new, reading_of, value_side, value_terms, value_constant, takes_formula};

use crate::level::level_at;
use crate::side::{Reading, constant_at, push_negated_side, push_side};
use crate::{Formula, Linear, Op, Term};
use base::NoMemory;
use scr_spec::{Expr, Heading, Row, Spec, Table};
use sqlite_items::Items;
use std::alloc::Global;

fn taken_in_new(heading: Heading, new: bool) -> bool
    ensures { result ≡ taken_new heading new }
{
    match heading {
        Heading::Condition => new,
        Heading::Event | Heading::Modes => true,
    }
}

fn target_at(row: &Row, column: usize) -> i64
    requires { IsTrue (list_all is_narrow row.now.targets) }
    ensures value { result ≡ slice_index_or row.now.targets column (pos 0) }
    ensures bounded { unsigned_abs result ≤ 2000000000 }
{
    let targets = row.targets.as_slice();
    if column < targets.len() {
        targets[column]
    } else {
        0
    }
}

#[tactic(auto, using(scr_spec::proofs::Lookup::lookup_laws))]
fn column_constant_at(spec: &Spec, table: &Table, column: usize) -> i64
    requires { IsTrue (is_table_over (data_of spec.now) table.now) }
    ensures value { result ≡ option_map_or (side_constant (data_of spec.now)) (slice_get table.now.values column) (pos 0) }
    ensures bounded { unsigned_abs result ≤ 2000000000 }
{
    match table.values.get(column) {
        None => 0,
        Some(e) => constant_at(spec, e),
    }
}

/// What the items without variables of a cell's value add, or the target of a cell of a mode table.
pub fn value_constant_at(spec: &Spec, table: &Table, row: &Row, column: usize) -> i64
    requires over { IsTrue (is_table_over (data_of spec.now) table.now) }
    requires row_over { IsTrue (is_row_over (data_of spec.now) row.now) }
    ensures value { result ≡ value_constant (data_of spec.now) table.now row.now column table.now.heading }
    ensures bounded { unsigned_abs result ≤ 2000000000 }
{
    match table.heading {
        Heading::Condition | Heading::Event => column_constant_at(spec, table, column),
        Heading::Modes => target_at(row, column),
    }
}

fn reading_at(heading: Heading, new: bool) -> Reading
    ensures { result ≡ reading_of heading new }
{
    match heading {
        Heading::Condition => Reading::In(new),
        Heading::Event | Heading::Modes => Reading::Across,
    }
}

#[tactic(auto, using(scr_spec::proofs::Lookup::lookup_laws))]
fn side_of_value(table: &Table, column: usize) -> Option<&Expr>
    ensures { option_copied result ≡ value_side table.now column table.now.heading }
{
    match table.heading {
        Heading::Condition | Heading::Event => table.values.get(column),
        Heading::Modes => None,
    }
}

/// Adds the terms of the value of a cell in this column.
#[tactic(auto, using(crate::proofs::Growth::append_laws, crate::proofs::Values::value_laws))]
pub fn push_value(
    out: &mut Items<Term>,
    spec: &Spec,
    table: &Table,
    column: usize,
    new: bool,
) -> Result<(), NoMemory>
    requires { IsTrue (is_table_over (data_of spec.now) table.now) }
    ensures { OnOk result (out.new ≡ out.old ++ value_terms table.now column new table.now.heading) }
{
    match side_of_value(table, column) {
        None => Ok(()),
        Some(e) => push_side(out, spec, e, reading_at(table.heading, new)),
    }
}

/// Adds the terms of a value that is taken away.
#[tactic(auto, using(crate::proofs::Growth::append_laws, crate::proofs::Values::value_laws))]
pub fn push_negated_value(
    out: &mut Items<Term>,
    spec: &Spec,
    table: &Table,
    column: usize,
    new: bool,
) -> Result<(), NoMemory>
    requires { IsTrue (is_table_over (data_of spec.now) table.now) }
    ensures { OnOk result (out.new ≡ out.old ++ map negated (value_terms table.now column new table.now.heading)) }
{
    match side_of_value(table, column) {
        None => Ok(()),
        Some(e) => push_negated_side(out, spec, e, reading_at(table.heading, new)),
    }
}

/// The table's variable has the value of the row's cell at this column. A condition table is read
/// in the new state where `new` is true and in the old one else; any other table in both.
pub fn takes_at(
    alloc: Global,
    spec: &Spec,
    table: &Table,
    new: bool,
    row: &Row,
    column: usize,
) -> Result<Formula, NoMemory>
    requires over { IsTrue (is_table_over (data_of spec.now) table.now) }
    requires row_over { IsTrue (is_row_over (data_of spec.now) row.now) }
    ensures { IfOk result (λ f. f ≡ takes_formula (data_of spec.now) table.now new row.now column) }
{
    let mut terms = Items::new(alloc);
    terms.push(Term {
        factor: 1,
        level: level_at(table.variable, taken_in_new(table.heading, new)),
    })?;
    push_negated_value(&mut terms, spec, table, column, new)?;
    Ok(Formula::Atom(Linear {
        terms,
        constant: -value_constant_at(spec, table, row, column),
        op: Op::Eq,
    }))
}

//! A cell with the number of inputs at which it held.
ghost use Rattle.std.specs.Prelude.{◌≡◌, ◌+◌, ◌<◌, ◌^◌, ◌==◌, IsTrue, map};
ghost use Rattle.std.specs.List.{AllByRecursion};
ghost use Rattle.scr_spec.specs.Shown.{data_of};
ghost use Rattle.scr_spec.specs.Domains.{IsTyped};
ghost use Rattle.scr_spec.specs.Cells.{holds_in, has_cell, is_table_over};
ghost use Rattle.run_cover.specs.Cells.{held};
ghost use Rattle.run_cover.specs.Counts.{place_of, cell_at, is_of, raised};

use scr_eval::cell_holds;
use scr_spec::{Spec, State, Table};
use sqlite_items::Items;

/// A cell with the number of inputs at which it held. Tables count from 0, rows and columns from 1.
#[derive(Clone, Copy)]
pub struct Count {
    pub table: usize,
    pub row: usize,
    pub column: usize,
    pub times: u64,
}

fn is_next(number: usize, place: usize) -> bool
    ensures { result ≡ (number == place + 1) }
{
    number.checked_sub(1) == Some(place)
}

/// Whether it is the count of the cell with these numbers, each from 0.
pub(crate) fn is_of(count: &Count, table: usize, row: usize, column: usize) -> bool
    ensures { result ≡ is_of (cell_at table row column) count.now }
{
    count.table == table && is_next(count.row, row) && is_next(count.column, column)
}

fn is_there(table: &Table, row: usize, column: usize) -> bool
    ensures { result ≡ has_cell table.now row column }
{
    match table.rows.get(row) {
        Some(it) => column < it.cells.len(),
        None => false,
    }
}

#[tactic(auto, using(crate::proofs::There::not_there))]
fn holds_in(spec: &Spec, table: &Table, row: usize, column: usize, old: &State, new: &State) -> bool
    requires old_typed { IsTyped (data_of spec.now) old.now.codes }
    requires new_typed { IsTyped (data_of spec.now) new.now.codes }
    requires over { IsTrue (is_table_over (data_of spec.now) table.now) }
    ensures { result ≡ holds_in (data_of spec.now) table.now row column old.now.codes new.now.codes }
{
    if is_there(table, row, column) {
        cell_holds(spec, table, row, column, old, new)
    } else {
        false
    }
}

/// Whether the cell of the count holds at the old and the new state.
#[tactic(auto, using(crate::proofs::There::table_there))]
fn is_held(spec: &Spec, count: Count, old: &State, new: &State) -> bool
    requires old_typed { IsTyped (data_of spec.now) old.now.codes }
    requires new_typed { IsTyped (data_of spec.now) new.now.codes }
    ensures { result ≡ held (data_of spec.now) (place_of count) old.now.codes new.now.codes }
{
    match spec.tables.get(count.table) {
        Some(table) => {
            let row = count.row.saturating_sub(1);
            holds_in(spec, table, row, count.column.saturating_sub(1), old, new)
        }
        None => false,
    }
}

fn raised(spec: &Spec, count: Count, old: &State, new: &State) -> Count
    requires old_typed { IsTyped (data_of spec.now) old.now.codes }
    requires new_typed { IsTyped (data_of spec.now) new.now.codes }
    requires below { count.times < 2 ^ 63 }
    ensures { result ≡ raised (data_of spec.now) old.now.codes new.now.codes count }
{
    let Count {
        table,
        row,
        column,
        times,
    } = count;
    if is_held(spec, count, old, new) {
        Count {
            table,
            row,
            column,
            times: times + 1,
        }
    } else {
        count
    }
}

/// Counts each cell once more that holds at the old and the new state.
#[tactic(auto, using(crate::proofs::Raising::raising_laws))]
pub(crate) fn raise_all(spec: &Spec, counts: &mut Items<Count>, old: &State, new: &State)
    requires old_typed { IsTyped (data_of spec.now) old.now.codes }
    requires new_typed { IsTyped (data_of spec.now) new.now.codes }
    requires below { AllByRecursion (λ n. n.times < 2 ^ 63) counts.old }
    ensures { counts.new ≡ map (raised (data_of spec.now) old.now.codes new.now.codes) counts.old }
{
    for i in 0..counts.len() {
        if let Some(count) = counts.get(i) {
            let count = raised(spec, *count, old, new);
            counts.set(i, count);
        }
    }
}

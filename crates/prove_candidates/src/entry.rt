//! What the entries of a mode tell of it.
ghost use Rattle.std.specs.Prelude.{◌≡◌, [], ◌∷◌, ◌||◌, OnOk, false, slice_get};
ghost use Rattle.std.specs.List.{flat_map};
ghost use Rattle.std.specs.Option.{option_map_or};
ghost use Rattle.std.specs.Ordering.{int_eq};
ghost use Rattle.prove_candidates.specs.New.{AddsNew};
ghost use Rattle.prove_candidates.specs.Told.{joined_events, column_entries, row_entries, entries, told_after, told_guard, is_silent_change};
ghost use Rattle.prove_candidates.specs.Steps.{AddsEntries};

use crate::exit::{add_copy, add_negation};
use base::NoMemory;
use scr_spec::{Cell, Change, Cond, Primitive, Row, Table};
use sqlite_items::Items;
use std::alloc::Global;

/// The conditions of a mode so far, the changes by which it is entered, and whether some entry tells
/// nothing of the state after it.
#[derive(Drop)]
pub(crate) struct Entered {
    pub conditions: Items<Cond>,
    pub changes: Items<Cond>,
    pub silent: bool,
}

#[tactic(auto, using(crate::proofs::Listing::add_laws))]
fn add_after(out: &mut Items<Cond>, alloc: Global, change: &Change) -> Result<(), NoMemory>
    ensures { OnOk result (AddsNew out.old (told_after change.now) out.new) }
{
    match change {
        Change::Becomes(c) => add_copy(out, alloc, c),
        Change::Ceases(c) => add_negation(out, alloc, c),
        Change::Changes(_) | Change::Never => Ok(()),
    }
}

#[tactic(auto, using(crate::proofs::Listing::add_laws))]
fn add_guard(out: &mut Items<Cond>, alloc: Global, guard: &Option<Cond>) -> Result<(), NoMemory>
    ensures { OnOk result (AddsNew out.old (told_guard guard.now) out.new) }
{
    match guard {
        None => Ok(()),
        Some(c) => add_copy(out, alloc, c),
    }
}

fn is_silent(change: &Change) -> bool
    ensures { result ≡ is_silent_change change.now }
{
    match change {
        Change::Changes(_) => true,
        Change::Becomes(_) | Change::Ceases(_) | Change::Never => false,
    }
}

fn either(a: bool, b: bool) -> bool
    ensures { result ≡ (a || b) }
{
    a || b
}

fn add_entry(told: &mut Entered, alloc: Global, prim: &Primitive) -> Result<(), NoMemory>
    ensures { OnOk result (AddsEntries told.old (prim.now ∷ []) told.new) }
{
    add_after(&mut told.changes, alloc, &prim.change)?;
    add_after(&mut told.conditions, alloc, &prim.change)?;
    add_guard(&mut told.conditions, alloc, &prim.guard)?;
    told.silent = either(told.silent, is_silent(&prim.change));
    Ok(())
}

fn add_joined(told: &mut Entered, alloc: Global, prims: &[Primitive]) -> Result<(), NoMemory>
    ensures { OnOk result (AddsEntries told.old prims.now told.new) }
{
    for prim in prims {
        add_entry(told, alloc, prim)?;
    }
    Ok(())
}

fn add_cell(told: &mut Entered, alloc: Global, cell: &Cell) -> Result<(), NoMemory>
    ensures { OnOk result (AddsEntries told.old (joined_events cell.now) told.new) }
{
    match cell {
        Cell::Cond(_) => Ok(()),
        Cell::Event(e) => add_joined(told, alloc, e.prims.as_slice()),
    }
}

fn add_cell_at(told: &mut Entered, alloc: Global, row: &Row, column: usize) -> Result<(), NoMemory>
    ensures { OnOk result (AddsEntries told.old (option_map_or joined_events (slice_get row.now.cells column) []) told.new) }
{
    match row.cells.get(column) {
        None => Ok(()),
        Some(cell) => add_cell(told, alloc, cell),
    }
}

fn is_target(row: &Row, column: usize, mode: i64) -> bool
    ensures { result ≡ option_map_or (int_eq mode) (slice_get row.now.targets column) false }
{
    match row.targets.get(column) {
        None => false,
        Some(target) => mode == *target,
    }
}

fn add_column(
    told: &mut Entered,
    alloc: Global,
    row: &Row,
    column: usize,
    mode: i64,
) -> Result<(), NoMemory>
    ensures { OnOk result (AddsEntries told.old (column_entries mode row.now column) told.new) }
{
    if is_target(row, column, mode) {
        add_cell_at(told, alloc, row, column)?;
    }
    Ok(())
}

fn add_row(told: &mut Entered, alloc: Global, row: &Row, mode: i64) -> Result<(), NoMemory>
    ensures { OnOk result (AddsEntries told.old (row_entries mode row.now) told.new) }
{
    let count = row.cells.len();
    for column in 0..count {
        add_column(told, alloc, row, column, mode)?;
    }
    Ok(())
}

/// Adds what the entries of a mode tell of it.
pub(crate) fn add_entries(
    told: &mut Entered,
    alloc: Global,
    table: &Table,
    mode: i64,
) -> Result<(), NoMemory>
    ensures { OnOk result (AddsEntries told.old (entries table.now mode) told.new) }
{
    for row in table.rows.as_slice() {
        add_row(told, alloc, row, mode)?;
    }
    Ok(())
}

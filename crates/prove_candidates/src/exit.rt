//! What the exits of a mode tell of it.
ghost use Rattle.std.specs.Prelude.{◌≡◌, [], ◌∷◌, OnOk};
ghost use Rattle.scr_spec.specs.declared.cond.Cond.TheVariants.{Not};
ghost use Rattle.std.specs.List.{list_any, flat_map};
ghost use Rattle.std.specs.Ordering.{int_eq};
ghost use Rattle.prove_candidates.specs.New.{AddsNew};
ghost use Rattle.prove_candidates.specs.Told.{joined_events, row_exits, exits, told_before, exit_told};
ghost use Rattle.prove_candidates.specs.Steps.{AddsExits};

use crate::copy::copy_condition;
use crate::new::add_new;
use base::NoMemory;
use scr_spec::{Cell, Change, Cond, Primitive, Row, Table};
use sqlite_items::{Boxed, Items};
use std::alloc::Global;

/// Adds a copy of the condition where it is not there yet.
pub(crate) fn add_copy(out: &mut Items<Cond>, alloc: Global, c: &Cond) -> Result<(), NoMemory>
    ensures { OnOk result (AddsNew out.old (c.now ∷ []) out.new) }
{
    add_new(out, copy_condition(alloc, c)?)
}

/// Adds that the condition is false.
pub(crate) fn add_negation(out: &mut Items<Cond>, alloc: Global, c: &Cond) -> Result<(), NoMemory>
    ensures { OnOk result (AddsNew out.old (Not c.now ∷ []) out.new) }
{
    let member = copy_condition(alloc, c)?;
    add_new(out, Cond::Not(Boxed::new(alloc, member)?))
}

#[tactic(auto, using(crate::proofs::Exits::exit_laws))]
fn add_before(out: &mut Items<Cond>, alloc: Global, change: &Change) -> Result<(), NoMemory>
    ensures { OnOk result (AddsNew out.old (told_before change.now) out.new) }
{
    match change {
        Change::Becomes(c) => add_negation(out, alloc, c),
        Change::Ceases(c) => add_copy(out, alloc, c),
        Change::Changes(_) | Change::Never => Ok(()),
    }
}

#[tactic(auto, using(crate::proofs::Exits::exit_laws))]
fn add_exit(out: &mut Items<Cond>, alloc: Global, prim: &Primitive) -> Result<(), NoMemory>
    ensures { OnOk result (AddsNew out.old (exit_told prim.now) out.new) }
{
    match prim.guard {
        Some(_) => Ok(()),
        None => add_before(out, alloc, &prim.change),
    }
}

#[tactic(auto, using(crate::proofs::Exits::exit_steps))]
fn add_joined(out: &mut Items<Cond>, alloc: Global, prims: &[Primitive]) -> Result<(), NoMemory>
    ensures { OnOk result (AddsExits out.old prims.now out.new) }
{
    for prim in prims {
        add_exit(out, alloc, prim)?;
    }
    Ok(())
}

#[tactic(auto, using(crate::proofs::Exits::exit_laws))]
fn add_cell(out: &mut Items<Cond>, alloc: Global, cell: &Cell) -> Result<(), NoMemory>
    ensures { OnOk result (AddsExits out.old (joined_events cell.now) out.new) }
{
    match cell {
        Cell::Cond(_) => Ok(()),
        Cell::Event(e) => add_joined(out, alloc, e.prims.as_slice()),
    }
}

#[tactic(auto, using(crate::proofs::Exits::exit_steps))]
fn add_cells(out: &mut Items<Cond>, alloc: Global, cells: &[Cell]) -> Result<(), NoMemory>
    ensures { OnOk result (AddsExits out.old (flat_map joined_events cells.now) out.new) }
{
    for cell in cells {
        add_cell(out, alloc, cell)?;
    }
    Ok(())
}

fn is_among(modes: &[i64], mode: i64) -> bool
    ensures { result ≡ list_any (int_eq mode) modes.now }
{
    modes.iter().any(|m| mode == *m)
}

#[tactic(auto, using(crate::proofs::Exits::exit_laws))]
fn add_row(out: &mut Items<Cond>, alloc: Global, row: &Row, mode: i64) -> Result<(), NoMemory>
    ensures { OnOk result (AddsExits out.old (row_exits mode row.now) out.new) }
{
    if is_among(row.modes.as_slice(), mode) {
        add_cells(out, alloc, row.cells.as_slice())?;
    }
    Ok(())
}

/// Adds what the exits of a mode tell of it.
#[tactic(auto, using(crate::proofs::Exits::exit_steps))]
pub(crate) fn add_exits(
    out: &mut Items<Cond>,
    alloc: Global,
    table: &Table,
    mode: i64,
) -> Result<(), NoMemory>
    ensures { OnOk result (AddsExits out.old (exits table.now mode) out.new) }
{
    for row in table.rows.as_slice() {
        add_row(out, alloc, row, mode)?;
    }
    Ok(())
}

//! The tally of a run.
ghost use Rattle.std.specs.Prelude.{◌≡◌, ◌≤◌, ◌<◌, ◌+◌, ◌^◌, ◌++◌, [], map, length, IfOk, OnOk};
ghost use Rattle.std.specs.Option.{option_copied};
ghost use Rattle.std.proofs.Props.{props};
ghost use Rattle.std.specs.List.{AllByRecursion, find};
ghost use Rattle.scr_spec.specs.Shown.{data_of};
ghost use Rattle.scr_spec.specs.Domains.{IsTyped};
ghost use Rattle.run_cover.specs.Cells.{row_cells, table_cells, cells_of};
ghost use Rattle.run_cover.specs.Counts.{cell_at, is_of, counted, raised};
ghost use Rattle.run_cover.specs.Tallies.{IsTally, IsOfStates, TellsHeld};

use crate::count::{Count, is_of, raise_all};
use base::NoMemory;
use run_step::copy_codes;
use scr_depend::Checked;
use scr_spec::{Spec, State, Table};
use sqlite_items::Items;
use std::alloc::Global;

/// For each cell of a specification at how many inputs it held, from a first state on. The state after
/// the last input is kept. Its type keeps that these are the numbers of some states.
#[derive(Drop)]
pub struct Tally<'a> {
    pub checked: &'a Checked,
    /// The present state.
    pub at: State,
    /// The cells by tables, rows and columns.
    pub counts: Items<Count>,
    /// How many inputs there were.
    pub notes: u64,
    // behind `∥ ∥₁`, since the type knows that there are such states, and not which
    pub ghost of_states: { ∥ IsOfStates (data_of checked.now.spec) counts at.codes notes ∥₁ },
    pub ghost typed: { IsTyped (data_of checked.now.spec) at.codes },
    pub ghost below: { AllByRecursion (λ n. n.times ≤ notes) counts } by { Prim.hlevel props },
}

/// Appends the cells of a row, none of which held.
fn push_row(
    counts: &mut Items<Count>,
    table: usize,
    row: usize,
    cells: usize,
) -> Result<(), NoMemory>
    requires { row + 1 < 2 ^ 64 }
    ensures { OnOk result (counts.new ≡ counts.old ++ map (λ cell. counted cell 0) (row_cells table row cells)) }
{
    for column in 0..cells {
        counts.push(Count {
            table,
            row: row + 1,
            column: column + 1,
            times: 0,
        })?;
    }
    Ok(())
}

/// Appends the cells of a table, none of which held.
fn push_table(counts: &mut Items<Count>, number: usize, table: &Table) -> Result<(), NoMemory>
    ensures { OnOk result (counts.new ≡ counts.old ++ map (λ cell. counted cell 0) (table_cells number table.now)) }
{
    for row in 0..table.rows.len() {
        if let Some(it) = table.rows.get(row) {
            push_row(counts, number, row, it.cells.len())?;
        }
    }
    Ok(())
}

/// The cells of a specification, none of which held.
fn unheld(alloc: Global, spec: &Spec) -> Result<Items<Count>, NoMemory>
    ensures { IfOk result (λ counts. counts ≡ map (λ cell. counted cell 0) (cells_of (data_of spec.now))) }
{
    let mut counts = Items::new(alloc);
    for number in 0..spec.tables.len() {
        if let Some(table) = spec.tables.get(number) {
            push_table(&mut counts, number, table)?;
        }
    }
    Ok(counts)
}

fn copy_of(alloc: Global, state: &State) -> Result<State, NoMemory>
    ensures { IfOk result (λ copy. copy.codes ≡ state.now.codes) }
{
    let codes = Items::from_slice(alloc, state.codes.as_slice())?;
    Ok(State { codes })
}

fn find_count(counts: &Items<Count>, table: usize, row: usize, column: usize) -> Option<&Count>
    ensures { option_copied result ≡ find (is_of (cell_at table row column)) counts.now }
{
    counts
        .as_slice()
        .iter()
        .find(|count| is_of(count, table, row, column))
}

impl<'a> Tally<'a> {
    /// A tally from the state on, in which no cell has been counted. This takes all the memory that it needs.
    pub fn new(alloc: Global, checked: &'a Checked, first: &State) -> Result<Tally<'a>, NoMemory>
        requires { IsTyped (data_of checked.now.spec) first.now.codes }
        ensures same { IfOk result (λ tally. tally.checked.now ≡ checked.now) }
        ensures none { IfOk result (λ tally. IsTally (data_of checked.now.spec) first.now.codes [] tally.counts tally.at.codes tally.notes) }
    {
        let at = copy_of(alloc, first)?;
        let counts = unheld(alloc, checked.spec())?;
        Ok(Tally {
            checked,
            at,
            counts,
            notes: 0,
        })
    }

    /// Counts each cell once more that holds at the present state and the next one, which becomes the
    /// present one.
    pub fn note(&mut self, next: &State)
        requires typed { IsTyped (data_of self.old.checked.now.spec) next.now.codes }
        requires below { self.old.notes < 2 ^ 32 }
        ensures same { self.new.checked.now ≡ self.old.checked.now }
        ensures counts { self.new.counts ≡ map (raised (data_of self.old.checked.now.spec) self.old.at.codes next.now.codes) self.old.counts }
        ensures present { self.new.at.codes ≡ next.now.codes }
        ensures notes { self.new.notes ≡ self.old.notes + 1 }
    {
        raise_all(self.checked.spec(), &mut self.counts, &self.at, next);
        copy_codes(next, &mut self.at);
        self.notes += 1;
    }

    /// At how many inputs the cell held. The three numbers count from 0. 0 where there is no such cell.
    pub fn count(&self, table: usize, row: usize, column: usize) -> u64
        ensures times { TellsHeld (data_of self.now.checked.now.spec) (cell_at table row column) self.now.counts self.now.at.codes self.now.notes result }
    {
        match find_count(&self.counts, table, row, column) {
            Some(count) => count.times,
            None => 0,
        }
    }
}

//! What is sought.
ghost use Rattle.std.specs.Prelude.{◌≡◌, ◌&&◌, Bool, true, false, not, IsTrue};
ghost use Rattle.scr_spec.specs.Data.{Data};
ghost use Rattle.scr_spec.specs.Shown.{data_of};
ghost use Rattle.scr_spec.specs.Meaning.{Codes, is_true};
ghost use Rattle.scr_spec.specs.Over.{is_cond_over};
ghost use Rattle.scr_spec.specs.Domains.{IsTyped};
ghost use Rattle.scr_spec.specs.Cells.{holds_in, has_cell, is_table_over};
ghost use Rattle.run_cover.specs.Cells.{held};
ghost use Rattle.run_cover.specs.Counts.{cell_at};
ghost use Rattle.prove_formula.specs.Between.{is_true_between};
ghost use Rattle.run_reach.specs.Answers.{Sought};
ghost use Rattle.run_reach.specs.Targets.{held_at, broken_by};

use crate::between::cond_holds_between;
use scr_eval::{cell_holds, cond_holds};
use scr_spec::{Cond, Spec, State, Table};

/// What is sought in the runs of a specification: an initial state, or a step from an old to a new state.
pub trait Target {
    /// It can be sought in runs of the specification.
    ghost fits: { Self → Data → Type 0 };

    /// What is sought.
    ghost sought: { Self → Data → Sought };

    /// Whether this initial state is sought.
    fn is_met_at_first(&self, spec: &Spec, first: &State) -> bool
        requires fits { fits self.now (data_of spec.now) }
        requires typed { IsTyped (data_of spec.now) first.now.codes }
        ensures { result ≡ (sought self.now (data_of spec.now)).at_first first.now.codes };

    /// Whether this step is sought.
    fn is_met(&self, spec: &Spec, old: &State, new: &State) -> bool
        requires fits { fits self.now (data_of spec.now) }
        requires old_typed { IsTyped (data_of spec.now) old.now.codes }
        requires new_typed { IsTyped (data_of spec.now) new.now.codes }
        ensures { result ≡ (sought self.now (data_of spec.now)).at_step old.now.codes new.now.codes };
}

/// A cell, at which it is sought that it holds. The three numbers count from 0. No step is sought where
/// there is no such cell.
#[derive(Clone, Copy)]
pub struct CellHolds {
    pub table: usize,
    pub row: usize,
    pub column: usize,
}

fn is_there(table: &Table, row: usize, column: usize) -> bool
    ensures { result ≡ has_cell table.now row column }
{
    match table.rows.get(row) {
        Some(it) => column < it.cells.len(),
        None => false,
    }
}

#[tactic(auto, using(run_cover::proofs::There::not_there))]
fn holds_in(spec: &Spec, table: &Table, row: usize, column: usize, old: &State, new: &State) -> bool
    requires old_typed { IsTyped (data_of spec.now) old.now.codes }
    requires new_typed { IsTyped (data_of spec.now) new.now.codes }
    requires over { IsTrue (is_table_over (data_of spec.now) table.now) }
    ensures { result ≡ holds_in (data_of spec.now) table.now row column old.now.codes new.now.codes }
{
    if is_there(table, row, column) {
        cell_holds(spec, table, row, column, old, new)
    } else {
        false
    }
}

#[tactic(auto, using(run_cover::proofs::There::table_there))]
fn is_held(spec: &Spec, cell: CellHolds, old: &State, new: &State) -> bool
    requires old_typed { IsTyped (data_of spec.now) old.now.codes }
    requires new_typed { IsTyped (data_of spec.now) new.now.codes }
    ensures { result ≡ held (data_of spec.now) (cell_at cell.table cell.row cell.column) old.now.codes new.now.codes }
{
    match spec.tables.get(cell.table) {
        Some(table) => holds_in(spec, table, cell.row, cell.column, old, new),
        None => false,
    }
}

impl Target for CellHolds {
    ghost fits = { λ _ _. Unit {0} };

    ghost sought = { λ cell spec. held_at spec (cell_at cell.table cell.row cell.column) };

    fn is_met_at_first(&self, _spec: &Spec, _first: &State) -> bool {
        false
    }

    fn is_met(&self, spec: &Spec, old: &State, new: &State) -> bool {
        is_held(spec, *self, old, new)
    }
}

/// An assertion, of which it is sought that it is broken. One of two states reads primed names in the
/// new state.
#[derive(Clone, Copy)]
pub struct IsBroken<'a> {
    pub cond: &'a Cond,
    pub two: bool,
}

impl Target for IsBroken<'_> {
    ghost fits = { λ it spec. IsTrue (is_cond_over spec it.cond.now) };

    ghost sought = { λ it spec. broken_by spec it.two it.cond.now };

    fn is_met_at_first(&self, spec: &Spec, first: &State) -> bool {
        !self.two && !cond_holds(spec, self.cond, first)
    }

    fn is_met(&self, spec: &Spec, old: &State, new: &State) -> bool {
        if self.two {
            !cond_holds_between(spec, self.cond, old, new)
        } else {
            !cond_holds(spec, self.cond, new)
        }
    }
}

//! Cells of tables.
ghost use Rattle.std.specs.Prelude.{◌≡◌, ◌<◌, length, IsTrue};
ghost use Rattle.std.specs.List.{list_any};
ghost use Rattle.std.specs.Ordering.{int_eq};
ghost use Rattle.scr_spec.specs.Shown.{data_of};
ghost use Rattle.scr_spec.specs.Domains.{IsTyped};
ghost use Rattle.scr_spec.specs.Cells.{in_modes, looked_at, cell_true, row_cell_true, holds_in, has_cell, is_cell_over, is_class_over, is_row_over, is_table_over};

use crate::{cond_holds, event_holds};
use scr_spec::{Cell, Heading, Row, Spec, State, Table};

fn is_among(code: i64, modes: &[i64]) -> bool
    ensures { result ≡ list_any (λ mode. int_eq code mode) modes.now }
{
    modes.iter().any(|mode| code == *mode)
}

fn has_mode(spec: &Spec, class: Option<usize>, modes: &[i64], at: &State) -> bool
    requires typed { IsTyped (data_of spec.now) at.now.codes }
    requires over { IsTrue (is_class_over (data_of spec.now) class) }
    ensures { result ≡ in_modes class modes.now at.now.codes }
{
    match class {
        None => true,
        Some(v) => is_among(at.codes.as_slice()[v], modes),
    }
}

fn cell_true_at(spec: &Spec, heading: Heading, cell: &Cell, old: &State, new: &State) -> bool
    requires old_typed { IsTyped (data_of spec.now) old.now.codes }
    requires new_typed { IsTyped (data_of spec.now) new.now.codes }
    requires over { IsTrue (is_cell_over (data_of spec.now) cell.now) }
    ensures { result ≡ cell_true (data_of spec.now) heading old.now.codes new.now.codes cell.now }
{
    match (heading, cell) {
        (Heading::Condition, Cell::Cond(c)) => cond_holds(spec, c, new),
        (Heading::Event | Heading::Modes, Cell::Event(e)) => event_holds(spec, e, old, new),
        _ => false,
    }
}

#[tactic(auto, using(scr_spec::proofs::Lookup::lookup_laws))]
fn row_cell_holds(
    spec: &Spec,
    table: &Table,
    row: &Row,
    column: usize,
    old: &State,
    new: &State,
) -> bool
    requires old_typed { IsTyped (data_of spec.now) old.now.codes }
    requires new_typed { IsTyped (data_of spec.now) new.now.codes }
    requires class { IsTrue (is_class_over (data_of spec.now) table.now.class) }
    requires over { IsTrue (is_row_over (data_of spec.now) row.now) }
    requires there { column < length row.now.cells }
    ensures { result ≡ row_cell_true (data_of spec.now) table.now old.now.codes new.now.codes column row.now }
{
    let at = match table.heading {
        Heading::Condition => new,
        Heading::Event | Heading::Modes => old,
    };
    has_mode(spec, table.class, row.modes.as_slice(), at)
        && cell_true_at(spec, table.heading, &row.cells.as_slice()[column], old, new)
}

/// Whether a cell holds. Rows and columns count from 0.
#[tactic(auto, using(scr_spec::proofs::Lookup::lookup_laws))]
pub fn cell_holds(
    spec: &Spec,
    table: &Table,
    row: usize,
    column: usize,
    old: &State,
    new: &State,
) -> bool
    requires old_typed { IsTyped (data_of spec.now) old.now.codes }
    requires new_typed { IsTyped (data_of spec.now) new.now.codes }
    requires over { IsTrue (is_table_over (data_of spec.now) table.now) }
    requires there { IsTrue (has_cell table.now row column) }
    ensures { result ≡ holds_in (data_of spec.now) table.now row column old.now.codes new.now.codes }
{
    row_cell_holds(spec, table, &table.rows.as_slice()[row], column, old, new)
}

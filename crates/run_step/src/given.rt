//! What a table gives its variable, read at an old and a new state.
ghost use Rattle.std.specs.Prelude.{◌≡◌, ◌<◌, ℕ, pos, false, length, slice_index_or, slice_set, IsTrue, MatchOption};
ghost use Rattle.scr_spec.specs.Shown.{data_of};
ghost use Rattle.scr_spec.specs.Domains.{IsTyped};
ghost use Rattle.scr_spec.specs.Cells.{holds_in, is_table_over};
ghost use Rattle.scr_spec.specs.Relations.{column_value, cell_value};
ghost use Rattle.run_step.specs.Given.{Gives, GivesOrKeeps};

use scr_eval::{cell_holds, expr_value};
use scr_spec::{Heading, Row, Spec, State, Table};
use sqlite_items::Items;

#[tactic(auto, using(scr_spec::proofs::Lookup::lookup_laws))]
fn column_value(spec: &Spec, table: &Table, column: usize, plain: &State, primed: &State) -> i64
    requires plain_typed { IsTyped (data_of spec.now) plain.now.codes }
    requires primed_typed { IsTyped (data_of spec.now) primed.now.codes }
    requires over { IsTrue (is_table_over (data_of spec.now) table.now) }
    ensures { result ≡ column_value (data_of spec.now) table.now column plain.now.codes primed.now.codes }
{
    match table.values.get(column) {
        Some(value) => expr_value(spec, value, plain, primed),
        None => 0,
    }
}

/// The code at a place, or 0 behind the last one.
#[tactic(auto, using(crate::proofs::Calls::none_read))]
pub(crate) fn code_at(codes: &Items<i64>, place: usize) -> i64
    ensures { result ≡ slice_index_or codes.now place (pos 0) }
{
    match codes.get(place) {
        Some(code) => *code,
        None => 0,
    }
}

/// Sets the code at a place.
pub(crate) fn set_code(codes: &mut Items<i64>, place: usize, code: i64)
    requires { place < length codes.old }
    ensures { codes.new ≡ slice_set codes.old place code }
{
    codes.set(place, code);
}

fn cell_value(spec: &Spec, table: &Table, row: &Row, column: usize, old: &State, new: &State) -> i64
    requires old_typed { IsTyped (data_of spec.now) old.now.codes }
    requires new_typed { IsTyped (data_of spec.now) new.now.codes }
    requires over { IsTrue (is_table_over (data_of spec.now) table.now) }
    ensures { result ≡ cell_value (data_of spec.now) table.now row.now column table.now.heading old.now.codes new.now.codes }
{
    match table.heading {
        Heading::Condition => column_value(spec, table, column, new, new),
        Heading::Event => column_value(spec, table, column, old, new),
        Heading::Modes => code_at(&row.targets, column),
    }
}

/// The value of the first cell of the row that holds.
fn given_in_row(spec: &Spec, table: &Table, row: usize, old: &State, new: &State) -> Option<i64>
    requires old_typed { IsTyped (data_of spec.now) old.now.codes }
    requires new_typed { IsTyped (data_of spec.now) new.now.codes }
    requires over { IsTrue (is_table_over (data_of spec.now) table.now) }
    requires there { row < length table.now.rows }
    ensures { MatchOption result
        ((column : ℕ) → holds_in (data_of spec.now) table.now row column old.now.codes new.now.codes ≡ false)
        (λ code. Gives (data_of spec.now) table.now old.now.codes new.now.codes code) }
{
    let it = &table.rows.as_slice()[row];
    for column in 0..it.cells.len() {
        if cell_holds(spec, table, row, column, old, new) {
            return Some(cell_value(spec, table, it, column, old, new));
        }
    }
    None
}

/// The code that the table gives its variable: the value of the first cell that holds, or the old
/// code where none does.
pub(crate) fn code_after(spec: &Spec, table: &Table, old: &State, new: &State) -> i64
    requires old_typed { IsTyped (data_of spec.now) old.now.codes }
    requires new_typed { IsTyped (data_of spec.now) new.now.codes }
    requires over { IsTrue (is_table_over (data_of spec.now) table.now) }
    ensures { GivesOrKeeps (data_of spec.now) table.now old.now.codes new.now.codes result }
{
    for row in 0..table.rows.len() {
        if let Some(code) = given_in_row(spec, table, row, old, new) {
            return code;
        }
    }
    old.codes.as_slice()[table.variable]
}

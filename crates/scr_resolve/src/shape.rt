//! The shape of a table, and its values.
ghost use Rattle.std.specs.Prelude.{◌≡◌, IsTrue};
ghost use Rattle.std.specs.Option.{option_copied};
ghost use Rattle.std.specs.List.{list_all};
ghost use Rattle.scr_scope.specs.Sides as side;
ghost use Rattle.scr_resolve.specs.Lines as line;
ghost use Rattle.scr_resolve.specs.Tables as spec;

use crate::head::has_table;
use base::Name;
use scr_parse::{DraftCell, DraftSide};
use scr_scope::Known;
use scr_spec::{Heading, Row, Table, Variable};

/// The name of the table's variable, unless that is right.
pub(crate) fn variable_unless(known: &Known, right: bool) -> Option<&Name>
    ensures { option_copied result ≡ spec.variable_unless known.now right }
{
    if right {
        return None;
    }
    match &known.current {
        Some(table) => match known.variables.get(table.variable) {
            Some(variable) => Some(&variable.name),
            None => None,
        },
        None => None,
    }
}

fn is_count(rows: &[Row], count: usize) -> bool
    ensures { result ≡ spec.is_count rows.now count }
{
    match rows.first() {
        Some(row) => row.cells.len() == count,
        None => true,
    }
}

fn are_modes_placed(class: Option<usize>, rows: &[Row], modes: &[Name]) -> bool
    ensures { result ≡ spec.are_modes_placed class rows.now modes.now }
{
    match class {
        None => modes.is_empty() && rows.is_empty(),
        Some(_) => !modes.is_empty(),
    }
}

/// Whether the row has modes exactly where there is a class, is the only one where there is none,
/// and has as many cells as the first.
pub(crate) fn is_row_placed(known: &Known, modes: &[Name], cells: &[DraftCell]) -> bool
    ensures { result ≡ spec.is_row_placed known.now modes.now cells.now }
{
    match &known.current {
        Some(table) => {
            let rows = table.rows.as_slice();
            are_modes_placed(table.class, rows, modes) && is_count(rows, cells.len())
        }
        None => true,
    }
}

/// Whether there are as many values as cells in the first row.
pub(crate) fn are_values_placed(known: &Known, sides: &[DraftSide]) -> bool
    ensures { result ≡ spec.are_values_placed known.now sides.now }
{
    match &known.current {
        Some(table) => is_count(table.rows.as_slice(), sides.len()),
        None => true,
    }
}

fn are_typed(known: &Known, heading: Heading, v: usize, sides: &[DraftSide]) -> bool
    ensures { result ≡ list_all (side.is_typed_value known.now heading v) sides.now }
{
    sides
        .iter()
        .all(|side| known.is_typed_value(heading, v, side))
}

/// Whether each value has the sort of the table's variable.
pub(crate) fn are_values_typed(known: &Known, sides: &[DraftSide]) -> bool
    ensures { result ≡ line.are_values_typed known.now sides.now }
{
    match &known.current {
        Some(table) => are_typed(known, table.heading, table.variable, sides),
        None => true,
    }
}

fn are_within(known: &Known, v: usize, sides: &[DraftSide]) -> bool
    requires constants { IsTrue (list_all side.is_narrow_constant known.now.constants) }
    requires small { IsTrue (list_all line.is_small_side sides.now) }
    ensures { result ≡ list_all (side.is_value_within known.now v) sides.now }
{
    for side in sides {
        if !known.is_value_within(v, side) {
            return false;
        }
    }
    true
}

/// Whether each value without a variable's name is one of the table's variable.
pub(crate) fn are_values_within(known: &Known, sides: &[DraftSide]) -> bool
    requires constants { IsTrue (list_all side.is_narrow_constant known.now.constants) }
    requires small { IsTrue (list_all line.is_small_side sides.now) }
    ensures { result ≡ line.are_values_within known.now sides.now }
{
    match &known.current {
        Some(table) => are_within(known, table.variable, sides),
        None => true,
    }
}

/// Whether the bound of each side is at most `SIDE_LIMIT`.
pub(crate) fn are_narrow(known: &Known, sides: &[DraftSide]) -> bool
    ensures { result ≡ list_all (side.is_narrow_side known.now) sides.now }
{
    sides.iter().all(|side| known.is_narrow_side(side))
}

/// The first dependent variable without a table.
pub(crate) fn first_bare<'a>(tables: &[Table], variables: &'a [Variable]) -> Option<&'a Name>
    ensures { option_copied result ≡ spec.first_bare tables.now 0 variables.now }
{
    for (v, variable) in variables.iter().enumerate() {
        if !variable.role.is_monitored() && !has_table(tables, v) {
            return Some(&variable.name);
        }
    }
    None
}

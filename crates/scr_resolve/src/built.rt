//! What the lines of a table add.
ghost use Rattle.std.specs.Prelude.{◌≡◌, ◌++◌, ◌∷◌, [], map, OnOk, IfOk, MatchOption};
ghost use Rattle.std.specs.Option.{option_and_then};
ghost use Rattle.scr_scope.specs.Events as event;
ghost use Rattle.scr_scope.specs.Meanings.{variable_named};
ghost use Rattle.scr_scope.specs.Sides as side;
ghost use Rattle.scr_resolve.specs.Built as spec;

use crate::mode::{current_class, has_mode, mode_named};
use base::{Name, NoMemory};
use scr_parse::{DraftCell, DraftEvent, DraftSide};
use scr_scope::Known;
use scr_spec::{Cell, Event, Expr, Heading, Primitive, Row, Table};
use sqlite_items::Items;
use std::alloc::Global;

// ---- heads

fn class_named(known: &Known, class: &Option<Name>) -> Option<usize>
    ensures { result ≡ option_and_then (variable_named known.now) class.now }
{
    match class {
        Some(name) => known.variable_named(name),
        None => None,
    }
}

fn head_class(known: &Known, heading: Heading, name: &Name, class: &Option<Name>) -> Option<usize>
    ensures { result ≡ spec.head_class known.now heading name.now class.now }
{
    match heading {
        Heading::Condition | Heading::Event => class_named(known, class),
        Heading::Modes => known.variable_named(name),
    }
}

/// Begins a table.
pub(crate) fn add_head(
    alloc: Global,
    known: &mut Known,
    heading: Heading,
    name: &Name,
    class: &Option<Name>,
)
    ensures { known.new ≡ spec.with_head known.old heading name.now class.now }
{
    let variable = known.variable_named(name).unwrap_or(0);
    let class = head_class(known, heading, name, class);
    known.current = Some(Table {
        variable,
        heading,
        class,
        rows: Items::new(alloc),
        values: Items::new(alloc),
    });
}

// ---- rows and values

fn mode_code(known: &Known, name: &Name) -> i64
    ensures { result ≡ spec.mode_code known.now name.now }
{
    match current_class(known) {
        Some(v) => match mode_named(known, v, name) {
            Some(place) => i64::from(place),
            None => 0,
        },
        None => 0,
    }
}

fn mode_codes(alloc: Global, known: &Known, names: &[Name]) -> Result<Items<i64>, NoMemory>
    ensures { IfOk result (λ codes. codes ≡ map (spec.mode_code known.now) names.now) }
{
    let mut codes = Items::new(alloc);
    for name in names {
        codes.push(mode_code(known, name))?;
    }
    Ok(codes)
}

fn cells_of(alloc: Global, known: &Known, drafts: &[DraftCell]) -> Result<Items<Cell>, NoMemory>
    ensures { IfOk result (λ cells. cells ≡ map (event.cell_of known.now) drafts.now) }
{
    let mut cells = Items::new(alloc);
    for draft in drafts {
        let cell = known.cell_of(alloc, draft)?;
        cells.push(cell)?;
    }
    Ok(cells)
}

fn row_of(
    alloc: Global,
    known: &Known,
    modes: &[Name],
    cells: &[DraftCell],
) -> Result<Row, NoMemory>
    ensures { IfOk result (λ row. row ≡ spec.row_of known.now modes.now cells.now) }
{
    let modes = mode_codes(alloc, known, modes)?;
    let cells = cells_of(alloc, known, cells)?;
    let targets = Items::new(alloc);
    Ok(Row {
        modes,
        cells,
        targets,
    })
}

/// Adds a row to the table.
pub(crate) fn add_row(
    alloc: Global,
    known: &mut Known,
    modes: &[Name],
    cells: &[DraftCell],
) -> Result<(), NoMemory>
    ensures { OnOk result (known.new ≡ spec.with_row known.old modes.now cells.now) }
{
    let row = row_of(alloc, known, modes, cells)?;
    if let Some(table) = &mut known.current {
        table.rows.push(row)?;
    }
    Ok(())
}

fn sides_of(alloc: Global, known: &Known, drafts: &[DraftSide]) -> Result<Items<Expr>, NoMemory>
    ensures { IfOk result (λ sides. sides ≡ map (side.side_of known.now) drafts.now) }
{
    let mut sides = Items::new(alloc);
    for draft in drafts {
        let side = known.side_of(alloc, draft)?;
        sides.push(side)?;
    }
    Ok(sides)
}

/// Gives the table its values.
pub(crate) fn add_values(
    alloc: Global,
    known: &mut Known,
    sides: &[DraftSide],
) -> Result<(), NoMemory>
    ensures { OnOk result (known.new ≡ spec.with_values known.old sides.now) }
{
    let values = sides_of(alloc, known, sides)?;
    if let Some(table) = &mut known.current {
        table.values = values;
    }
    Ok(())
}

// ---- transitions

fn take_first<T: Drop>(items: &mut Items<T>) -> Option<T>
    ensures { MatchOption result ((items.old ≡ []) × (items.new ≡ [])) (λ first. items.old ≡ first ∷ items.new) }
{
    if items.is_empty() {
        None
    } else {
        Some(items.remove(0))
    }
}

fn cell_prims(alloc: Global, cell: Cell) -> Items<Primitive>
    ensures { result ≡ spec.cell_prims cell }
{
    match cell {
        Cell::Cond(_) => Items::new(alloc),
        Cell::Event(Event { prims }) => prims,
    }
}

fn joined(alloc: Global, cell: Cell, event: Event) -> Result<Cell, NoMemory>
    ensures { IfOk result (λ made. made ≡ spec.joined cell event) }
{
    let Event { prims: more } = event;
    let mut prims = cell_prims(alloc, cell);
    prims.append(more)?;
    Ok(Cell::Event(Event { prims }))
}

fn cells_with(
    alloc: Global,
    target: i64,
    event: Event,
    targets: &[i64],
    cells: Items<Cell>,
) -> Result<Items<Cell>, NoMemory>
    ensures { IfOk result (λ made. made ≡ spec.cells_with target event targets.now cells) }
{
    let mut made = Items::new(alloc);
    let mut left = cells;
    for other in targets {
        let Some(cell) = take_first(&mut left) else {
            made.push(Cell::Event(event))?;
            return Ok(made);
        };
        if target == *other {
            made.push(joined(alloc, cell, event)?)?;
            made.append(left)?;
            return Ok(made);
        }
        made.push(cell)?;
    }
    made.append(left)?;
    made.push(Cell::Event(event))?;
    Ok(made)
}

fn targets_with(targets: Items<i64>, target: i64) -> Result<Items<i64>, NoMemory>
    ensures { IfOk result (λ made. made ≡ spec.targets_with target targets) }
{
    let mut targets = targets;
    if !targets.as_slice().contains(&target) {
        targets.push(target)?;
    }
    Ok(targets)
}

fn row_with(alloc: Global, target: i64, event: Event, row: Row) -> Result<Row, NoMemory>
    ensures { IfOk result (λ made. made ≡ spec.row_with target event row) }
{
    let Row {
        modes,
        cells,
        targets,
    } = row;
    let cells = cells_with(alloc, target, event, targets.as_slice(), cells)?;
    let targets = targets_with(targets, target)?;
    Ok(Row {
        modes,
        cells,
        targets,
    })
}

fn row_from(alloc: Global, source: i64, target: i64, event: Event) -> Result<Row, NoMemory>
    ensures { IfOk result (λ made. made ≡ spec.row_from source target event) }
{
    let mut cells = Items::new(alloc);
    cells.push(Cell::Event(event))?;
    Ok(Row {
        modes: Items::from_slice(alloc, &[source])?,
        cells,
        targets: Items::from_slice(alloc, &[target])?,
    })
}

fn rows_with(
    alloc: Global,
    source: i64,
    target: i64,
    event: Event,
    rows: Items<Row>,
) -> Result<Items<Row>, NoMemory>
    ensures { IfOk result (λ made. made ≡ spec.rows_with source target event rows) }
{
    let mut made = Items::new(alloc);
    let mut left = rows;
    'rows: while let Some(row) = take_first(&mut left) {
        if has_mode(source, &row) {
            made.push(row_with(alloc, target, event, row)?)?;
            made.append(left)?;
            return Ok(made);
        }
        made.push(row)?;
    }
    made.push(row_from(alloc, source, target, event)?)?;
    Ok(made)
}

fn transition_added(
    alloc: Global,
    source: i64,
    target: i64,
    event: Event,
    table: Table,
) -> Result<Table, NoMemory>
    ensures { IfOk result (λ made. made ≡ spec.transition_added source target event table) }
{
    let Table {
        variable,
        heading,
        class,
        rows,
        values,
    } = table;
    let rows = rows_with(alloc, source, target, event, rows)?;
    Ok(Table {
        variable,
        heading,
        class,
        rows,
        values,
    })
}

/// Adds a transition to the table, in the row of its source.
pub(crate) fn add_transition(
    alloc: Global,
    known: &mut Known,
    source: &Name,
    target: &Name,
    draft: &DraftEvent,
) -> Result<(), NoMemory>
    ensures { OnOk result (known.new ≡ spec.with_transition known.old source.now target.now draft.now) }
{
    let source = mode_code(known, source);
    let target = mode_code(known, target);
    let event = known.event_of(alloc, draft)?;
    if let Some(table) = known.current.take() {
        known.current = Some(transition_added(alloc, source, target, event, table)?);
    }
    Ok(())
}

// ---- END

/// Keeps the table.
pub(crate) fn add_end(known: &mut Known) -> Result<(), NoMemory>
    ensures { OnOk result (known.new ≡ spec.with_end known.old) }
{
    if let Some(table) = known.current.take() {
        known.tables.push(table)?;
    }
    Ok(())
}

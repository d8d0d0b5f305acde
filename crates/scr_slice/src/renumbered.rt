//! Tables over the kept variables, which have their places among these for numbers.
ghost use Rattle.std.specs.Prelude.{◌≡◌, nat_eq, not, map, IfOk};
ghost use Rattle.std.specs.List.{prefix_len};
ghost use Rattle.std.specs.Option.{option_map};
ghost use Rattle.scr_slice.specs.Slices.{number_in};
ghost use Rattle.scr_slice.specs.Renumbered.{owner_with, operand_with, item_with, side_with, cond_with, change_with, prim_with, event_with, cell_with, row_with, table_with};

use base::NoMemory;
use scr_spec::{Cell, Change, Cond, Event, Expr, Item, Operand, Owner, Primitive, Row, Table};
use sqlite_items::{Boxed, Items};
use std::alloc::Global;

/// How many are kept before the variable.
fn count_before(keep: &[usize], v: usize) -> usize
    ensures { result ≡ prefix_len (λ k. not (nat_eq k v)) keep.now }
{
    keep.iter().take_while(|k| **k != v).count()
}

/// The place of the variable among the kept ones.
pub(crate) fn number_in(keep: &[usize], v: usize) -> usize
    ensures { result ≡ number_in keep.now v }
{
    count_before(keep, v)
}

fn owner(keep: &[usize], owner: Owner) -> Owner
    ensures { result ≡ owner_with (number_in keep.now) owner }
{
    match owner {
        Owner::Named(k) => Owner::Named(k),
        Owner::Class(v) => Owner::Class(number_in(keep, v)),
    }
}

fn operand(keep: &[usize], old: Operand) -> Operand
    ensures { result ≡ operand_with (number_in keep.now) old }
{
    match old {
        Operand::One => Operand::One,
        Operand::Truth(b) => Operand::Truth(b),
        Operand::Constant(k) => Operand::Constant(k),
        Operand::Label(of, code) => Operand::Label(owner(keep, of), code),
        Operand::Variable(v) => Operand::Variable(number_in(keep, v)),
        Operand::Primed(v) => Operand::Primed(number_in(keep, v)),
    }
}

fn item(keep: &[usize], old: Item) -> Item
    ensures { result ≡ item_with (number_in keep.now) old }
{
    Item {
        factor: old.factor,
        operand: operand(keep, old.operand),
    }
}

fn side(alloc: Global, keep: &[usize], old: &Expr) -> Result<Expr, NoMemory>
    ensures { IfOk result (λ new. new ≡ side_with (number_in keep.now) old.now) }
{
    let mut items = Items::new(alloc);
    for i in old.items.as_slice() {
        items.push(item(keep, *i))?;
    }
    Ok(Expr { items })
}

/// The condition with the places of its variables among the kept ones. The only error is want of memory.
#[cycle(condition)]
#[tactic(auto, using(crate::proofs::Joined::with_laws, scr_spec::specs::declared::cond::Cond::TheViews::the_lemmas))]
pub fn condition(alloc: Global, keep: &[usize], c: &Cond) -> Result<Cond, NoMemory>
    ensures { IfOk result (λ new. new ≡ cond_with (number_in keep.now) c.now) }
{
    match c {
        Cond::Truth(b) => Ok(Cond::Truth(*b)),
        Cond::Holds(v) => Ok(Cond::Holds(number_in(keep, *v))),
        Cond::Compare(left, relation, right) => {
            let left = side(alloc, keep, left)?;
            let right = side(alloc, keep, right)?;
            Ok(Cond::Compare(left, *relation, right))
        }
        Cond::Not(c) => {
            let member = condition(alloc, keep, c.get())?;
            Ok(Cond::Not(Boxed::new(alloc, member)?))
        }
        Cond::And(cs) => Ok(Cond::And(conditions(alloc, keep, cs.as_slice())?)),
        Cond::Or(cs) => Ok(Cond::Or(conditions(alloc, keep, cs.as_slice())?)),
    }
}

#[cycle(condition)]
fn conditions(alloc: Global, keep: &[usize], cs: &[Cond]) -> Result<Items<Cond>, NoMemory>
    ensures { IfOk result (λ new. new ≡ map (cond_with (number_in keep.now)) cs.now) }
{
    let mut new = Items::new(alloc);
    for c in cs {
        let member = condition(alloc, keep, c)?;
        new.push(member)?;
    }
    Ok(new)
}

fn change(alloc: Global, keep: &[usize], old: &Change) -> Result<Change, NoMemory>
    ensures { IfOk result (λ new. new ≡ change_with (number_in keep.now) old.now) }
{
    match old {
        Change::Becomes(c) => Ok(Change::Becomes(condition(alloc, keep, c)?)),
        Change::Ceases(c) => Ok(Change::Ceases(condition(alloc, keep, c)?)),
        Change::Changes(v) => Ok(Change::Changes(number_in(keep, *v))),
        Change::Never => Ok(Change::Never),
    }
}

fn guard(alloc: Global, keep: &[usize], old: &Option<Cond>) -> Result<Option<Cond>, NoMemory>
    ensures { IfOk result (λ new. new ≡ option_map (cond_with (number_in keep.now)) old.now) }
{
    match old {
        Some(c) => Ok(Some(condition(alloc, keep, c)?)),
        None => Ok(None),
    }
}

fn primitive(alloc: Global, keep: &[usize], old: &Primitive) -> Result<Primitive, NoMemory>
    ensures { IfOk result (λ new. new ≡ prim_with (number_in keep.now) old.now) }
{
    Ok(Primitive {
        change: change(alloc, keep, &old.change)?,
        guard: guard(alloc, keep, &old.guard)?,
    })
}

fn event(alloc: Global, keep: &[usize], old: &Event) -> Result<Event, NoMemory>
    ensures { IfOk result (λ new. new ≡ event_with (number_in keep.now) old.now) }
{
    let mut prims = Items::new(alloc);
    for prim in old.prims.as_slice() {
        prims.push(primitive(alloc, keep, prim)?)?;
    }
    Ok(Event { prims })
}

fn cell(alloc: Global, keep: &[usize], old: &Cell) -> Result<Cell, NoMemory>
    ensures { IfOk result (λ new. new ≡ cell_with (number_in keep.now) old.now) }
{
    match old {
        Cell::Cond(c) => Ok(Cell::Cond(condition(alloc, keep, c)?)),
        Cell::Event(e) => Ok(Cell::Event(event(alloc, keep, e)?)),
    }
}

fn row(alloc: Global, keep: &[usize], old: &Row) -> Result<Row, NoMemory>
    ensures { IfOk result (λ new. new ≡ row_with (number_in keep.now) old.now) }
{
    let modes = Items::from_slice(alloc, old.modes.as_slice())?;
    let targets = Items::from_slice(alloc, old.targets.as_slice())?;
    let mut cells = Items::new(alloc);
    for it in old.cells.as_slice() {
        cells.push(cell(alloc, keep, it)?)?;
    }
    Ok(Row {
        modes,
        cells,
        targets,
    })
}

fn rows(alloc: Global, keep: &[usize], old: &[Row]) -> Result<Items<Row>, NoMemory>
    ensures { IfOk result (λ new. new ≡ map (row_with (number_in keep.now)) old.now) }
{
    let mut new = Items::new(alloc);
    for it in old {
        new.push(row(alloc, keep, it)?)?;
    }
    Ok(new)
}

fn values(alloc: Global, keep: &[usize], old: &[Expr]) -> Result<Items<Expr>, NoMemory>
    ensures { IfOk result (λ new. new ≡ map (side_with (number_in keep.now)) old.now) }
{
    let mut new = Items::new(alloc);
    for value in old {
        new.push(side(alloc, keep, value)?)?;
    }
    Ok(new)
}

fn class(keep: &[usize], old: Option<usize>) -> Option<usize>
    ensures { result ≡ option_map (number_in keep.now) old }
{
    match old {
        Some(v) => Some(number_in(keep, v)),
        None => None,
    }
}

/// The table with the new numbers.
pub(crate) fn table(alloc: Global, keep: &[usize], old: &Table) -> Result<Table, NoMemory>
    ensures { IfOk result (λ new. new ≡ table_with (number_in keep.now) old.now) }
{
    Ok(Table {
        variable: number_in(keep, old.variable),
        heading: old.heading,
        class: class(keep, old.class),
        rows: rows(alloc, keep, old.rows.as_slice())?,
        values: values(alloc, keep, old.values.as_slice())?,
    })
}

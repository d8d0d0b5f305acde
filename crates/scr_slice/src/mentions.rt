//! Which variables a table mentions.
ghost use Rattle.std.specs.Prelude.{◌≡◌, false, nat_eq};
ghost use Rattle.std.specs.List.{list_any};
ghost use Rattle.std.specs.Option.{option_map_or};
ghost use Rattle.scr_slice.specs.Mentions.{owner_mentions, operand_mentions, side_mentions, cond_mentions, change_mentions, prim_mentions, event_mentions, cell_mentions, row_mentions, table_mentions};

use scr_spec::{Cell, Change, Cond, Event, Expr, Operand, Owner, Primitive, Row, Table};

fn owner_mentions(owner: Owner, w: usize) -> bool
    ensures { result ≡ owner_mentions w owner }
{
    match owner {
        Owner::Named(_) => false,
        Owner::Class(v) => v == w,
    }
}

fn operand_mentions(operand: Operand, w: usize) -> bool
    ensures { result ≡ operand_mentions w operand }
{
    match operand {
        Operand::Label(owner, _) => owner_mentions(owner, w),
        Operand::Variable(v) | Operand::Primed(v) => v == w,
        _ => false,
    }
}

fn side_mentions(e: &Expr, w: usize) -> bool
    ensures { result ≡ side_mentions w e.now }
{
    e.items
        .as_slice()
        .iter()
        .any(|item| operand_mentions(item.operand, w))
}

/// Whether the condition mentions the variable, primed or not.
#[cycle(mentions)]
#[tactic(auto, using(crate::proofs::Joined::mentions_laws, scr_spec::specs::declared::cond::Cond::TheViews::the_lemmas))]
pub fn cond_mentions(c: &Cond, w: usize) -> bool
    ensures { result ≡ cond_mentions w c.now }
{
    match c {
        Cond::Truth(_) => false,
        Cond::Holds(v) => *v == w,
        Cond::Compare(left, _, right) => side_mentions(left, w) || side_mentions(right, w),
        Cond::Not(c) => cond_mentions(c.get(), w),
        Cond::And(cs) => any_mentions(cs.as_slice(), w),
        Cond::Or(cs) => any_mentions(cs.as_slice(), w),
    }
}

#[cycle(mentions)]
fn any_mentions(cs: &[Cond], w: usize) -> bool
    ensures { result ≡ list_any (cond_mentions w) cs.now }
{
    for c in cs {
        if cond_mentions(c, w) {
            return true;
        }
    }
    false
}

fn change_mentions(change: &Change, w: usize) -> bool
    ensures { result ≡ change_mentions w change.now }
{
    match change {
        Change::Becomes(c) => cond_mentions(c, w),
        Change::Ceases(c) => cond_mentions(c, w),
        Change::Changes(v) => *v == w,
        Change::Never => false,
    }
}

fn guard_mentions(guard: &Option<Cond>, w: usize) -> bool
    ensures { result ≡ option_map_or (cond_mentions w) guard.now false }
{
    match guard {
        Some(c) => cond_mentions(c, w),
        None => false,
    }
}

fn prim_mentions(prim: &Primitive, w: usize) -> bool
    ensures { result ≡ prim_mentions w prim.now }
{
    change_mentions(&prim.change, w) || guard_mentions(&prim.guard, w)
}

fn event_mentions(e: &Event, w: usize) -> bool
    ensures { result ≡ event_mentions w e.now }
{
    e.prims.as_slice().iter().any(|prim| prim_mentions(prim, w))
}

fn cell_mentions(cell: &Cell, w: usize) -> bool
    ensures { result ≡ cell_mentions w cell.now }
{
    match cell {
        Cell::Cond(c) => cond_mentions(c, w),
        Cell::Event(e) => event_mentions(e, w),
    }
}

fn row_mentions(row: &Row, w: usize) -> bool
    ensures { result ≡ row_mentions w row.now }
{
    row.cells
        .as_slice()
        .iter()
        .any(|cell| cell_mentions(cell, w))
}

fn class_mentions(class: Option<usize>, w: usize) -> bool
    ensures { result ≡ option_map_or (λ v. nat_eq v w) class false }
{
    match class {
        Some(v) => v == w,
        None => false,
    }
}

fn any_row_mentions(rows: &[Row], w: usize) -> bool
    ensures { result ≡ list_any (row_mentions w) rows.now }
{
    rows.iter().any(|row| row_mentions(row, w))
}

fn any_value_mentions(values: &[Expr], w: usize) -> bool
    ensures { result ≡ list_any (side_mentions w) values.now }
{
    values.iter().any(|value| side_mentions(value, w))
}

/// Whether the table mentions the variable.
#[tactic(auto, unfolding(crate::specs::Mentions::table_mentions))]
pub(crate) fn table_mentions(table: &Table, w: usize) -> bool
    ensures { result ≡ table_mentions w table.now }
{
    class_mentions(table.class, w)
        || any_row_mentions(table.rows.as_slice(), w)
        || any_value_mentions(table.values.as_slice(), w)
}

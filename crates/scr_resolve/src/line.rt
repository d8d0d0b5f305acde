//! The rules of one line, and what it adds.
ghost use Rattle.std.specs.Prelude.{◌≡◌, true, None, IsTrue, OnOk, IfErr};
ghost use Rattle.std.specs.Option.{option_copied, option_map};
ghost use Rattle.std.specs.List.{list_all};
ghost use Rattle.scr_parse.specs.Readable.{is_statement_readable};
ghost use Rattle.scr_scope.specs.Events as event;
ghost use Rattle.scr_scope.specs.First.{first_in};
ghost use Rattle.scr_scope.specs.Meanings.{unknown};
ghost use Rattle.scr_scope.specs.Sides as side;
ghost use Rattle.scr_resolve.specs.Draft.{LineRefuses};
ghost use Rattle.scr_resolve.specs.Lines as spec;

use crate::built::{add_end, add_head, add_row, add_transition, add_values};
use crate::fault::{TypeFault, TypeKind};
use crate::head::{ill_head, is_head_new, is_head_placed};
use crate::mode::{bad_mode, bad_transition, missing_mode};
use crate::shape::{
    are_narrow, are_values_placed, are_values_typed, are_values_within, first_bare, is_row_placed,
    variable_unless,
};
use base::{Name, NoMemory};
use scr_parse::{DraftCell, DraftEvent, DraftSide, Numbered, Statement};
use scr_scope::{Known, unless};
use std::alloc::Global;

fn duplicate_in<'a>(known: &Known, statement: &'a Statement) -> Option<&'a Name>
    ensures { option_copied result ≡ spec.duplicate_in known.now statement.now }
{
    match statement {
        Statement::Head(_, name, _) => unless(is_head_new(known, name), name),
        _ => known.duplicate_declaration(statement),
    }
}

fn first_unknown<'a>(known: &Known, names: &'a [Name]) -> Option<&'a Name>
    ensures { option_copied result ≡ first_in (unknown known.now) names.now }
{
    for name in names {
        if let Some(name) = known.unknown(name) {
            return Some(name);
        }
    }
    None
}

fn unknown_class<'a>(known: &Known, class: &'a Option<Name>) -> Option<&'a Name>
    ensures { option_copied result ≡ spec.unknown_class known.now class.now }
{
    match class {
        Some(name) => known.unknown(name),
        None => None,
    }
}

fn unknown_cells<'a>(known: &Known, cells: &'a [DraftCell]) -> Option<&'a Name>
    ensures { option_copied result ≡ first_in (event.unknown_cell known.now) cells.now }
{
    for cell in cells {
        if let Some(name) = known.unknown_cell(cell) {
            return Some(name);
        }
    }
    None
}

fn unknown_values<'a>(known: &Known, sides: &'a [DraftSide]) -> Option<&'a Name>
    ensures { option_copied result ≡ first_in (side.unknown_side known.now) sides.now }
{
    for side in sides {
        if let Some(name) = known.unknown_side(side) {
            return Some(name);
        }
    }
    None
}

fn unknown_transition<'a>(
    known: &Known,
    source: &'a Name,
    target: &'a Name,
    event: &'a DraftEvent,
) -> Option<&'a Name>
    ensures { option_copied result ≡ spec.unknown_transition known.now source.now target.now event.now }
{
    if let Some(name) = known.unknown(source) {
        return Some(name);
    }
    if let Some(name) = known.unknown(target) {
        return Some(name);
    }
    known.unknown_event(event)
}

fn unknown_in<'a>(known: &Known, statement: &'a Statement) -> Option<&'a Name>
    ensures { option_copied result ≡ spec.unknown_in known.now statement.now }
{
    match statement {
        Statement::Head(_, name, class) => match known.unknown(name) {
            Some(name) => Some(name),
            None => unknown_class(known, class),
        },
        Statement::Row(modes, cells) => match first_unknown(known, modes.as_slice()) {
            Some(name) => Some(name),
            None => unknown_cells(known, cells.as_slice()),
        },
        Statement::Values(sides) => unknown_values(known, sides.as_slice()),
        Statement::Transition(source, target, event) => {
            unknown_transition(known, source, target, event)
        }
        _ => known.unknown_declaration(statement),
    }
}

fn are_typed(known: &Known, cells: &[DraftCell]) -> bool
    ensures { result ≡ list_all (event.is_typed_cell known.now) cells.now }
{
    cells.iter().all(|cell| known.is_typed_cell(cell))
}

fn ill_in<'a>(known: &'a Known, statement: &'a Statement) -> Option<&'a Name>
    ensures { option_copied result ≡ spec.ill_in known.now statement.now }
{
    match statement {
        Statement::Head(heading, name, class) => ill_head(known, *heading, name, class),
        Statement::Row(_, cells) => variable_unless(known, are_typed(known, cells.as_slice())),
        Statement::Values(sides) => variable_unless(
            known,
            are_values_typed(known, sides.as_slice()),
        ),
        Statement::Transition(_, _, event) => variable_unless(known, known.is_typed_event(event)),
        _ => known.ill_declaration(statement),
    }
}

#[tactic(auto, using(crate::proofs::Small::small_sides))]
fn outside_in<'a>(known: &'a Known, statement: &'a Statement) -> Option<&'a Name>
    requires constants { IsTrue (list_all side.is_narrow_constant known.now.constants) }
    requires readable { is_statement_readable statement.now ≡ true }
    ensures { option_copied result ≡ spec.outside_in known.now statement.now }
{
    match statement {
        Statement::Values(sides) => variable_unless(
            known,
            are_values_within(known, sides.as_slice()),
        ),
        _ => known.outside_declaration(statement),
    }
}

fn are_cells_narrow(known: &Known, cells: &[DraftCell]) -> bool
    ensures { result ≡ list_all (event.is_narrow_cell known.now) cells.now }
{
    cells.iter().all(|cell| known.is_narrow_cell(cell))
}

fn wide_in<'a>(known: &'a Known, statement: &'a Statement) -> Option<&'a Name>
    ensures { option_copied result ≡ spec.wide_in known.now statement.now }
{
    match statement {
        Statement::Row(_, cells) => variable_unless(
            known,
            are_cells_narrow(known, cells.as_slice()),
        ),
        Statement::Values(sides) => variable_unless(known, are_narrow(known, sides.as_slice())),
        Statement::Transition(_, _, event) => variable_unless(known, known.is_narrow_event(event)),
        _ => None,
    }
}

fn mode_in<'a>(known: &'a Known, statement: &'a Statement) -> Option<&'a Name>
    ensures { option_copied result ≡ spec.mode_in known.now statement.now }
{
    match statement {
        Statement::Row(modes, _) => bad_mode(known, modes.as_slice()),
        Statement::Transition(source, target, _) => bad_transition(known, source, target),
        Statement::End => missing_mode(known),
        _ => None,
    }
}

fn table_in<'a>(known: &'a Known, statement: &'a Statement) -> Option<&'a Name>
    ensures { option_copied result ≡ spec.table_in known.now statement.now }
{
    match statement {
        Statement::Head(heading, name, _) => unless(is_head_placed(known, *heading, name), name),
        Statement::Row(modes, cells) => {
            let right = is_row_placed(known, modes.as_slice(), cells.as_slice());
            variable_unless(known, right)
        }
        Statement::Values(sides) => variable_unless(
            known,
            are_values_placed(known, sides.as_slice()),
        ),
        Statement::Finish => first_bare(known.tables.as_slice(), known.variables.as_slice()),
        _ => None,
    }
}

/// The fault of a line: the first rule that it breaks, with the first name that breaks it.
#[tactic(auto, unfolding(crate::specs::Lines::fault_in))]
fn fault_in<'a>(known: &'a Known, statement: &'a Statement) -> Option<(TypeKind, &'a Name)>
    requires constants { IsTrue (list_all side.is_narrow_constant known.now.constants) }
    requires readable { is_statement_readable statement.now ≡ true }
    ensures { option_map (λ x. (x.0, x.1.now)) result ≡ spec.fault_in known.now statement.now }
{
    if let Some(name) = duplicate_in(known, statement) {
        return Some((TypeKind::Duplicate, name));
    }
    if let Some(name) = unknown_in(known, statement) {
        return Some((TypeKind::Unknown, name));
    }
    if let Some(name) = ill_in(known, statement) {
        return Some((TypeKind::Kind, name));
    }
    if let Some(name) = outside_in(known, statement) {
        return Some((TypeKind::Range, name));
    }
    if let Some(name) = wide_in(known, statement) {
        return Some((TypeKind::Wide, name));
    }
    if let Some(name) = mode_in(known, statement) {
        return Some((TypeKind::Mode, name));
    }
    if let Some(name) = table_in(known, statement) {
        return Some((TypeKind::Table, name));
    }
    None
}

/// Adds what a line says.
#[tactic(auto, unfolding(crate::specs::Lines::after))]
fn add(alloc: Global, known: &mut Known, statement: &Statement) -> Result<(), NoMemory>
    requires { is_statement_readable statement.now ≡ true }
    ensures { OnOk result (known.new ≡ spec.after known.old statement.now) }
{
    match statement {
        Statement::Head(heading, name, class) => {
            add_head(alloc, known, *heading, name, class);
            Ok(())
        }
        Statement::Row(modes, cells) => add_row(alloc, known, modes.as_slice(), cells.as_slice()),
        Statement::Values(sides) => add_values(alloc, known, sides.as_slice()),
        Statement::Transition(source, target, event) => {
            add_transition(alloc, known, source, target, event)
        }
        Statement::End => add_end(known),
        _ => known.declare(alloc, statement),
    }
}

/// Takes one line.
pub(crate) fn take(alloc: Global, known: &mut Known, line: &Numbered) -> Result<(), TypeFault>
    requires constants { IsTrue (list_all side.is_narrow_constant known.old.constants) }
    requires readable { is_statement_readable line.now.statement ≡ true }
    ensures passed { OnOk result (spec.fault_in known.old line.now.statement ≡ None) }
    ensures taken { OnOk result (known.new ≡ spec.after known.old line.now.statement) }
    ensures refused { IfErr result (LineRefuses known.old line.now) }
{
    if let Some((kind, name)) = fault_in(known, &line.statement) {
        return Err(TypeFault::Refused(line.line, kind, name.copy(alloc)?));
    }
    add(alloc, known, &line.statement)?;
    Ok(())
}

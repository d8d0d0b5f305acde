//! The modes of the rows of a table.
ghost use Rattle.std.specs.Prelude.{◌≡◌, false, []};
ghost use Rattle.std.specs.Option.{option_copied};
ghost use Rattle.scr_spec.specs.Over.{modes_of};
ghost use Rattle.scr_scope.specs.Meanings.{seen};
ghost use Rattle.scr_resolve.specs.Tables as spec;

use base::Name;
use scr_scope::{Known, Meaning, is_among, unless};
use scr_spec::{Heading, Kind, Owner, Row, Table};

/// The class of the table whose lines are read now.
pub(crate) fn current_class(known: &Known) -> Option<usize>
    ensures { result ≡ spec.current_class known.now }
{
    match &known.current {
        Some(table) => table.class,
        None => None,
    }
}

fn mode_meant(v: usize, meaning: Meaning) -> Option<u32>
    ensures { result ≡ spec.mode_meant v meaning }
{
    match meaning {
        Meaning::Label(Owner::Class(w), place) => { if v == w { Some(place) } else { None } }
        _ => None,
    }
}

/// The place of the mode of that name in the class with this number.
pub(crate) fn mode_named(known: &Known, v: usize, name: &Name) -> Option<u32>
    ensures { result ≡ spec.mode_named known.now v name.now }
{
    mode_meant(v, known.names.get(name)?)
}

/// Whether the row has the mode.
pub(crate) fn has_mode(mode: i64, row: &Row) -> bool
    ensures { result ≡ spec.has_mode mode row.now }
{
    row.modes.as_slice().contains(&mode)
}

fn is_used(rows: &[Row], mode: i64) -> bool
    ensures { result ≡ spec.is_used rows.now mode }
{
    rows.iter().any(|row| has_mode(mode, row))
}

fn is_used_now(known: &Known, mode: i64) -> bool
    ensures { result ≡ spec.is_used (spec.current_rows known.now) mode }
{
    match &known.current {
        Some(table) => is_used(table.rows.as_slice(), mode),
        None => false,
    }
}

fn is_free(known: &Known, v: usize, name: &Name) -> bool
    ensures { result ≡ spec.is_free known.now v name.now }
{
    match mode_named(known, v, name) {
        Some(place) => !is_used_now(known, i64::from(place)),
        None => false,
    }
}

fn first_bad<'a>(known: &Known, v: usize, names: &'a [Name]) -> Option<&'a Name>
    ensures { option_copied result ≡ spec.first_bad known.now v [] names.now }
{
    for (place, name) in names.iter().enumerate() {
        if !is_free(known, v, name) || is_among(&names[..place], name) {
            return Some(name);
        }
    }
    None
}

/// In a table with a class, the first name that is no mode of it, or stood before in the table.
pub(crate) fn bad_mode<'a>(known: &Known, names: &'a [Name]) -> Option<&'a Name>
    ensures { option_copied result ≡ spec.bad_mode known.now names.now }
{
    match current_class(known) {
        Some(v) => first_bad(known, v, names),
        None => None,
    }
}

fn bad_change<'a>(known: &Known, v: usize, source: &'a Name, target: &'a Name) -> Option<&'a Name>
    ensures { option_copied result ≡ spec.bad_change known.now v source.now target.now }
{
    if mode_named(known, v, source).is_none() {
        return Some(source);
    }
    if mode_named(known, v, target).is_none() {
        return Some(target);
    }
    unless(!source.is_same(target), source)
}

/// The first of the source and the target that is no mode of the class, or the source that is its
/// own target.
pub(crate) fn bad_transition<'a>(
    known: &Known,
    source: &'a Name,
    target: &'a Name,
) -> Option<&'a Name>
    ensures { option_copied result ≡ spec.bad_transition known.now source.now target.now }
{
    match current_class(known) {
        Some(v) => bad_change(known, v, source, target),
        None => None,
    }
}

fn first_missing<'a>(rows: &[Row], names: &'a [Name]) -> Option<&'a Name>
    ensures { option_copied result ≡ spec.first_missing rows.now 0 names.now }
{
    for (place, name) in names.iter().enumerate() {
        if !is_used(rows, place as i64) {
            return Some(name);
        }
    }
    None
}

fn missing_of<'a>(known: &'a Known, rows: &[Row], v: usize) -> Option<&'a Name>
    ensures { option_copied result ≡ spec.first_missing rows.now 0 (modes_of (seen known.now) v) }
{
    match known.variables.get(v) {
        Some(variable) => match &variable.kind {
            Kind::Modes(names) => first_missing(rows, names.as_slice()),
            _ => None,
        },
        None => None,
    }
}

fn missing_in<'a>(known: &'a Known, table: &Table) -> Option<&'a Name>
    ensures { option_copied result ≡ spec.missing_in known.now table.now.heading table.now.class table.now.rows }
{
    match table.heading {
        Heading::Condition => match table.class {
            Some(v) => missing_of(known, table.rows.as_slice(), v),
            None => None,
        },
        _ => None,
    }
}

/// In a condition table with a class, the first mode that is in no row.
pub(crate) fn missing_mode(known: &Known) -> Option<&Name>
    ensures { option_copied result ≡ spec.missing_mode known.now }
{
    match &known.current {
        Some(table) => missing_in(known, table),
        None => None,
    }
}

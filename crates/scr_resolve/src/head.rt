//! The rules of the head of a table.
ghost use Rattle.std.specs.Prelude.{◌≡◌};
ghost use Rattle.std.specs.Option.{option_copied};
ghost use Rattle.scr_spec.specs.Tables.{has_table};
ghost use Rattle.scr_resolve.specs.Tables as spec;

use base::Name;
use scr_scope::{Known, unless};
use scr_spec::{Heading, Table};

/// Whether a table of the variable with this number is there.
pub(crate) fn has_table(tables: &[Table], v: usize) -> bool
    ensures { result ≡ has_table tables.now v }
{
    tables.iter().any(|table| table.variable == v)
}

/// Whether the name stands for no variable that has a table.
pub(crate) fn is_head_new(known: &Known, name: &Name) -> bool
    ensures { result ≡ spec.is_head_new known.now name.now }
{
    match known.variable_named(name) {
        Some(v) => !has_table(known.tables.as_slice(), v),
        None => true,
    }
}

fn is_computed_named(known: &Known, name: &Name) -> bool
    ensures { result ≡ spec.is_computed_named known.now name.now }
{
    match known.variable_of(name) {
        Some(variable) => variable.role.is_computed(),
        None => false,
    }
}

fn is_class_named(known: &Known, name: &Name) -> bool
    ensures { result ≡ spec.is_class_named known.now name.now }
{
    match known.variable_of(name) {
        Some(variable) => variable.role.is_class(),
        None => false,
    }
}

fn ill_class<'a>(known: &Known, class: &'a Option<Name>) -> Option<&'a Name>
    ensures { option_copied result ≡ spec.ill_class known.now class.now }
{
    match class {
        Some(name) => unless(is_class_named(known, name), name),
        None => None,
    }
}

/// The first name of the head that stands for something else than its place asks for.
pub(crate) fn ill_head<'a>(
    known: &Known,
    heading: Heading,
    name: &'a Name,
    class: &'a Option<Name>,
) -> Option<&'a Name>
    ensures { option_copied result ≡ spec.ill_head known.now heading name.now class.now }
{
    match heading {
        Heading::Condition | Heading::Event => {
            if is_computed_named(known, name) {
                ill_class(known, class)
            } else {
                Some(name)
            }
        }
        Heading::Modes => unless(is_class_named(known, name), name),
    }
}

fn is_init_for(heading: Heading, init: Option<i64>) -> bool
    ensures { result ≡ spec.is_init_for heading init }
{
    match heading {
        Heading::Condition => init.is_none(),
        Heading::Event => init.is_some(),
        Heading::Modes => true,
    }
}

/// Whether the variable has `INIT` exactly where a table of this heading asks for it.
pub(crate) fn is_head_placed(known: &Known, heading: Heading, name: &Name) -> bool
    ensures { result ≡ spec.is_head_placed known.now heading name.now }
{
    match known.variable_of(name) {
        Some(variable) => is_init_for(heading, variable.init),
        None => true,
    }
}

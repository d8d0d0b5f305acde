//! The first name that breaks a rule.
ghost use Rattle.std.specs.Prelude.{◌≡◌, [], ◌∷◌};
ghost use Rattle.std.specs.Option.{option_copied};
ghost use Rattle.std.specs.List.{list_any};
ghost use Rattle.std.specs.Str.{bytes_eq};
ghost use Rattle.scr_scope.specs.First as spec;

use crate::names::Names;
use base::Name;

/// The name, unless that is right.
pub fn unless(right: bool, name: &Name) -> Option<&Name>
    ensures { option_copied result ≡ spec.unless right name.now }
{
    if right { None } else { Some(name) }
}

/// Whether the name is among the names.
pub fn is_among(names: &[Name], name: &Name) -> bool
    ensures { result ≡ list_any (bytes_eq name.now) names.now }
{
    names.iter().any(|other| name.is_same(other))
}

/// The first of the names that is declared, or stands before it or among `own`.
fn first_again<'a>(known: &Names, own: &[Name], names: &'a [Name]) -> Option<&'a Name>
    ensures { option_copied result ≡ spec.first_again known.now own.now names.now }
{
    for (place, name) in names.iter().enumerate() {
        if known.get(name).is_some() || is_among(own, name) || is_among(&names[..place], name) {
            return Some(name);
        }
    }
    None
}

/// The first of the name and the names behind it that is declared, or stands before.
pub(crate) fn declared_again<'a>(
    known: &Names,
    name: &'a Name,
    more: &'a [Name],
) -> Option<&'a Name>
    ensures { option_copied result ≡ spec.first_again known.now [] (name.now ∷ more.now) }
{
    if known.get(name).is_some() {
        return Some(name);
    }
    first_again(known, std::slice::from_ref(name), more)
}

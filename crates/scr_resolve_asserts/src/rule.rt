//! The rules of one assertion.
ghost use Rattle.std.specs.Prelude.{◌≡◌, map};
ghost use Rattle.std.specs.Option.{option_copied, option_map};
ghost use Rattle.std.specs.List.{list_any};
ghost use Rattle.std.specs.Str.{bytes_eq};
ghost use Rattle.scr_resolve_asserts.specs.Resolution as spec;

use crate::assertion::Assertion;
use crate::prime::are_primes_compared;
use base::Name;
use scr_parse::DraftAssertion;
use scr_resolve::TypeKind;
use scr_scope::{Known, unless};

fn is_taken(earlier: &[Assertion], name: &Name) -> bool
    ensures { result ≡ list_any (λ a. bytes_eq name.now a.name) earlier.now }
{
    earlier.iter().any(|other| name.is_same(&other.name))
}

#[tactic(auto, using(crate::proofs::Steps::any_named))]
fn duplicate_in<'a>(
    known: &Known,
    earlier: &[Assertion],
    draft: &'a DraftAssertion,
) -> Option<&'a Name>
    ensures { option_copied result ≡ spec.duplicate_in known.now (map (λ a. a.name) earlier.now) draft.now }
{
    let taken = known.names.get(&draft.name).is_some() || is_taken(earlier, &draft.name);
    unless(!taken, &draft.name)
}

fn ill_in<'a>(known: &Known, draft: &'a DraftAssertion) -> Option<&'a Name>
    ensures { option_copied result ≡ spec.ill_in known.now draft.now }
{
    let typed = known.is_typed_cond(&draft.cond) && are_primes_compared(&draft.cond);
    unless(typed, &draft.name)
}

/// The fault of a line behind these assertions: the first rule that it breaks, with the name that
/// breaks it.
#[tactic(auto, unfolding(crate::specs::Resolution::fault_in))]
pub(crate) fn fault_in<'a>(
    known: &Known,
    earlier: &[Assertion],
    draft: &'a DraftAssertion,
) -> Option<(TypeKind, &'a Name)>
    ensures { option_map (λ x. (x.0, x.1.now)) result
        ≡ spec.fault_in known.now (map (λ a. a.name) earlier.now) draft.now }
{
    if let Some(name) = duplicate_in(known, earlier, draft) {
        return Some((TypeKind::Duplicate, name));
    }
    if let Some(name) = known.unknown_cond(&draft.cond) {
        return Some((TypeKind::Unknown, name));
    }
    if let Some(name) = ill_in(known, draft) {
        return Some((TypeKind::Kind, name));
    }
    if let Some(name) = unless(known.is_narrow_cond(&draft.cond), &draft.name) {
        return Some((TypeKind::Wide, name));
    }
    None
}

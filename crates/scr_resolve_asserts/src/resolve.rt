//! Resolves the names in assertions over a specification.
ghost use Rattle.std.specs.Prelude.{◌≡◌, MatchResult, IfOk};
ghost use Rattle.scr_spec.specs.Shown.{data_of};
ghost use Rattle.scr_resolve_asserts.specs.Resolution as resolution;

use crate::assertion::Assertion;
use crate::prime::has_primed_name;
use crate::rule::fault_in;
use base::NoMemory;
use scr_parse::DraftAssertion;
use scr_resolve::TypeFault;
use scr_scope::Known;
use scr_spec::Spec;
use sqlite_items::Items;
use std::alloc::Global;

fn assertion_of(alloc: Global, known: &Known, draft: &DraftAssertion) -> Result<Assertion, NoMemory>
    ensures { IfOk result (λ made. made ≡ resolution.assertion_of known.now draft.now) }
{
    let cond = known.cond_of(alloc, &draft.cond)?;
    let two = has_primed_name(&cond);
    Ok(Assertion {
        name: draft.name.copy(alloc)?,
        cond,
        two,
    })
}

/// The assertions that the drafts make over these names, or the first of them that breaks a rule.
fn resolve_over(
    alloc: Global,
    known: &Known,
    drafts: &[DraftAssertion],
) -> Result<Items<Assertion>, TypeFault>
    ensures { MatchResult result
        (resolution.AreResolvedOver known.now drafts.now)
        (resolution.AreRefusedOver known.now drafts.now) }
{
    let mut assertions = Items::new(alloc);
    for draft in drafts {
        if let Some((kind, name)) = fault_in(known, assertions.as_slice(), draft) {
            return Err(TypeFault::Refused(draft.line, kind, name.copy(alloc)?));
        }
        assertions.push(assertion_of(alloc, known, draft)?)?;
    }
    Ok(assertions)
}

/// The assertions that the drafts make of the specification, or the first of them that breaks a
/// rule: its line, the rule and the name. On one line the rules are tried in the order of
/// `TypeKind`, of which `Duplicate`, `Unknown`, `Kind` and `Wide` may come.
pub fn resolve_assertions(
    alloc: Global,
    spec: &Spec,
    drafts: &[DraftAssertion],
) -> Result<Items<Assertion>, TypeFault>
    ensures { MatchResult result
        (resolution.AreResolved (data_of spec.now) drafts.now)
        (resolution.AreRefused (data_of spec.now) drafts.now) }
{
    let known = Known::of_spec(alloc, spec)?;
    resolve_over(alloc, &known, drafts)
}

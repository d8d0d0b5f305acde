//! Resolves a draft line by line.
ghost use Rattle.std.specs.Prelude.{◌≡◌, true, MatchResult};
ghost use Rattle.std.specs.List.{list_all};
ghost use Rattle.scr_parse.specs.Readable.{IsReadable, is_line_readable};
ghost use Rattle.scr_spec.specs.Shown.{data_of};
ghost use Rattle.scr_spec.specs.Sound.{IsSound};
ghost use Rattle.scr_scope.specs.Meanings.{nothing, seen};
ghost use Rattle.scr_resolve.specs.Draft as spec;

use crate::fault::TypeFault;
use crate::line::take;
use scr_parse::{Draft, Numbered};
use scr_scope::Known;
use scr_spec::Spec;
use std::alloc::Global;

/// What the lines say, or the first of them that is refused.
fn known_of(alloc: Global, lines: &[Numbered]) -> Result<Known, TypeFault>
    requires { list_all is_line_readable lines.now ≡ true }
    ensures { MatchResult result (spec.Resolves nothing lines.now) (spec.DraftRefuses lines.now) }
{
    let mut known = Known::new(alloc)?;
    for line in lines {
        match take(alloc, &mut known, line) {
            Ok(()) => {}
            Err(fault) => return Err(fault),
        }
    }
    Ok(known)
}

/// The specification that the lines say.
fn spec_of(known: Known) -> Spec
    requires { IsSound (seen known) }
    ensures { data_of result ≡ seen known }
{
    let Known {
        title,
        names: _,
        types,
        constants,
        variables,
        tables,
        current: _,
    } = known;
    Spec {
        name: title,
        types,
        constants,
        variables,
        tables,
    }
}

/// The specification that a draft spells, or its first line that breaks a rule. Lines count from
/// 1. On one line the rules are tried in the order of `TypeKind`, and the name is the first on the
/// line that breaks the rule, or that of the table's variable.
#[tactic(auto, using(crate::proofs::Sound::sound))]
pub fn resolve(alloc: Global, draft: &Draft) -> Result<Spec, TypeFault>
    requires { IsReadable draft.now.statements }
    ensures { MatchResult result
        (λ made. spec.DraftResolves draft.now.statements (data_of made))
        (spec.DraftRefuses draft.now.statements) }
{
    match known_of(alloc, draft.statements.as_slice()) {
        Ok(known) => Ok(spec_of(known)),
        Err(fault) => Err(fault),
    }
}

/// A draft spells one specification, or is refused in one way.
pub fn one_resolution()
    ensures { spec.OneResolution }
{}

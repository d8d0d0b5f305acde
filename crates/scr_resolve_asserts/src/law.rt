//! The assertions of a text, or why it is refused.
ghost use Rattle.scr_resolve_asserts.specs.Resolution.{OneResolution};
ghost use Rattle.scr_resolve_asserts.specs.Texts.{OneReading, ResolvedAreOver};

/// Assertions that are read are resolved in one way or refused in one way, and never neither.
#[tactic(auto, using(crate::proofs::Outcome::one_resolution))]
pub fn one_resolution()
    ensures { OneResolution }
{}

/// Over a specification each text makes its assertions or is refused for one thing, never both and
/// never neither.
#[tactic(auto, using(crate::proofs::Readings::one_reading))]
pub fn one_reading()
    ensures { OneReading }
{}

/// The conditions of the assertions are ones over the specification, and `two` tells of a primed
/// name in them.
#[tactic(auto, using(crate::proofs::Readings::resolved_are_over))]
pub fn resolved_are_over()
    ensures { ResolvedAreOver }
{}

//! The law of what is derived.
ghost use Rattle.cmd_invariants.specs.Laws.{OneDerivation};

/// A file has one answer of `invariants`, and never none. For a text that passes its checks each
/// candidate that is printed as found holds in every state of every run of the specification that the
/// text spells. Where each class is decided it is answered with `Done`.
pub fn one_derivation()
    ensures { OneDerivation }
{}

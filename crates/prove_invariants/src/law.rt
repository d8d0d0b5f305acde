//! Laws of derived invariants.
ghost use Rattle.prove_invariants.specs.Laws.{InvariantsHold, OneDerived};

/// In a specification that passed its checks each invariant that is derived holds in every state of
/// every run.
#[tactic(auto, using(crate::proofs::Sound::invariants_hold))]
pub fn invariants_hold()
    ensures { InvariantsHold }
{}

/// One thing is derived for a class, and never none.
#[tactic(auto, using(crate::proofs::Once::one_derived))]
pub fn one_derived()
    ensures { OneDerived }
{}

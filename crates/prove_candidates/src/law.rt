//! The law of candidates.
ghost use Rattle.prove_candidates.specs.Laws.{OneList};

/// A class has one list of candidates, and never none.
#[tactic(auto, using(crate::proofs::Once::one_list))]
pub fn one_list()
    ensures { OneList }
{}

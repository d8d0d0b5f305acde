//! Laws of assertions.
ghost use Rattle.prove_asserts.specs.Laws.{AssertionsHold, DerivedLemmas, OneJudgement, FullPairsTell, TestsTell, VerdictsTell};

/// A one-state assertion that is proved is true in every state of every run, and a two-state one
/// between every two neighbouring states; one that is false at first is false in the first state.
#[tactic(auto, using(crate::proofs::Sound::assertions_hold))]
pub fn assertions_hold()
    ensures { AssertionsHold }
{}

/// What is derived holds in every state of every run, so it may be taken for granted; it is one list,
/// and never none.
#[tactic(auto, using(crate::proofs::Granted::derived_lemmas))]
pub fn derived_lemmas()
    ensures { DerivedLemmas }
{}

/// An assertion has one verdict.
#[tactic(auto, using(crate::proofs::Once::one_judgement))]
pub fn one_judgement()
    ensures { OneJudgement }
{}

/// The formulas of a full pair are all true exactly there.
#[tactic(auto, using(crate::proofs::Pairs::full_pairs_tell))]
pub fn full_pairs_tell()
    ensures { FullPairsTell }
{}

/// The formula of a test is true exactly where a change breaks the assertion, and its witness shows
/// the least such change.
#[tactic(auto, using(crate::proofs::Tells::tests_tell))]
pub fn tests_tell()
    ensures { TestsTell }
{}

/// A verdict tells what is so of every run, where what is taken for granted holds in every state of
/// every run; one that is unproved has the least codes of the first change that breaks the assertion.
#[tactic(auto, using(crate::proofs::Verdicts::verdicts_tell))]
pub fn verdicts_tell()
    ensures { VerdictsTell }
{}

//! Derived invariants.

use prove_candidates::Candidate;
use sqlite_items::Items;

/// A candidate that passed, with the round in which it did. Rounds count from 1.
#[derive(Drop)]
pub struct Found {
    pub candidate: Candidate,
    pub round: u64,
}

/// What was derived for a class: every candidate that passed, in their order; or the round and the
/// candidate at whose test the limit was passed.
#[derive(Drop)]
pub enum Derived {
    All(Items<Found>),
    Undecided(u64, Candidate),
}

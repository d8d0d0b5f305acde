//! What is derived for classes.

use prove_invariants::Derived;

/// What was derived for the class with this number.
#[derive(Drop)]
pub(crate) struct Derivation {
    pub class: usize,
    pub derived: Derived,
}

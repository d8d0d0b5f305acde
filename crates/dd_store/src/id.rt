//! The numbers of leaves and nodes.

use std::marker::Model;

/// A leaf or a node of a store. Contracts see its number: 0 is the leaf false, 1 the leaf true, and
/// the nodes follow in the order in which they were made.
#[derive(Clone, Copy, PartialEq, Eq, Hash)]
pub struct Id {
    pub(crate) number: u32,
}

impl Model for Id {
    ghost use Rattle.std.specs.Prelude.{ℕ};

    ghost Value = { ℕ };

    ghost view = { λ i. i.number };

    ghost inverse = { λ n. record { number = n } };
}

//! Relations of numbers.
ghost use Rattle.std.specs.Prelude.{◌≡◌};
ghost use Rattle.base.specs.Relations.{stands_in};

/// How two sides of a comparison are compared.
#[derive(Clone, Copy, PartialEq, Eq)]
pub enum Relation {
    Equal,
    Differ,
    Less,
    AtMost,
    Greater,
    AtLeast,
}

/// Whether the numbers stand in the relation.
pub fn holds_between(left: i64, relation: Relation, right: i64) -> bool
    ensures { result ≡ stands_in relation left right }
{
    match relation {
        Relation::Equal => left == right,
        Relation::Differ => left != right,
        Relation::Less => left < right,
        Relation::AtMost => left <= right,
        Relation::Greater => left > right,
        Relation::AtLeast => left >= right,
    }
}

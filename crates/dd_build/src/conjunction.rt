//! Conjunctions whose members stand in two places, of which the second may be the same for many.

ghost use Rattle.std.specs.Prelude.{◌≡◌, ◌<◌, ◌++◌, length, List, IfOk, OnErr};
ghost use Rattle.dd_formula.specs.declared.formula.Formula.{Formula};
ghost use Rattle.dd_formula.specs.declared.formula.Formula.TheVariants.{And};
ghost use Rattle.dd_build.specs.Built.{Keeps};
ghost use Rattle.dd_build.specs.Formulas.{AreFormulasOver, listing_trees, AreOver, IsListed, AreWithin};
ghost use Rattle.dd_build.specs.Stored.{AreStored, IsListedSharing};

use crate::formula::{Connective, build, build_joined};
use crate::operations::and;
use dd_formula::Formula;
use dd_store::{Id, Store, StoreFault};

/// The tree of a conjunction, and those of its members in the second place.
#[derive(Drop)]
pub struct Shared {
    pub whole: Id,
    pub rest: Vec<Id>,
}

/// The tree of the conjunction of members that stand in two places, built by its listing, in which
/// those of the second come behind those of the first; and the trees of the second ones, for
/// `build_again`.
pub fn build_shared(
    store: &mut Store,
    first: &[Formula],
    rest: &[Formula],
) -> Result<Shared, StoreFault>
    requires some { 0 < length first.now }
    requires first { AreFormulasOver store.old.domains first.now }
    requires rest { AreFormulasOver store.old.domains rest.now }
    ensures built { IfOk result (IsListedSharing store.old store.new first.now rest.now) }
    ensures full { result ≡ Err StoreFault.Full → AreOver store.old (listing_trees store.old (And (first.now ++ rest.now))) }
    ensures within { OnErr result (AreWithin store.old store.new (listing_trees store.old (And (first.now ++ rest.now)))) }
    ensures keeps { Keeps store.old store.new }
{
    let mut whole = build_joined(store, Connective::All, first)?;
    let mut ids = Vec::new(store.allocator());
    for member in rest {
        let id = build(store, member)?;
        whole = and(store, whole, id)?;
        ids.push(id)?;
    }
    Ok(Shared { whole, rest: ids })
}

/// The tree of the conjunction of members that stand in two places.
pub fn build_conjunction(
    store: &mut Store,
    first: &[Formula],
    rest: &[Formula],
) -> Result<Id, StoreFault>
    requires first { AreFormulasOver store.old.domains first.now }
    requires rest { AreFormulasOver store.old.domains rest.now }
    ensures built { IfOk result (IsListed store.old store.new (And (first.now ++ rest.now))) }
    ensures full { result ≡ Err StoreFault.Full → AreOver store.old (listing_trees store.old (And (first.now ++ rest.now))) }
    ensures within { OnErr result (AreWithin store.old store.new (listing_trees store.old (And (first.now ++ rest.now)))) }
    ensures keeps { Keeps store.old store.new }
{
    if first.is_empty() {
        return build_joined(store, Connective::All, rest);
    }
    let shared = build_shared(store, first, rest)?;
    Ok(shared.whole)
}

/// The same where the members in the second place have been listed: `ids` has their trees.
pub fn build_again(store: &mut Store, first: &[Formula], ids: &[Id]) -> Result<Id, StoreFault>
    ghost rest: { List Formula }
    requires some { 0 < length first.now }
    requires first { AreFormulasOver store.old.domains first.now }
    requires rest { AreStored store.old rest ids.now }
    ensures built { IfOk result (IsListed store.old store.new (And (first.now ++ rest))) }
    ensures full { result ≡ Err StoreFault.Full → AreOver store.old (listing_trees store.old (And (first.now ++ rest))) }
    ensures within { OnErr result (AreWithin store.old store.new (listing_trees store.old (And (first.now ++ rest)))) }
    ensures keeps { Keeps store.old store.new }
{
    let mut whole = build_joined(store, Connective::All, first)?;
    for id in ids {
        whole = and(store, whole, *id)?;
    }
    Ok(whole)
}

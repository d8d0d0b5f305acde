//! The least valuation that makes a tree of a store true.
#![tactic(auto)]

ghost use Rattle.std.specs.Prelude.{◌≡◌, ◌≢◌, ◌<◌, ◌≤◌, true, false, length};
ghost use Rattle.dd_tree.specs.Tree.{leaf};
ghost use Rattle.dd_store.specs.Runs.{children_of, AreJoinedFrom};
ghost use Rattle.dd_store.specs.Held.{trees, at, IsKnown};
ghost use Rattle.dd_store.specs.Kept.{IsHeld};
ghost use Rattle.dd_witness.specs.Least.{IsLeast, IsNeverTrue};
ghost use Rattle.dd_witness.specs.Descent.{IsFirstOther, AreLowest, IsReady, IsLeastFrom};

use dd_store::{Id, Store, Stretch, View};

/// A position of a level, and the child there.
#[derive(Clone, Copy)]
struct Choice {
    position: usize,
    child: Id,
}

/// The first position whose child is not the given one. Neighbouring runs have different children, so
/// it begins the first run or the second.
fn first_other(runs: &[Stretch], id: Id) -> Choice
    requires joined { AreJoinedFrom 0 runs.now }
    requires many { 1 < length runs.now }
    requires few { length (children_of runs.now) ≤ 8192 }
    ensures { IsFirstOther (children_of runs.now) id result }
{
    let first = runs[0];
    if first.child != id {
        return Choice {
            position: 0,
            child: first.child,
        };
    }
    Choice {
        position: first.last as usize + 1,
        child: runs[1].child,
    }
}

/// Writes the least code of each level.
fn write_lowest(store: &Store, out: &mut [i64])
    requires held { IsHeld store.now }
    requires long { length out.old ≡ length store.now.domains }
    ensures long { length out.new ≡ length out.old }
    ensures lowest { AreLowest store.now.domains 0 out.new }
{
    for (level, code) in out.iter_mut().enumerate() {
        *code = store.code(level, 0);
    }
}

/// Writes the least codes that make a tree true, from a level on. A tree other than the leaf false can
/// be true, since no split has equal children; so there is no way back up.
fn descend(store: &Store, id: Id, from: usize, out: &mut [i64])
    requires { IsReady store.now id from out.old }
    ensures { IsLeastFrom store.now id from out.old out.new }
{
    if let View::Node(level, runs) = store.node(id) {
        let choice = first_other(runs, Store::leaf(false));
        out[level] = store.code(level, choice.position);
        descend(store, choice.child, level + 1, out);
    }
}

/// Whether a tree is the leaf false.
fn is_false(store: &Store, id: Id) -> bool
    requires { IsKnown store.now id }
    ensures yes { result ≡ true → at (trees store.now) id ≡ leaf false }
    ensures no { result ≡ false → at (trees store.now) id ≢ leaf false }
    ensures held { IsHeld store.now }
{
    matches!(store.node(id), View::Leaf(false))
}

/// Whether a tree is true at some valuation. `out`, with one place per level, then holds the codes of
/// the lexicographically least one, and else stays as it is.
pub fn least(store: &Store, id: Id, out: &mut [i64]) -> bool
    requires known { IsKnown store.now id }
    requires long { length out.old ≡ length store.now.domains }
    ensures found { result ≡ true → IsLeast store.now.domains (at (trees store.now) id) out.new }
    ensures none { result ≡ false → IsNeverTrue store.now.domains (at (trees store.now) id) }
    ensures unchanged { result ≡ false → out.new ≡ out.old }
{
    if is_false(store, id) {
        return false;
    }
    write_lowest(store, out);
    descend(store, id, 0, out);
    true
}

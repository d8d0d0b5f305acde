//! The tree of a linear equation or inequality.
//!
//! For each place in its terms the subtotals fall into intervals, over which what is left is one tree
//! (Abío, Nieuwenhuis, Oliveras, Rodríguez-Carbonell and Mayer-Eichberger, "A New Look at BDDs for
//! Pseudo-Boolean Constraints", JAIR 2012). So each tree is made once, by its runs.

ghost use Rattle.std.specs.Prelude.{◌≡◌, ◌≢◌, ◌<◌, ◌≤◌, ◌^◌, pos, unsigned_abs, length, slice_index, IfOk, IfSome, OnOk, OnErr};
ghost use Rattle.dd_formula.specs.Truth.{meets_zero};
ghost use Rattle.dd_store.specs.Held.{sizes};
ghost use Rattle.dd_store.specs.Atoms.{linear_of};
ghost use Rattle.dd_store.specs.Kept.{IsHeld};
ghost use Rattle.dd_build.specs.Built.{Keeps, IsOver, IsBuilt, IsWithin};
ghost use Rattle.dd_build.specs.Atoms.{atom_of, IsAtomOver};
ghost use Rattle.dd_build.specs.Sums.{AreOrderedTerms, rest_at, IsSubtotal, IsNextSubtotal, term_of};
ghost use Rattle.dd_build.specs.Tails.{AreTails};
ghost use Rattle.dd_build.specs.Intervals.{IsSteady, IsAlike, IsInRoom, IsWithinBoth, IsRest, AreIntervals};

use crate::interval::{FAR, Intervals, Rest, Room, Subtotal};
use crate::reading::size_at;
use crate::tail::{Tail, settle, tails_of};
use crate::terms::ordered_terms;
use base::NoMemory;
use dd_formula::{Linear, Op, Term};
use dd_store::{AtomKey, Id, Store, StoreFault, Stretch};
use std::alloc::Global;

/// Whether a sum compares with 0 as the operation asks.
fn meets(op: Op, sum: i64) -> bool
    ensures { result ≡ meets_zero op sum }
{
    match op {
        Op::Eq => sum == 0,
        Op::Le => sum <= 0,
    }
}

/// How far a sum compares with 0 alike.
fn room_alike(op: Op, sum: i64) -> Room
    ensures { IsAlike op sum result }
{
    let size = sum.unsigned_abs();
    if sum > 0 {
        return Room {
            below: size - 1,
            above: FAR,
        };
    }
    match op {
        Op::Le => Room {
            below: FAR,
            above: size,
        },
        Op::Eq if size == 0 => Room { below: 0, above: 0 },
        Op::Eq => Room {
            below: FAR,
            above: size - 1,
        },
    }
}

/// How many steps of a factor, up to a limit, stay in a room.
fn steps_within(room: Room, factor: i64, limit: usize) -> usize
    requires { factor ≢ pos 0 }
    ensures within { result ≤ limit }
    ensures in_room { IsInRoom room factor result }
{
    let length = if factor > 0 { room.above } else { room.below };
    let step = factor.unsigned_abs();
    // Most intervals are narrower than a step, and then no division is needed.
    if length < step {
        return 0;
    }
    limit.min((length / step) as usize)
}

/// A room within another one and within that of a child, which so many steps of a factor stay in.
fn within_both(room: Room, child: Room, factor: i64, steps: usize) -> Room
    requires { IsInRoom child factor steps }
    ensures { IsWithinBoth room child factor steps result }
{
    let moved = factor.unsigned_abs() * steps as u64;
    if factor > 0 {
        return Room {
            below: room.below.min(child.below),
            above: room.above.min(child.above - moved),
        };
    }
    Room {
        below: room.below.min(child.below - moved),
        above: room.above.min(child.above),
    }
}

/// The subtotal with the term at a position of its level.
fn next_subtotal(store: &Store, terms: &[Term], from: Subtotal, position: usize) -> Subtotal
    requires ordered { AreOrderedTerms 0 (length store.now.domains) terms.now }
    requires from { IsSubtotal store.now.domains terms.now from }
    requires left { from.place < length terms.now }
    requires inside { position < slice_index (sizes store.now) (term_of terms.now from.place).level }
    ensures { IsNextSubtotal store.now.domains terms.now from position result }
{
    let term = terms[from.place];
    Subtotal {
        place: from.place + 1,
        sum: from.sum + term.factor * store.code(term.level, position),
    }
}

/// The leaf that is left of a sum after a subtotal, and how far it stays, where the range or the divisor of
/// what the terms add tells.
fn leaf_at(store: &Store, terms: &[Term], tails: &[Tail], op: Op, from: Subtotal) -> Option<Rest>
    requires held { IsHeld store.now }
    requires tails { AreTails store.now.domains terms.now (length terms.now) tails.now }
    requires from { IsSubtotal store.now.domains terms.now from }
    ensures { IfSome result (IsRest store.now op terms.now from) }
{
    store.reveal();
    let tail = tails[terms.len() - from.place];
    let settled = settle(op, tail, from.sum)?;
    Some(Rest {
        id: Store::leaf(settled.value),
        room: settled.room,
    })
}

/// The tree of what is left of a sum after a subtotal, and how far it stays.
fn rest(
    store: &mut Store,
    intervals: &mut Intervals,
    terms: &[Term],
    tails: &[Tail],
    op: Op,
    from: Subtotal,
) -> Result<Rest, StoreFault>
    requires held { IsHeld store.old }
    requires ordered { AreOrderedTerms 0 (length store.old.domains) terms.now }
    requires tails { AreTails store.old.domains terms.now (length terms.now) tails.now }
    requires from { IsSubtotal store.old.domains terms.now from }
    requires intervals { AreIntervals store.old op terms.now intervals.old.known.items }
    ensures built { IfOk result (λ rest. IsBuilt store.old store.new (rest_at store.old.domains op terms.now from) rest.id) }
    ensures steady { IfOk result (λ rest. IsSteady store.old.domains op terms.now from rest.room) }
    ensures full { result ≡ Err StoreFault.Full → IsOver store.old (rest_at store.old.domains op terms.now from) }
    ensures within { OnErr result (IsWithin store.old store.new (rest_at store.old.domains op terms.now from)) }
    ensures keeps { Keeps store.old store.new }
    ensures intervals { OnOk result (AreIntervals store.new op terms.now intervals.new.known.items) }
{
    if from.place == terms.len() {
        return Ok(Rest {
            id: Store::leaf(meets(op, from.sum)),
            room: room_alike(op, from.sum),
        });
    }
    if let Some(leaf) = leaf_at(store, terms, tails, op, from) {
        return Ok(leaf);
    }
    if let Some(known) = intervals.find(from) {
        return Ok(known);
    }
    let Term { factor, level } = terms[from.place];
    let size = size_at(store, level);
    let mut runs = Vec::new(store.allocator());
    let mut room = Room {
        below: FAR,
        above: FAR,
    };
    let mut position = 0;
    while position < size {
        let next = next_subtotal(store, terms, from, position);
        let child = rest(store, intervals, terms, tails, op, next)?;
        let steps = steps_within(child.room, factor, size - 1 - position);
        room = within_both(room, child.room, factor, steps);
        runs.push(Stretch {
            last: (position + steps) as u32,
            child: child.id,
        })?;
        position = position + steps + 1;
    }
    let id = store.mk(level, runs.as_slice())?;
    intervals.keep(from, Rest { id, room })?;
    Ok(Rest { id, room })
}

/// The tree of an atom, made from its terms.
fn make_atom(store: &mut Store, a: &Linear) -> Result<Id, StoreFault>
    requires { IsAtomOver store.old.domains a.now }
    ensures built { IfOk result (IsBuilt store.old store.new (atom_of store.old a.now)) }
    ensures full { result ≡ Err StoreFault.Full → IsOver store.old (atom_of store.old a.now) }
    ensures within { OnErr result (IsWithin store.old store.new (atom_of store.old a.now)) }
    ensures keeps { Keeps store.old store.new }
{
    let terms = ordered_terms(store, a.terms.as_slice())?;
    let ordered = terms.as_slice();
    let tails = tails_of(store, ordered)?;
    let mut intervals = Intervals::new(store.allocator());
    let from = Subtotal {
        place: 0,
        sum: a.constant,
    };
    let whole = rest(store, &mut intervals, ordered, tails.as_slice(), a.op, from)?;
    Ok(whole.id)
}

/// What a store keeps an atom's tree by.
fn key_of_atom(alloc: Global, a: &Linear) -> Result<AtomKey, NoMemory>
    ensures { IfOk result (λ key. linear_of key ≡ a.now) }
{
    let terms = Vec::from_slice(alloc, a.terms.as_slice())?;
    Ok(AtomKey {
        terms,
        constant: a.constant,
        op: a.op,
    })
}

/// The tree of an atom. One that was made before in the store is not made again.
pub fn atom(store: &mut Store, a: &Linear) -> Result<Id, StoreFault>
    requires { IsAtomOver store.old.domains a.now }
    ensures built { IfOk result (IsBuilt store.old store.new (atom_of store.old a.now)) }
    ensures full { result ≡ Err StoreFault.Full → IsOver store.old (atom_of store.old a.now) }
    ensures within { OnErr result (IsWithin store.old store.new (atom_of store.old a.now)) }
    ensures keeps { Keeps store.old store.new }
{
    store.reveal();
    let key = key_of_atom(store.allocator(), a)?;
    if let Some(id) = store.atom(&key) {
        return Ok(id);
    }
    let id = make_atom(store, a)?;
    store.note_atom(key, id);
    Ok(id)
}

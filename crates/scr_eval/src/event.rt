//! Events between two states.
ghost use Rattle.std.specs.Prelude.{◌≡◌, IsTrue};
ghost use Rattle.scr_spec.specs.Shown.{data_of};
ghost use Rattle.scr_spec.specs.Domains.{IsTyped};
ghost use Rattle.scr_spec.specs.Events.{change_holds, guard_holds, prim_holds, event_true, is_change_over, is_guard_over, is_prim_over, is_event_over};

use crate::cond_holds;
use scr_spec::{Change, Cond, Event, Primitive, Spec, State};

fn change_holds_at(spec: &Spec, change: &Change, old: &State, new: &State) -> bool
    requires old_typed { IsTyped (data_of spec.now) old.now.codes }
    requires new_typed { IsTyped (data_of spec.now) new.now.codes }
    requires over { IsTrue (is_change_over (data_of spec.now) change.now) }
    ensures { result ≡ change_holds (data_of spec.now) old.now.codes new.now.codes change.now }
{
    match change {
        Change::Becomes(c) => !cond_holds(spec, c, old) && cond_holds(spec, c, new),
        Change::Ceases(c) => cond_holds(spec, c, old) && !cond_holds(spec, c, new),
        Change::Changes(v) => old.codes.as_slice()[*v] != new.codes.as_slice()[*v],
        Change::Never => false,
    }
}

fn guard_holds_at(spec: &Spec, guard: &Option<Cond>, old: &State) -> bool
    requires typed { IsTyped (data_of spec.now) old.now.codes }
    requires over { IsTrue (is_guard_over (data_of spec.now) guard.now) }
    ensures { result ≡ guard_holds (data_of spec.now) old.now.codes guard.now }
{
    match guard {
        None => true,
        Some(c) => cond_holds(spec, c, old),
    }
}

fn prim_holds_at(spec: &Spec, prim: &Primitive, old: &State, new: &State) -> bool
    requires old_typed { IsTyped (data_of spec.now) old.now.codes }
    requires new_typed { IsTyped (data_of spec.now) new.now.codes }
    requires over { IsTrue (is_prim_over (data_of spec.now) prim.now) }
    ensures { result ≡ prim_holds (data_of spec.now) old.now.codes new.now.codes prim.now }
{
    change_holds_at(spec, &prim.change, old, new) && guard_holds_at(spec, &prim.guard, old)
}

/// Whether an event happens between an old and a new state.
pub fn event_holds(spec: &Spec, e: &Event, old: &State, new: &State) -> bool
    requires old_typed { IsTyped (data_of spec.now) old.now.codes }
    requires new_typed { IsTyped (data_of spec.now) new.now.codes }
    requires over { IsTrue (is_event_over (data_of spec.now) e.now) }
    ensures { result ≡ event_true (data_of spec.now) old.now.codes new.now.codes e.now }
{
    for prim in e.prims.as_slice() {
        if prim_holds_at(spec, prim, old, new) {
            return true;
        }
    }
    false
}

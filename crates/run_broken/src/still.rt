//! States at which a step that changes nothing breaks an assertion of two states.
ghost use Rattle.std.specs.Prelude.{IsTrue};
ghost use Rattle.scr_spec.specs.Over.{is_cond_over};
ghost use Rattle.run_broken.specs.Breaks.{broken_still};

use run_reach::{Target, cond_holds_between};
use scr_spec::{Cond, Spec, State};

/// An assertion of two states, of which it is sought that a step that changes nothing breaks it.
#[derive(Clone, Copy)]
pub(crate) struct IsBrokenStill<'a> {
    pub cond: &'a Cond,
}

impl Target for IsBrokenStill<'_> {
    ghost fits = { λ it spec. IsTrue (is_cond_over spec it.cond.now) };

    ghost sought = { λ it spec. broken_still spec it.cond.now };

    fn is_met_at_first(&self, spec: &Spec, first: &State) -> bool {
        !cond_holds_between(spec, self.cond, first, first)
    }

    fn is_met(&self, spec: &Spec, _old: &State, new: &State) -> bool {
        !cond_holds_between(spec, self.cond, new, new)
    }
}

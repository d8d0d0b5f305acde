//! Truth of conditions.
ghost use Rattle.std.specs.Prelude.{◌≡◌, IsTrue};
ghost use Rattle.std.specs.List.{list_all, list_any};
ghost use Rattle.scr_spec.specs.Shown.{data_of};
ghost use Rattle.scr_spec.specs.Domains.{IsTyped};
ghost use Rattle.scr_spec.specs.Meaning.{is_true};
ghost use Rattle.scr_spec.specs.Over.{is_cond_over};

use crate::expr_value;
use base::holds_between;
use scr_spec::{Cond, Spec, State};

/// Whether a condition is true at a state.
#[cycle(holds)]
#[tactic(auto, using(scr_spec::proofs::Laws::cond_laws, scr_spec::specs::declared::cond::Cond::TheViews::the_lemmas))]
pub fn cond_holds(spec: &Spec, c: &Cond, at: &State) -> bool
    requires typed { IsTyped (data_of spec.now) at.now.codes }
    requires over { IsTrue (is_cond_over (data_of spec.now) c.now) }
    ensures { result ≡ is_true (data_of spec.now) at.now.codes c.now }
{
    match c {
        Cond::Truth(b) => *b,
        Cond::Holds(v) => at.codes.as_slice()[*v] == 1,
        Cond::Compare(left, relation, right) => holds_between(
            expr_value(spec, left, at, at),
            *relation,
            expr_value(spec, right, at, at),
        ),
        Cond::Not(c) => !cond_holds(spec, c.get(), at),
        Cond::And(cs) => all_hold(spec, cs.as_slice(), at),
        Cond::Or(cs) => any_holds(spec, cs.as_slice(), at),
    }
}

#[cycle(holds)]
fn all_hold(spec: &Spec, cs: &[Cond], at: &State) -> bool
    requires typed { IsTyped (data_of spec.now) at.now.codes }
    requires over { IsTrue (list_all (is_cond_over (data_of spec.now)) cs.now) }
    ensures { result ≡ list_all (is_true (data_of spec.now) at.now.codes) cs.now }
{
    for c in cs {
        if !cond_holds(spec, c, at) {
            return false;
        }
    }
    true
}

#[cycle(holds)]
fn any_holds(spec: &Spec, cs: &[Cond], at: &State) -> bool
    requires typed { IsTyped (data_of spec.now) at.now.codes }
    requires over { IsTrue (list_all (is_cond_over (data_of spec.now)) cs.now) }
    ensures { result ≡ list_any (is_true (data_of spec.now) at.now.codes) cs.now }
{
    for c in cs {
        if cond_holds(spec, c, at) {
            return true;
        }
    }
    false
}

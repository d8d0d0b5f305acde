//! Truth of conditions between two states.
ghost use Rattle.std.specs.Prelude.{◌≡◌, IsTrue};
ghost use Rattle.std.specs.List.{list_all, list_any};
ghost use Rattle.scr_spec.specs.Shown.{data_of};
ghost use Rattle.scr_spec.specs.Domains.{IsTyped};
ghost use Rattle.scr_spec.specs.Over.{is_cond_over};
ghost use Rattle.prove_formula.specs.Between.{is_true_between};

use base::holds_between;
use scr_eval::expr_value;
use scr_spec::{Cond, Spec, State};

/// Whether a condition is true between two states: unprimed names are read in the old one, primed names
/// in the new.
#[cycle(holds)]
#[tactic(auto, using(crate::proofs::TruthBetween::between_laws, scr_spec::proofs::Laws::cond_laws, scr_spec::specs::declared::cond::Cond::TheViews::the_lemmas))]
pub fn cond_holds_between(spec: &Spec, c: &Cond, old: &State, new: &State) -> bool
    requires old_typed { IsTyped (data_of spec.now) old.now.codes }
    requires new_typed { IsTyped (data_of spec.now) new.now.codes }
    requires over { IsTrue (is_cond_over (data_of spec.now) c.now) }
    ensures { result ≡ is_true_between (data_of spec.now) old.now.codes new.now.codes c.now }
{
    match c {
        Cond::Truth(b) => *b,
        Cond::Holds(v) => old.codes.as_slice()[*v] == 1,
        Cond::Compare(left, relation, right) => holds_between(
            expr_value(spec, left, old, new),
            *relation,
            expr_value(spec, right, old, new),
        ),
        Cond::Not(c) => !cond_holds_between(spec, c.get(), old, new),
        Cond::And(cs) => all_hold(spec, cs.as_slice(), old, new),
        Cond::Or(cs) => any_holds(spec, cs.as_slice(), old, new),
    }
}

#[cycle(holds)]
fn all_hold(spec: &Spec, cs: &[Cond], old: &State, new: &State) -> bool
    requires old_typed { IsTyped (data_of spec.now) old.now.codes }
    requires new_typed { IsTyped (data_of spec.now) new.now.codes }
    requires over { IsTrue (list_all (is_cond_over (data_of spec.now)) cs.now) }
    ensures { result ≡ list_all (is_true_between (data_of spec.now) old.now.codes new.now.codes) cs.now }
{
    for c in cs {
        if !cond_holds_between(spec, c, old, new) {
            return false;
        }
    }
    true
}

#[cycle(holds)]
fn any_holds(spec: &Spec, cs: &[Cond], old: &State, new: &State) -> bool
    requires old_typed { IsTyped (data_of spec.now) old.now.codes }
    requires new_typed { IsTyped (data_of spec.now) new.now.codes }
    requires over { IsTrue (list_all (is_cond_over (data_of spec.now)) cs.now) }
    ensures { result ≡ list_any (is_true_between (data_of spec.now) old.now.codes new.now.codes) cs.now }
{
    for c in cs {
        if cond_holds_between(spec, c, old, new) {
            return true;
        }
    }
    false
}

//! A formula in which the monitored variables but one are frozen.
ghost use Rattle.std.specs.Prelude.{◌≡◌, map, IfOk};
ghost use Rattle.scr_spec.specs.Shown.{data_of};
ghost use Rattle.prove_formula.specs.Frozen.{frozen_level, frozen_atom, frozen, HasTruthWhereKept, HasBoundsOf};

use crate::{Formula, Linear, Term};
use base::NoMemory;
use scr_spec::Spec;
use sqlite_items::Items;
use std::alloc::Global;

#[tactic(auto, using(std::proofs::lemmas::Bool::Decides::nat_tests))]
fn level_frozen(spec: &Spec, x: usize, level: usize) -> usize
    ensures { result ≡ frozen_level (data_of spec.now) x level }
{
    let v = level / 2;
    if level % 2 == 1 && v != x && spec.is_monitored(v) {
        level - 1
    } else {
        level
    }
}

fn atom_frozen(alloc: Global, spec: &Spec, x: usize, a: &Linear) -> Result<Linear, NoMemory>
    ensures { IfOk result (λ b. b ≡ frozen_atom (data_of spec.now) x a.now) }
{
    let mut terms = Items::new(alloc);
    for term in a.terms.as_slice() {
        terms.push(Term {
            factor: term.factor,
            level: level_frozen(spec, x, term.level),
        })?;
    }
    Ok(Linear {
        terms,
        constant: a.constant,
        op: a.op,
    })
}

#[cycle(frozen)]
#[tactic(auto, using(crate::proofs::FrozenLaws::frozen_laws, dd_formula::specs::declared::formula::Formula::TheViews::the_lemmas))]
fn formula_frozen(alloc: Global, spec: &Spec, x: usize, f: &Formula) -> Result<Formula, NoMemory>
    ensures { IfOk result (λ g. g ≡ frozen (data_of spec.now) x f.now) }
{
    match f {
        Formula::True => Ok(Formula::True),
        Formula::False => Ok(Formula::False),
        Formula::Atom(a) => Ok(Formula::Atom(atom_frozen(alloc, spec, x, a)?)),
        Formula::Not(f) => {
            let member = formula_frozen(alloc, spec, x, f.get())?;
            Formula::negation(alloc, member)
        }
        Formula::And(fs) => {
            let members = formulas_frozen(alloc, spec, x, fs.as_slice())?;
            Ok(Formula::And(members))
        }
        Formula::Or(fs) => {
            let members = formulas_frozen(alloc, spec, x, fs.as_slice())?;
            Ok(Formula::Or(members))
        }
    }
}

#[cycle(frozen)]
fn formulas_frozen(
    alloc: Global,
    spec: &Spec,
    x: usize,
    fs: &[Formula],
) -> Result<Items<Formula>, NoMemory>
    ensures { IfOk result (λ gs. gs ≡ map (frozen (data_of spec.now) x) fs.now) }
{
    let mut members = Items::new(alloc);
    for f in fs {
        let member = formula_frozen(alloc, spec, x, f)?;
        members.push(member)?;
    }
    Ok(members)
}

/// The formula in which the new level of each monitored variable other than `x` is replaced by the
/// old one. It allows for pairs of states in which no other monitored variable changes.
#[tactic(auto, using(crate::proofs::FrozenLaws::truth_ok))]
pub fn only_changed(alloc: Global, spec: &Spec, f: &Formula, x: usize) -> Result<Formula, NoMemory>
    ensures formula { IfOk result (λ g. g ≡ frozen (data_of spec.now) x f.now) }
    ensures truth { IfOk result (λ g. HasTruthWhereKept (data_of spec.now) x f.now g) }
    ensures narrow { IfOk result (λ g. HasBoundsOf (data_of spec.now) f.now g) }
{
    formula_frozen(alloc, spec, x, f)
}

//! The formulas of the test of an assertion.
ghost use Rattle.std.specs.Prelude.{◌≡◌, IsTrue, IfOk};
ghost use Rattle.scr_spec.specs.Shown.{data_of};
ghost use Rattle.scr_spec.specs.Over.{is_cond_over};
ghost use Rattle.scr_spec.specs.Relations.{is_monitored};
ghost use Rattle.prove_asserts.specs.Claims.{is_lemma_over, AreLemmasOver};
ghost use Rattle.prove_asserts.specs.Formulas.{broken_formulas, lemma_formulas, lemmas_formulas, known_formulas, full_formulas, common_formulas};

use crate::lemma::Lemma;
use base::NoMemory;
use prove_formula::{Formula, of_cond, of_pair_cond};
use prove_goals::{change, push_need};
use prove_invariants::of_candidate;
use scr_resolve_asserts::Assertion;
use scr_spec::Spec;
use sqlite_items::Items;
use std::alloc::Global;

/// The assertion is broken.
pub(crate) fn broken(alloc: Global, spec: &Spec, a: &Assertion) -> Result<Items<Formula>, NoMemory>
    requires over { IsTrue (is_cond_over (data_of spec.now) a.now.cond) }
    ensures { IfOk result (λ fs. fs ≡ broken_formulas (data_of spec.now) a.now.two a.now.cond) }
{
    let mut out = Items::new(alloc);
    if a.two {
        let between = of_pair_cond(alloc, spec, &a.cond)?;
        out.push(Formula::negation(alloc, between)?)?;
        return Ok(out);
    }
    let after = of_cond(alloc, spec, &a.cond, true)?;
    let before = of_cond(alloc, spec, &a.cond, false)?;
    out.push(Formula::negation(alloc, after)?)?;
    out.push(before)?;
    Ok(out)
}

/// The candidates of the class hold, in the new state where `new` is true and in the old one else.
#[tactic(auto, using(scr_spec::proofs::Lookup::lookup_laws))]
fn lemma_at(
    alloc: Global,
    spec: &Spec,
    lemma: &Lemma,
    new: bool,
) -> Result<Items<Formula>, NoMemory>
    requires over { IsTrue (is_lemma_over (data_of spec.now) lemma.now) }
    ensures { IfOk result (λ fs. fs ≡ lemma_formulas (data_of spec.now) new lemma.now) }
{
    let class = lemma.class;
    let mut out = Items::new(alloc);
    for found in lemma.found.as_slice() {
        out.push(of_candidate(alloc, spec, class, &found.candidate, new)?)?;
    }
    Ok(out)
}

/// Those of all classes do.
#[tactic(auto, using(crate::proofs::Lists::flat_steps, scr_spec::proofs::Lookup::lookup_laws))]
fn lemmas_at(
    alloc: Global,
    spec: &Spec,
    lemmas: &[Lemma],
    new: bool,
) -> Result<Items<Formula>, NoMemory>
    requires over { AreLemmasOver (data_of spec.now) lemmas.now }
    ensures { IfOk result (λ fs. fs ≡ lemmas_formulas (data_of spec.now) new lemmas.now) }
{
    let mut out = Items::new(alloc);
    for lemma in lemmas {
        out.append(lemma_at(alloc, spec, lemma, new)?)?;
    }
    Ok(out)
}

/// What is taken for granted holds before and after.
fn known(alloc: Global, spec: &Spec, lemmas: &[Lemma]) -> Result<Items<Formula>, NoMemory>
    requires over { AreLemmasOver (data_of spec.now) lemmas.now }
    ensures { IfOk result (λ fs. fs ≡ known_formulas (data_of spec.now) lemmas.now) }
{
    let mut out = lemmas_at(alloc, spec, lemmas, false)?;
    out.append(lemmas_at(alloc, spec, lemmas, true)?)?;
    Ok(out)
}

/// The pair is a full one, in which x changes.
#[tactic(auto, using(crate::proofs::Lists::flat_steps))]
fn full(alloc: Global, spec: &Spec, order: &[usize], x: usize) -> Result<Items<Formula>, NoMemory>
    requires monitored { IsTrue (is_monitored (data_of spec.now) x) }
    ensures { IfOk result (λ fs. fs ≡ full_formulas (data_of spec.now) order.now x) }
{
    let mut out = Items::new(alloc);
    for w in order {
        push_need(&mut out, alloc, spec, *w)?;
    }
    out.push(change(alloc, spec, x)?)?;
    Ok(out)
}

/// What the test of every assertion says in which x changes.
pub(crate) fn common(
    alloc: Global,
    spec: &Spec,
    order: &[usize],
    lemmas: &[Lemma],
    x: usize,
) -> Result<Items<Formula>, NoMemory>
    requires lemmas { AreLemmasOver (data_of spec.now) lemmas.now }
    requires monitored { IsTrue (is_monitored (data_of spec.now) x) }
    ensures { IfOk result (λ fs. fs ≡ common_formulas (data_of spec.now) order.now lemmas.now x) }
{
    let mut out = known(alloc, spec, lemmas)?;
    out.append(full(alloc, spec, order, x)?)?;
    Ok(out)
}

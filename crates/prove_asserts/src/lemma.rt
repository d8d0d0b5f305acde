//! What may be taken for granted of the states of a run.
ghost use Rattle.std.specs.Prelude.{◌≡◌, ◌≤◌, IsTrue, IfOk};
ghost use Rattle.scr_spec.specs.Shown.{data_of};
ghost use Rattle.scr_spec.specs.Tables.{is_class_at};
ghost use Rattle.dd_store.specs.declared.store.TheConstants.{SPLIT_LIMIT};
ghost use Rattle.prove_asserts.specs.Claims.{is_lemma_over, AreLemmasOver};
ghost use Rattle.prove_asserts.specs.Derived.{IsDerivedLemma, AreDerivedLemmas};

use base::NoMemory;
use prove_invariants::{Derived, Found, classes, derive};
use scr_depend::Checked;
use sqlite_items::Items;
use std::alloc::Global;

/// Candidates of a class that hold in every state of every run.
#[derive(Drop)]
pub struct Lemma {
    pub class: usize,
    pub found: Items<Found>,
}

/// What is derived for the class, or nothing where it is undecided.
fn derive_lemma(
    alloc: Global,
    checked: &Checked,
    class: usize,
    limit: u32,
) -> Result<Lemma, NoMemory>
    requires limit { limit ≤ SPLIT_LIMIT }
    requires class { IsTrue (is_class_at (data_of checked.now.spec) class) }
    ensures class { IfOk result (λ l. l.class ≡ class) }
    ensures derived { IfOk result (IsDerivedLemma (data_of checked.now.spec) checked.now.order.list limit) }
    ensures over { IfOk result (λ l. IsTrue (is_lemma_over (data_of checked.now.spec) l)) }
{
    match derive(alloc, checked, class, limit)? {
        Derived::All(found) => Ok(Lemma { class, found }),
        Derived::Undecided(_, _) => Ok(Lemma {
            class,
            found: Items::new(alloc),
        }),
    }
}

/// What is derived for each mode class, in order of declaration, to be taken for granted.
pub fn derive_lemmas(alloc: Global, checked: &Checked, limit: u32) -> Result<Items<Lemma>, NoMemory>
    requires { limit ≤ SPLIT_LIMIT }
    ensures derived { IfOk result (AreDerivedLemmas (data_of checked.now.spec) checked.now.order.list limit) }
    ensures over { IfOk result (AreLemmasOver (data_of checked.now.spec)) }
{
    let classes = classes(alloc, &checked.spec)?;
    let mut out = Items::new(alloc);
    for class in classes.as_slice() {
        out.push(derive_lemma(alloc, checked, *class, limit)?)?;
    }
    Ok(out)
}

//! What is derived for each class of a specification that passed its checks.
ghost use Rattle.std.specs.Prelude.{◌≡◌, ◌≤◌, IsTrue, IfOk};
ghost use Rattle.std.specs.List.{list_all, list_any};
ghost use Rattle.scr_spec.specs.Shown.{data_of};
ghost use Rattle.scr_spec.specs.Tables.{is_class_at};
ghost use Rattle.cmd_work.specs.Ends.{is_own};
ghost use Rattle.cmd_invariants.specs.Derives.{HaveDerived, is_undecided, status_of, Derives};
ghost use Rattle.dd_store.specs.declared.store.TheConstants.{SPLIT_LIMIT};

use crate::derivation::Derivation;
use crate::text::push_classes;
use base::NoMemory;
use cmd_work::Status;
use prove_invariants::{Derived, classes, derive};
use scr_depend::Checked;
use sqlite_items::Items;
use std::alloc::Global;

/// Derives invariants for each of the classes.
#[tactic(auto, using(crate::proofs::Lists::list_laws))]
fn derive_each(
    alloc: Global,
    checked: &Checked,
    limit: u32,
    classes: &[usize],
) -> Result<Items<Derivation>, NoMemory>
    requires limit { limit ≤ SPLIT_LIMIT }
    requires classes { IsTrue (list_all (is_class_at (data_of checked.now.spec)) classes.now) }
    ensures { IfOk result (HaveDerived (data_of checked.now.spec) checked.now.order.list limit classes.now) }
{
    let mut out = Items::new(alloc);
    for class in classes {
        let class = *class;
        let derived = derive(alloc, checked, class, limit)?;
        out.push(Derivation { class, derived })?;
    }
    Ok(out)
}

fn is_undecided(derivation: &Derivation) -> bool
    ensures { result ≡ is_undecided derivation.now.derived }
{
    match &derivation.derived {
        Derived::All(_) => false,
        Derived::Undecided(_, _) => true,
    }
}

fn has_undecided(list: &[Derivation]) -> bool
    ensures { result ≡ list_any (λ d. is_undecided d.derived) list.now }
{
    list.iter().any(|derivation| is_undecided(derivation))
}

fn status_of(list: &[Derivation]) -> Status
    ensures exact { result ≡ status_of list.now }
    ensures own { IsTrue (is_own result) }
{
    if has_undecided(list) {
        Status::Undecided
    } else {
        Status::Done
    }
}

/// The lines on each class, in order of declaration, and how the command ends with them.
pub(crate) fn derive_all(
    alloc: Global,
    checked: &Checked,
    limit: u32,
) -> Result<(Vec<u8>, Status), NoMemory>
    requires { limit ≤ SPLIT_LIMIT }
    ensures exact { IfOk result (λ r. Derives limit (data_of checked.now.spec) r.0.items r.1) }
    ensures status { IfOk result (λ r. IsTrue (is_own r.1)) }
{
    let spec = checked.spec();
    let classes = classes(alloc, spec)?;
    let derivations = derive_each(alloc, checked, limit, classes.as_slice())?;
    let mut out = Vec::new(alloc);
    push_classes(&mut out, spec, derivations.as_slice())?;
    Ok((out, status_of(derivations.as_slice())))
}

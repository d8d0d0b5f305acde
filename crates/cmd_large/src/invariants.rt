//! The invariants of the mode class, and what is behind their line.
ghost use Rattle.std.specs.Prelude.{◌≡◌, IfOk};
ghost use Rattle.scr_spec.specs.Shown.{data_of};
ghost use Rattle.prove_invariants.specs.declared.derived.Derived.TheVariants.{All};
ghost use Rattle.cmd_large.specs.Summaries.{phase_of, IsDerivedFor, PassedSummary};

use crate::run::summarize_run;
use crate::text::number_line;
use base::NoMemory;
use cmd_work::Status;
use dd_store::SPLIT_LIMIT;
use prove_invariants::{Derived, Found, derive, is_class};
use scr_depend::Checked;
use scr_spec::Spec;
use sqlite_items::Items;
use std::alloc::Global;

/// The mode class whose invariants are derived, if there is one of that name.
fn phase_of(spec: &Spec) -> Option<usize>
    ensures { result ≡ phase_of (data_of spec.now) }
{
    match spec.find(b"Phase") {
        Some(v) => { if is_class(spec, v) { Some(v) } else { None } }
        None => None,
    }
}

/// What is derived for the class. For none, nothing is found.
fn derive_phase(alloc: Global, checked: &Checked) -> Result<Derived, NoMemory>
    ensures { IfOk result (IsDerivedFor (data_of checked.now.spec) checked.now.order.list (phase_of (data_of checked.now.spec))) }
{
    match phase_of(checked.spec()) {
        Some(class) => derive(alloc, checked, class, SPLIT_LIMIT),
        None => Ok(Derived::All(Items::new(alloc))),
    }
}

/// How many are found, and what comes of the script.
fn counted(alloc: Global, checked: &Checked, found: &[Found]) -> Result<(Vec<u8>, Status), NoMemory>
    requires { IsDerivedFor (data_of checked.now.spec) checked.now.order.list (phase_of (data_of checked.now.spec)) (All found.now) }
    ensures { IfOk result (λ r. PassedSummary (data_of checked.now.spec) checked.now.order.list r.0.items r.1) }
{
    let mut out = number_line(alloc, "invariants", found.len() as u64)?.into_bytes();
    let (more, status) = summarize_run(alloc, checked)?;
    out.extend_from_slice(more.as_slice())?;
    Ok((out, status))
}

/// What is behind the line on the tables of a specification that passes.
pub(crate) fn summarize_passed(
    alloc: Global,
    checked: &Checked,
) -> Result<(Vec<u8>, Status), NoMemory>
    ensures { IfOk result (λ r. PassedSummary (data_of checked.now.spec) checked.now.order.list r.0.items r.1) }
{
    match derive_phase(alloc, checked)? {
        Derived::All(found) => counted(alloc, checked, found.as_slice()),
        Derived::Undecided(_, _) => Ok((Vec::new(alloc), Status::Undecided)),
    }
}

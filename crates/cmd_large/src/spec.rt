//! The summary of a specification.
ghost use Rattle.std.specs.Prelude.{◌≡◌, ℕ, false, IfOk};
ghost use Rattle.std.specs.List.{list_all};
ghost use Rattle.scr_spec.specs.Shown.{data_of};
ghost use Rattle.scr_depend.specs.Dependencies.{graph_of};
ghost use Rattle.scr_depend.specs.Results.{HasCycle};
ghost use Rattle.scr_spec.specs.Data.{Data};
ghost use Rattle.scr_depend.specs.declared.order.Order.{Order};
ghost use Rattle.prove_tables.specs.Outcomes.{is_yes, IsFoundOut, IsPassed};
ghost use Rattle.cmd_checked.specs.Reports.{verdicts_status};
ghost use Rattle.dd_store.specs.declared.store.TheConstants.{SPLIT_LIMIT};
ghost use Rattle.cmd_large.specs.Summaries.{SpecSummary};

use crate::invariants::summarize_passed;
use crate::text::{all_yes, checked_text, counts_of};
use base::NoMemory;
use cmd_checked::has_no;
use cmd_report::push_cycle;
use cmd_work::Status;
use dd_store::SPLIT_LIMIT;
use prove_tables::{Outcome, Verdict, check};
use scr_depend::Checked;
use scr_spec::Spec;
use std::alloc::Global;

/// The cycle.
fn circular(alloc: Global, spec: &Spec, cycle: &[usize]) -> Result<(Vec<u8>, Status), NoMemory>
    requires { HasCycle (graph_of (data_of spec.now)) cycle.now }
    ensures { IfOk result (λ r. (stages : ℕ) → SpecSummary stages (data_of spec.now) r.0.items r.1) }
{
    let mut out = Vec::new(alloc);
    push_cycle(&mut out, spec, cycle)?;
    Ok((out, Status::Findings))
}

/// How the command ends with verdicts of which one is not yes: a no counts before what is undecided.
#[tactic(auto, using(crate::proofs::Counting::no_yes))]
fn status_of(verdicts: &[Verdict]) -> Status
    requires { list_all is_yes verdicts.now ≡ false }
    ensures { result ≡ verdicts_status verdicts.now }
{
    if has_no(verdicts) {
        Status::Findings
    } else {
        Status::Undecided
    }
}

/// The numbers of verdicts of which one is not yes.
fn found(alloc: Global, stages: u32, verdicts: &[Verdict]) -> Result<(Vec<u8>, Status), NoMemory>
    requires { list_all is_yes verdicts.now ≡ false }
    ensures { IfOk result (λ r. (spec : Data) (order : Order) → IsFoundOut spec SPLIT_LIMIT order verdicts.now
        → SpecSummary stages spec r.0.items r.1) }
{
    let text = checked_text(alloc, stages, &counts_of(verdicts))?;
    Ok((text, status_of(verdicts)))
}

/// The numbers of the verdicts, which are all yes, and what is behind them.
fn passed(alloc: Global, stages: u32, checked: &Checked) -> Result<(Vec<u8>, Status), NoMemory>
    requires { IsPassed (data_of checked.now.spec) SPLIT_LIMIT checked.now.order }
    ensures { IfOk result (λ r. SpecSummary stages (data_of checked.now.spec) r.0.items r.1) }
{
    let counts = all_yes(checked.spec());
    let mut out = checked_text(alloc, stages, &counts)?;
    let (more, status) = summarize_passed(alloc, checked)?;
    out.extend_from_slice(more.as_slice())?;
    Ok((out, status))
}

/// The summary of a specification.
pub(crate) fn summarize_spec(
    alloc: Global,
    stages: u32,
    spec: Spec,
) -> Result<(Vec<u8>, Status), NoMemory>
    ensures { IfOk result (λ r. SpecSummary stages (data_of spec) r.0.items r.1) }
{
    match check(alloc, spec, SPLIT_LIMIT)? {
        Outcome::Circular(spec, cycle) => circular(alloc, &spec, cycle.as_slice()),
        Outcome::Found(_, _, verdicts) => found(alloc, stages, verdicts.as_slice()),
        Outcome::Passed(checked) => passed(alloc, stages, &checked),
    }
}

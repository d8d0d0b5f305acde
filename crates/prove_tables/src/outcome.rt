//! What checking a specification gives.
ghost use Rattle.std.specs.Prelude.{◌≡◌, ◌≤◌, IfOk};
ghost use Rattle.std.specs.List.{list_all};
ghost use Rattle.scr_spec.specs.Shown.{data_of};
ghost use Rattle.scr_depend.specs.Results.{IsOrderOf};
ghost use Rattle.prove_tables.specs.Outcomes.{is_yes, IsOutcome};
ghost use Rattle.dd_store.specs.declared.store.TheConstants.{SPLIT_LIMIT};

use crate::verdict::{Verdict, judge_all};
use base::NoMemory;
use scr_depend::{Checked, DependFault, Order, order_of};
use scr_spec::Spec;
use sqlite_items::Items;
use std::alloc::Global;

/// What was found out about a specification: every table is as it must be; variables read each other
/// in the cycle; or the verdicts, in the order of the text, of which not all are yes.
#[derive(Drop)]
pub enum Outcome {
    Passed(Checked),
    Circular(Spec, Items<usize>),
    Found(Spec, Order, Items<Verdict>),
}

/// Whether it is yes.
pub fn is_yes(verdict: &Verdict) -> bool
    ensures { result ≡ is_yes verdict.now }
{
    match verdict {
        Verdict::Yes => true,
        Verdict::No(_, _) | Verdict::Undecided => false,
    }
}

fn are_all_yes(verdicts: &[Verdict]) -> bool
    ensures { result ≡ list_all is_yes verdicts.now }
{
    verdicts.iter().all(is_yes)
}

/// Checks each table of a specification that has an order.
fn check_tables(alloc: Global, spec: Spec, order: Order, limit: u32) -> Result<Outcome, NoMemory>
    requires limit { limit ≤ SPLIT_LIMIT }
    requires ordered { IsOrderOf (data_of spec) order }
    ensures { IfOk result (IsOutcome spec limit) }
{
    let verdicts = judge_all(alloc, &spec, &order, limit)?;
    if are_all_yes(verdicts.as_slice()) {
        return Ok(Outcome::Passed(Checked::new(spec, order)));
    }
    Ok(Outcome::Found(spec, order, verdicts))
}

/// Checks a specification: its order of evaluation, and then each of its tables by itself. The
/// limit is on the distinct splits of the trees of a table's goals. Without memory the
/// specification is dropped.
pub fn check(alloc: Global, spec: Spec, limit: u32) -> Result<Outcome, NoMemory>
    requires { limit ≤ SPLIT_LIMIT }
    ensures { IfOk result (IsOutcome spec limit) }
{
    match order_of(alloc, &spec) {
        Ok(order) => check_tables(alloc, spec, order, limit),
        Err(DependFault::Circular(cycle)) => Ok(Outcome::Circular(spec, cycle)),
        Err(DependFault::NoMemory) => Err(NoMemory),
    }
}

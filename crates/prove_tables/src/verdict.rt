//! The verdict on a table.
ghost use Rattle.std.specs.Prelude.{◌≤◌, IfOk};
ghost use Rattle.scr_spec.specs.Shown.{data_of};
ghost use Rattle.scr_depend.specs.Results.{IsOrderOf};
ghost use Rattle.prove_tables.specs.Verdicts.{HasVerdict, AreVerdicts};
ghost use Rattle.dd_store.specs.declared.store.TheConstants.{SPLIT_LIMIT};

use crate::goal::{Judged, Listing, list_goal};
use base::NoMemory;
use prove_decide::{Decision, Witness, new_store};
use prove_goals::{Goal, goals};
use scr_depend::{Order, need_by};
use scr_spec::Spec;
use sqlite_items::Items;
use std::alloc::Global;
use std::collections::BTreeMap;

/// Whether a table is as it must be. `No` tells the first goal that fails, with the least valuation
/// at which it does. `Undecided` says that the trees of the formulas listed so far have more distinct
/// splits than the limit.
#[derive(Drop)]
pub enum Verdict {
    Yes,
    No(Goal, Witness),
    Undecided,
}

/// The verdict on the table of a variable. A monitored variable has no table, and so a yes.
pub fn judge(
    alloc: Global,
    spec: &Spec,
    order: &Order,
    v: usize,
    limit: u32,
) -> Result<Verdict, NoMemory>
    requires limit { limit ≤ SPLIT_LIMIT }
    requires ordered { IsOrderOf (data_of spec.now) order.now }
    ensures verdict { IfOk result (HasVerdict (data_of spec.now) order.now.list v limit) }
{
    let goals = goals(alloc, spec, v)?;
    let need = need_by(alloc, spec, order, v)?;
    let judged = Judged {
        spec,
        order: order.list.as_slice(),
        variable: v,
        need: need.as_slice(),
    };
    let mut listing = Listing {
        store: new_store(alloc, spec, limit)?,
        related: BTreeMap::new(alloc),
    };
    for goal in goals.as_slice() {
        match list_goal(alloc, &judged, goal, &mut listing)? {
            Decision::Over => return Ok(Verdict::Undecided),
            Decision::Satisfied(witness) => return Ok(Verdict::No(*goal, witness)),
            Decision::Unsatisfiable => {}
        }
    }
    Ok(Verdict::Yes)
}

/// The verdict on each table, in the order of the text.
#[tactic(auto, using(crate::proofs::Lists::list_laws))]
pub fn judge_all(
    alloc: Global,
    spec: &Spec,
    order: &Order,
    limit: u32,
) -> Result<Items<Verdict>, NoMemory>
    requires limit { limit ≤ SPLIT_LIMIT }
    requires ordered { IsOrderOf (data_of spec.now) order.now }
    ensures verdicts { IfOk result (AreVerdicts (data_of spec.now) order.now.list limit) }
{
    let mut verdicts = Items::new(alloc);
    for table in spec.tables.as_slice() {
        let verdict = judge(alloc, spec, order, table.variable, limit)?;
        verdicts.push(verdict)?;
    }
    Ok(verdicts)
}

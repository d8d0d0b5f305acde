//! The formulas of a table's goals, listed one behind another. What the goals for which one variable
//! changed have in common is listed once.
ghost use Rattle.std.specs.Prelude.{◌≡◌, ◌<◌, ◌++◌, List, Err, IfOk, OnOk, IsTrue, length};
ghost use Rattle.dd_formula.specs.declared.formula.Formula.{Formula};
ghost use Rattle.dd_formula.specs.declared.formula.Formula.TheVariants.{And};
ghost use Rattle.scr_spec.specs.Cells.{is_table_over};
ghost use Rattle.scr_spec.specs.Relations.{is_monitored};
ghost use Rattle.dd_store.specs.declared.store.StoreFault.TheVariants.{Full};
ghost use Rattle.dd_build.specs.Built.{Keeps};
ghost use Rattle.dd_build.specs.Formulas.{AreOver, IsListed, listing_trees};
ghost use Rattle.prove_goals.specs.Goals.{is_goal_over};
ghost use Rattle.prove_goals.specs.Pairs as narrow;
ghost use Rattle.prove_decide.specs.Decisions.{IsDecision};
ghost use Rattle.prove_decide.specs.declared.decision.Decision.TheVariants.{Unsatisfiable};
ghost use Rattle.prove_tables.specs.Listings.{spec_in, wrong_in, related_in, formula_in, IsListingOf};

use base::NoMemory;
use dd_build::{build_again, build_shared};
use dd_store::{Id, Store, StoreFault};
use dd_witness::least;
use prove_decide::{Decision, list_formula, places, witness_of};
use prove_formula::Formula;
use prove_goals::{Goal, goal_formula_for, related_where, wrong_where};
use scr_spec::{Spec, Table};
use std::alloc::Global;
use std::collections::BTreeMap;

/// What is judged: the table of a variable.
#[derive(Drop)]
pub(crate) struct Judged<'a> {
    pub spec: &'a Spec,
    /// In which the dependent variables are evaluated.
    pub order: &'a [usize],
    pub variable: usize,
    /// What the variable needs.
    pub need: &'a [usize],
}

/// What is listed so far of the goals of a table.
#[derive(Drop)]
pub(crate) struct Listing {
    pub store: Store,
    /// By the variable that changed, the trees of what its goals have in common.
    pub related: BTreeMap<usize, Vec<Id>>,
}

/// The tree of what is wrong at a related pair in which `x` changed.
fn build_goal(
    alloc: Global,
    judged: &Judged,
    x: usize,
    wrong: &[Formula],
    listing: &mut Listing,
) -> Result<Id, StoreFault>
    ghost rest: { List Formula }
    requires rest { rest ≡ related_in judged.now x }
    requires some { 0 < length wrong.now }
    requires wrong { narrow.AreOver (spec_in judged.now) wrong.now }
    requires monitored { IsTrue (is_monitored (spec_in judged.now) x) }
    requires begun { IsListingOf judged.now listing.old }
    ensures built { IfOk result (IsListed listing.old.store listing.new.store (And (wrong.now ++ rest))) }
    ensures full { result ≡ Err Full → AreOver listing.old.store (listing_trees listing.old.store (And (wrong.now ++ rest))) }
    ensures keeps { OnOk result (Keeps listing.old.store listing.new.store) }
    ensures kept { OnOk result (IsListingOf judged.now listing.new) }
{
    if let Some(ids) = listing.related.get(&x) {
        return build_again(&mut listing.store, wrong, ids.as_slice());
    }
    let parts = related_where(alloc, judged.spec, judged.order, judged.need, x)?;
    let shared = build_shared(&mut listing.store, wrong, parts.as_slice())?;
    listing.related.insert(x, shared.rest)?;
    Ok(shared.whole)
}

/// Lists the formula of a goal for which `x` changed.
fn list_changed(
    alloc: Global,
    judged: &Judged,
    table: &Table,
    goal: &Goal,
    x: usize,
    listing: &mut Listing,
) -> Result<Decision, NoMemory>
    requires table { IsTrue (is_table_over (spec_in judged.now) table.now) }
    requires monitored { IsTrue (is_monitored (spec_in judged.now) x) }
    requires begun { IsListingOf judged.now listing.old }
    ensures decision { IfOk result (IsDecision listing.old.store listing.new.store (And (wrong_in judged.now table.now goal.now x ++ related_in judged.now x))) }
    ensures kept { IfOk result (λ decision. decision ≡ Unsatisfiable → IsListingOf judged.now listing.new) }
{
    let wrong = wrong_where(alloc, judged.spec, table, goal, x)?;
    let wrong = wrong.as_slice();
    let id = match build_goal(alloc, judged, x, wrong, listing) {
        Ok(id) => id,
        Err(StoreFault::Full) => return Ok(Decision::Over),
        Err(StoreFault::NoMemory) => return Err(NoMemory),
    };
    let mut codes = places(alloc, &listing.store)?;
    let codes = codes.as_mut_slice();
    if !least(&listing.store, id, codes) {
        return Ok(Decision::Unsatisfiable);
    }
    let parts = related_where(alloc, judged.spec, judged.order, judged.need, x)?;
    let witness = witness_of(alloc, wrong, parts.as_slice(), codes)?;
    Ok(Decision::Satisfied(witness))
}

/// Lists the formula of a goal behind those whose trees are in the store.
#[tactic(auto, using(scr_spec::proofs::Found::found_laws))]
pub(crate) fn list_goal(
    alloc: Global,
    judged: &Judged,
    goal: &Goal,
    listing: &mut Listing,
) -> Result<Decision, NoMemory>
    requires over { IsTrue (is_goal_over (spec_in judged.now) goal.now) }
    requires begun { IsListingOf judged.now listing.old }
    ensures decision { IfOk result (IsDecision listing.old.store listing.new.store (formula_in judged.now goal.now)) }
    ensures kept { IfOk result (λ decision. decision ≡ Unsatisfiable → IsListingOf judged.now listing.new) }
{
    let v = judged.variable;
    if let Some(table) = judged.spec.table_of(v) {
        if let Some(x) = goal.changed {
            return list_changed(alloc, judged, table, goal, x, listing);
        }
    }
    let formula = goal_formula_for(alloc, judged.spec, judged.order, judged.need, v, goal)?;
    let mut codes = places(alloc, &listing.store)?;
    list_formula(alloc, &mut listing.store, codes.as_mut_slice(), &formula)
}

//! The candidates of a class.
ghost use Rattle.std.specs.Prelude.{◌≡◌, ◌++◌, ◌<◌, ◌^◌, map, length, OnOk, IfOk};
ghost use Rattle.scr_spec.specs.Shown.{data_of};
ghost use Rattle.scr_spec.specs.Over.{modes_of};
ghost use Rattle.prove_candidates.specs.New.{AddsNew};
ghost use Rattle.prove_candidates.specs.Told.{exits, entries};
ghost use Rattle.prove_candidates.specs.Steps.{AreGathered};
ghost use Rattle.prove_candidates.specs.Candidates.{one_of, AreConditionsOf, AreMore, AreCandidatesBelow, AreCandidates, AreOver, candidate_in};

use crate::candidate::Candidate;
use crate::copy::copy_condition;
use crate::entry::{Entered, add_entries};
use crate::exit::add_exits;
use crate::new::add_new;
use base::NoMemory;
use scr_spec::{Cond, Kind, Spec, Table};
use sqlite_items::Items;
use std::alloc::Global;

fn gather(alloc: Global, table: &Table, mode: i64) -> Result<Entered, NoMemory>
    ensures { IfOk result (AreGathered (exits table.now mode) (entries table.now mode)) }
{
    let mut conditions = Items::new(alloc);
    add_exits(&mut conditions, alloc, table, mode)?;
    let mut told = Entered {
        conditions,
        changes: Items::new(alloc),
        silent: false,
    };
    add_entries(&mut told, alloc, table, mode)?;
    Ok(told)
}

/// Adds that one of the changes of the entries is so.
#[tactic(auto, using(crate::proofs::Listing::add_laws))]
fn with_changes(told: Entered) -> Result<Items<Cond>, NoMemory>
    ensures { IfOk result (AddsNew told.conditions (one_of told.silent told.changes)) }
{
    let Entered {
        mut conditions,
        changes,
        silent,
    } = told;
    if !silent && 2 <= changes.len() {
        add_new(&mut conditions, Cond::Or(changes))?;
    }
    Ok(conditions)
}

/// The conditions that the exits and entries of a mode tell of it.
#[tactic(auto, using(crate::proofs::Gathered::conditions_told))]
fn conditions_of(alloc: Global, table: &Table, mode: i64) -> Result<Items<Cond>, NoMemory>
    ensures { IfOk result (AreConditionsOf table.now mode) }
{
    let told = gather(alloc, table, mode)?;
    with_changes(told)
}

fn push_conditions(
    out: &mut Items<Candidate>,
    alloc: Global,
    mode: i64,
    conditions: &[Cond],
) -> Result<(), NoMemory>
    ensures { OnOk result (out.new ≡ out.old ++ map (candidate_in mode) conditions.now) }
{
    for c in conditions {
        let cond = copy_condition(alloc, c)?;
        out.push(Candidate { mode, cond })?;
    }
    Ok(())
}

#[tactic(auto, using(crate::proofs::Gathered::are_more))]
fn push_mode(
    out: &mut Items<Candidate>,
    alloc: Global,
    table: &Table,
    mode: i64,
) -> Result<(), NoMemory>
    ensures { OnOk result (AreMore table.now mode out.old out.new) }
{
    let conditions = conditions_of(alloc, table, mode)?;
    push_conditions(out, alloc, mode, conditions.as_slice())
}

#[tactic(auto, using(crate::proofs::Gathered::below_laws))]
fn table_candidates(
    alloc: Global,
    table: &Table,
    modes: usize,
) -> Result<Items<Candidate>, NoMemory>
    requires { modes < 2 ^ 63 }
    ensures { IfOk result (AreCandidatesBelow table.now modes) }
{
    let mut out = Items::new(alloc);
    for mode in 0..modes {
        push_mode(&mut out, alloc, table, mode as i64)?;
    }
    Ok(out)
}

/// The number of the modes of a class.
#[tactic(auto, using(scr_spec::proofs::Lookup::lookup_laws))]
fn mode_count(spec: &Spec, class: usize) -> usize
    ensures count { result ≡ length (modes_of (data_of spec.now) class) }
    ensures few { result < 2 ^ 63 }
{
    match spec.variables.get(class) {
        Some(variable) => match &variable.kind {
            Kind::Modes(names) => names.len(),
            Kind::Boolean | Kind::Named(_) => 0,
        },
        None => 0,
    }
}

fn candidates_at(alloc: Global, spec: &Spec, class: usize) -> Result<Items<Candidate>, NoMemory>
    ensures { IfOk result (AreCandidates (data_of spec.now) class) }
{
    match spec.table_of(class) {
        None => Ok(Items::new(alloc)),
        Some(table) => table_candidates(alloc, table, mode_count(spec, class)),
    }
}

/// The candidates of a class: for each of its modes, in order of declaration, what the exits and the
/// entries of the mode tell of it. None for a variable without a table.
#[tactic(auto, using(crate::proofs::Over::over_ok))]
pub fn candidates(alloc: Global, spec: &Spec, class: usize) -> Result<Items<Candidate>, NoMemory>
    ensures candidates { IfOk result (AreCandidates (data_of spec.now) class) }
    ensures over { IfOk result (AreOver (data_of spec.now) class) }
{
    candidates_at(alloc, spec, class)
}

//! The labels of a `switch`.

ghost use Rattle.std.specs.Prelude.{◌≡◌, not, IfOk, OnOk};
ghost use Rattle.std.specs.List.{list_all, list_any};
ghost use Rattle.std.specs.Ordering.{int_eq};
ghost use Rattle.indexmap.specs.IndexSet.{insert_key};
ghost use Rattle.c_subset.specs.Kinds as range;
ghost use Rattle.c_subset.specs.Rules as rules;
ghost use Rattle.c_reader.specs.Labels as spec;

use crate::kind::is_number_in_range;
use base::NoMemory;
use c_subset::CClause;
use indexmap::IndexSet;
use std::alloc::Global;

fn are_in_range(clauses: &[CClause]) -> bool
    ensures { result ≡ list_all (λ c. range.is_number_in_range c.label) clauses.now }
{
    clauses
        .iter()
        .all(|clause| is_number_in_range(clause.label))
}

/// Whether something stands behind the last label.
#[tactic(auto, using(crate::proofs::RuleLaws::ends_filled_last))]
fn ends_filled(clauses: &[CClause]) -> bool
    ensures { result ≡ spec.ends_filled clauses.now }
{
    match clauses.last() {
        Some(clause) => clause.stops || clause.body.len() >= 1,
        None => true,
    }
}

/// Notes a label, and tells whether it is a new one.
fn note(seen: &mut IndexSet<i64>, label: &i64) -> Result<bool, NoMemory>
    ensures added { IfOk result (λ is_new. is_new ≡ not (list_any (int_eq label.now) seen.old.keys)) }
    ensures keys { OnOk result (seen.new.keys ≡ insert_key int_eq seen.old.keys label.now) }
{
    Ok(seen.insert(*label)?)
}

fn are_distinct(alloc: Global, clauses: &[CClause]) -> Result<bool, NoMemory>
    ensures { IfOk result (λ distinct. distinct ≡ rules.are_distinct (spec.labels clauses.now)) }
{
    let mut seen = IndexSet::new(alloc);
    for clause in clauses {
        let is_new = note(&mut seen, &clause.label)?;
        if !is_new {
            return Ok(false);
        }
    }
    Ok(true)
}

/// Whether the labels are different numbers of the range, and something stands behind the last one.
pub(crate) fn are_labels(alloc: Global, clauses: &[CClause]) -> Result<bool, NoMemory>
    ensures { IfOk result (λ right. right ≡ spec.are_labels clauses.now) }
{
    let distinct = are_distinct(alloc, clauses)?;
    Ok(are_in_range(clauses) && distinct && ends_filled(clauses))
}

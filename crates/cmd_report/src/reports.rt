//! The lines on a specification that was checked.
ghost use Rattle.std.specs.Prelude.{◌≡◌, ◌++◌, IfOk, MatchResult, OnOk, string_bytes};
ghost use Rattle.scr_spec.specs.Shown.{data_of};
ghost use Rattle.cmd_report.specs.Reports as text;

use crate::variables::{push_names, push_reading};
use base::NoMemory;
use prove_goals::{Goal, GoalKind};
use prove_tables::{Reading, Verdict, Witness};
use scr_depend::Order;
use scr_printer::variable_name;
use scr_spec::Spec;
use std::alloc::Global;

/// Appends the line on the order of evaluation: `order:` and each name after a space. After a fault
/// `out` is unchanged.
pub fn push_order(out: &mut Vec<u8>, spec: &Spec, order: &Order) -> Result<(), NoMemory>
    ensures { MatchResult result (λ _. out.new.items ≡ out.old.items ++ text.order_text (data_of spec.now) order.now.list)
        (λ _. out.new.items ≡ out.old.items) }
{
    let mut line = Vec::from_slice(*out.allocator(), b"order:")?;
    push_names(&mut line, spec, order.list.as_slice())?;
    line.push(b'\n')?;
    out.extend_from_slice(line.as_slice())?;
    Ok(())
}

/// Appends the line on variables that read each other in a circle: `circular:` and each name after a
/// space. After a fault `out` is unchanged.
pub fn push_cycle(out: &mut Vec<u8>, spec: &Spec, cycle: &[usize]) -> Result<(), NoMemory>
    ensures { MatchResult result (λ _. out.new.items ≡ out.old.items ++ text.cycle_text (data_of spec.now) cycle.now)
        (λ _. out.new.items ≡ out.old.items) }
{
    let mut line = Vec::from_slice(*out.allocator(), b"circular:")?;
    push_names(&mut line, spec, cycle)?;
    line.push(b'\n')?;
    out.extend_from_slice(line.as_slice())?;
    Ok(())
}

// ---- verdicts

/// Where a goal fails, by its row and its columns.
fn place_text(alloc: Global, goal: &Goal) -> Result<String, NoMemory>
    ensures { IfOk result (λ place. string_bytes place ≡ text.place_text goal.now.kind goal.now) }
{
    let row = goal.row;
    let first = goal.first;
    let second = goal.second;
    match goal.kind {
        GoalKind::Disjoint => {
            Ok(format!(in alloc; "no disjoint row {row} columns {first} {second}:")?)
        }
        GoalKind::Cover => Ok(format!(in alloc; "no cover row {row}:")?),
        GoalKind::Range => Ok(format!(in alloc; "no range row {row} column {first}:")?),
    }
}

fn push_readings(out: &mut Vec<u8>, spec: &Spec, readings: &[Reading]) -> Result<(), NoMemory>
    ensures { OnOk result (out.new.items ≡ out.old.items ++ text.readings_text (data_of spec.now) readings.now) }
{
    for reading in readings {
        push_reading(out, spec, reading)?;
    }
    Ok(())
}

/// Appends the codes of a witness: ` X=value` for an old level and ` X'=value` for a new one, in the order
/// of the levels. After a fault `out` is unchanged.
pub fn push_witness(out: &mut Vec<u8>, spec: &Spec, witness: &Witness) -> Result<(), NoMemory>
    ensures { MatchResult result (λ _. out.new.items ≡ out.old.items ++ text.witness_text (data_of spec.now) witness.now)
        (λ _. out.new.items ≡ out.old.items) }
{
    let mut readings = Vec::new(*out.allocator());
    push_readings(&mut readings, spec, witness.readings.as_slice())?;
    out.extend_from_slice(readings.as_slice())?;
    Ok(())
}

/// What is said of a table.
fn push_outcome(out: &mut Vec<u8>, spec: &Spec, verdict: &Verdict) -> Result<(), NoMemory>
    ensures { OnOk result (out.new.items ≡ out.old.items ++ text.outcome_text (data_of spec.now) verdict.now) }
{
    match verdict {
        Verdict::Yes => out.extend_from_slice(b"yes")?,
        Verdict::No(goal, witness) => {
            let place = place_text(*out.allocator(), goal)?;
            out.extend_from_slice(place.as_bytes())?;
            push_witness(out, spec, witness)?;
        }
        Verdict::Undecided => out.extend_from_slice(b"undecided")?,
    }
    Ok(())
}

/// Appends the line on the table of a variable: `table X: yes`, `table X: undecided`, or what is
/// wrong with the place and the witness. After a fault `out` is unchanged.
pub fn push_verdict(
    out: &mut Vec<u8>,
    spec: &Spec,
    v: usize,
    verdict: &Verdict,
) -> Result<(), NoMemory>
    ensures { MatchResult result (λ _. out.new.items ≡ out.old.items ++ text.verdict_text (data_of spec.now) v verdict.now)
        (λ _. out.new.items ≡ out.old.items) }
{
    let mut line = Vec::from_slice(*out.allocator(), b"table ")?;
    line.extend_from_slice(variable_name(spec, v))?;
    line.extend_from_slice(b": ")?;
    push_outcome(&mut line, spec, verdict)?;
    line.push(b'\n')?;
    out.extend_from_slice(line.as_slice())?;
    Ok(())
}

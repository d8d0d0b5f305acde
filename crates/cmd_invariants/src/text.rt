//! The lines on what was derived for classes.
ghost use Rattle.std.specs.Prelude.{◌≡◌, ◌++◌, IfOk, MatchResult, OnOk, string_bytes};
ghost use Rattle.std.specs.List.{flat_map};
ghost use Rattle.scr_spec.specs.Shown.{data_of};
ghost use Rattle.cmd_invariants.specs.Texts as text;

use crate::derivation::Derivation;
use base::NoMemory;
use itoa::Buffer;
use prove_candidates::Candidate;
use prove_invariants::{Derived, Found};
use scr_printer::{push_cond, push_value, variable_name};
use scr_spec::Spec;
use std::alloc::Global;

/// The mode, the round and the condition.
fn push_found(out: &mut Vec<u8>, spec: &Spec, class: usize, found: &Found) -> Result<(), NoMemory>
    ensures { OnOk result (out.new.items ≡ out.old.items ++ text.found_text (data_of spec.now) class found.now) }
{
    push_value(out, spec, class, found.candidate.mode)?;
    out.extend_from_slice(b" ")?;
    out.extend_from_slice(Buffer::new().format(found.round).as_bytes())?;
    out.extend_from_slice(b" ")?;
    push_cond(out, spec, &found.candidate.cond)?;
    out.push(b'\n')?;
    Ok(())
}

/// A line on each candidate that is found.
fn push_all(out: &mut Vec<u8>, spec: &Spec, class: usize, list: &[Found]) -> Result<(), NoMemory>
    ensures { OnOk result (out.new.items ≡ out.old.items ++ flat_map (text.found_text (data_of spec.now) class) list.now) }
{
    for found in list {
        push_found(out, spec, class, found)?;
    }
    Ok(())
}

/// The mode and the condition.
fn push_candidate(
    out: &mut Vec<u8>,
    spec: &Spec,
    class: usize,
    candidate: &Candidate,
) -> Result<(), NoMemory>
    ensures { OnOk result (out.new.items ≡ out.old.items ++ text.candidate_text (data_of spec.now) class candidate.now) }
{
    push_value(out, spec, class, candidate.mode)?;
    out.extend_from_slice(b" ")?;
    push_cond(out, spec, &candidate.cond)?;
    out.push(b'\n')?;
    Ok(())
}

/// The round in which a test is past the limit.
#[tactic(auto, unfolding(crate::specs::Texts::round_text))]
fn round_text(alloc: Global, round: u64) -> Result<String, NoMemory>
    ensures { IfOk result (λ head. string_bytes head ≡ text.round_text round) }
{
    Ok(format!(in alloc; "undecided round {round} ")?)
}

/// The line on a test that is past the limit.
fn push_undecided(
    out: &mut Vec<u8>,
    spec: &Spec,
    class: usize,
    round: u64,
    candidate: &Candidate,
) -> Result<(), NoMemory>
    ensures { OnOk result (out.new.items ≡ out.old.items ++ text.undecided_text (data_of spec.now) class round candidate.now) }
{
    let head = round_text(*out.allocator(), round)?;
    out.extend_from_slice(head.as_bytes())?;
    push_candidate(out, spec, class, candidate)
}

/// The lines below the head of a class.
fn push_lines(
    out: &mut Vec<u8>,
    spec: &Spec,
    class: usize,
    derived: &Derived,
) -> Result<(), NoMemory>
    ensures { OnOk result (out.new.items ≡ out.old.items ++ text.lines_text (data_of spec.now) class derived.now) }
{
    match derived {
        Derived::All(list) => push_all(out, spec, class, list.as_slice()),
        Derived::Undecided(round, candidate) => {
            push_undecided(out, spec, class, *round, candidate)
        }
    }
}

/// Appends the lines on what was derived for a class: `class NAME`, and then `MODE ROUND COND` for each
/// candidate that is found, or `undecided round ROUND MODE COND`. After a fault `out` is unchanged.
pub fn push_derived(
    out: &mut Vec<u8>,
    spec: &Spec,
    class: usize,
    derived: &Derived,
) -> Result<(), NoMemory>
    ensures { MatchResult result (λ _. out.new.items ≡ out.old.items ++ text.derived_text (data_of spec.now) class derived.now)
        (λ _. out.new.items ≡ out.old.items) }
{
    let mut lines = Vec::from_slice(*out.allocator(), b"class ")?;
    lines.extend_from_slice(variable_name(spec, class))?;
    lines.push(b'\n')?;
    push_lines(&mut lines, spec, class, derived)?;
    out.extend_from_slice(lines.as_slice())?;
    Ok(())
}

/// The lines on each class.
pub(crate) fn push_classes(
    out: &mut Vec<u8>,
    spec: &Spec,
    list: &[Derivation],
) -> Result<(), NoMemory>
    ensures { OnOk result (out.new.items ≡ out.old.items ++ text.classes_text (data_of spec.now) list.now) }
{
    for derivation in list {
        push_derived(out, spec, derivation.class, &derivation.derived)?;
    }
    Ok(())
}

//! The verdicts on the tables of a specification: their lines, and how a run with them ends.
ghost use Rattle.std.specs.Prelude.{◌≡◌, ◌++◌, OnOk};
ghost use Rattle.std.specs.List.{list_any};
ghost use Rattle.scr_spec.specs.Shown.{data_of};
ghost use Rattle.cmd_checked.specs.Reports as answer;

use base::NoMemory;
use cmd_report::push_verdict;
use cmd_work::Status;
use prove_tables::Verdict;
use scr_spec::Spec;

/// Whether it is a no.
pub fn is_no(verdict: &Verdict) -> bool
    ensures { result ≡ answer.is_no verdict.now }
{
    match verdict {
        Verdict::No(_, _) => true,
        Verdict::Yes | Verdict::Undecided => false,
    }
}

/// Whether it is undecided.
pub fn is_undecided(verdict: &Verdict) -> bool
    ensures { result ≡ answer.is_undecided verdict.now }
{
    match verdict {
        Verdict::Undecided => true,
        Verdict::Yes | Verdict::No(_, _) => false,
    }
}

/// Whether one of them is a no.
pub fn has_no(verdicts: &[Verdict]) -> bool
    ensures { result ≡ list_any answer.is_no verdicts.now }
{
    verdicts.iter().any(|verdict| is_no(verdict))
}

fn has_undecided(verdicts: &[Verdict]) -> bool
    ensures { result ≡ list_any answer.is_undecided verdicts.now }
{
    verdicts.iter().any(|verdict| is_undecided(verdict))
}

/// How a run with these verdicts ends.
pub(crate) fn verdicts_status(verdicts: &[Verdict]) -> Status
    ensures { result ≡ answer.verdicts_status verdicts.now }
{
    if has_no(verdicts) {
        Status::Findings
    } else if has_undecided(verdicts) {
        Status::Undecided
    } else {
        Status::Done
    }
}

/// A line on each table, in the order of the text.
pub(crate) fn push_lines(
    out: &mut Vec<u8>,
    spec: &Spec,
    verdicts: &[Verdict],
) -> Result<(), NoMemory>
    ensures { OnOk result (out.new.items ≡ out.old.items ++ answer.lines_text (data_of spec.now) verdicts.now) }
{
    for (table, verdict) in spec.tables.as_slice().iter().zip(verdicts) {
        push_verdict(out, spec, table.variable, verdict)?;
    }
    Ok(())
}

/// A line on each table, each with the verdict yes.
pub(crate) fn push_yes_lines(out: &mut Vec<u8>, spec: &Spec) -> Result<(), NoMemory>
    ensures { OnOk result (out.new.items ≡ out.old.items ++ answer.lines_text (data_of spec.now) (answer.all_yes (data_of spec.now))) }
{
    for table in spec.tables.as_slice() {
        push_verdict(out, spec, table.variable, &Verdict::Yes)?;
    }
    Ok(())
}

//! The verdicts on the assertions of a text, as lines and as the ending of the command.
ghost use Rattle.std.specs.Prelude.{◌≡◌, ◌≤◌, IfOk, IsTrue};
ghost use Rattle.std.specs.List.{list_any};
ghost use Rattle.dd_store.specs.declared.store.TheConstants.{SPLIT_LIMIT};
ghost use Rattle.scr_spec.specs.Shown.{data_of};
ghost use Rattle.cmd_work.specs.Ends.{is_own};
ghost use Rattle.prove_asserts.specs.Settings.{AreAssertionsOver};
ghost use Rattle.cmd_assert.specs.Asserts as answer;

use crate::reading::{Reading, read};
use crate::text::push_verdicts;
use base::NoMemory;
use cmd_work::Status;
use prove_asserts::{AssertVerdict, derive_lemmas, judge_assertions};
use scr_depend::Checked;
use scr_resolve_asserts::Assertion;
use std::alloc::Global;

fn is_finding(verdict: &AssertVerdict) -> bool
    ensures { result ≡ answer.is_finding verdict.now }
{
    match verdict {
        AssertVerdict::FalseInitial | AssertVerdict::Unproved(_) => true,
        AssertVerdict::Yes | AssertVerdict::Undecided => false,
    }
}

fn is_undecided(verdict: &AssertVerdict) -> bool
    ensures { result ≡ answer.is_undecided verdict.now }
{
    match verdict {
        AssertVerdict::Undecided => true,
        AssertVerdict::Yes | AssertVerdict::FalseInitial | AssertVerdict::Unproved(_) => false,
    }
}

fn has_finding(verdicts: &[AssertVerdict]) -> bool
    ensures { result ≡ list_any answer.is_finding verdicts.now }
{
    verdicts.iter().any(|verdict| is_finding(verdict))
}

fn has_undecided(verdicts: &[AssertVerdict]) -> bool
    ensures { result ≡ list_any answer.is_undecided verdicts.now }
{
    verdicts.iter().any(|verdict| is_undecided(verdict))
}

/// How a run with these verdicts ends.
fn verdicts_status(verdicts: &[AssertVerdict]) -> Status
    ensures exact { result ≡ answer.verdicts_status verdicts.now }
    ensures own { IsTrue (is_own result) }
{
    if has_finding(verdicts) {
        Status::Findings
    } else if has_undecided(verdicts) {
        Status::Undecided
    } else {
        Status::Done
    }
}

/// A line on each of the assertions, what is derived for each class taken for granted.
fn judge(
    alloc: Global,
    checked: &Checked,
    assertions: &[Assertion],
    limit: u32,
) -> Result<(Vec<u8>, Status), NoMemory>
    requires limit { limit ≤ SPLIT_LIMIT }
    requires over { AreAssertionsOver (data_of checked.now.spec) assertions.now }
    ensures exact { IfOk result (λ r. answer.AssertsEach limit (data_of checked.now.spec) assertions.now r.0.items r.1) }
    ensures own { IfOk result (λ r. IsTrue (is_own r.1)) }
{
    let lemmas = derive_lemmas(alloc, checked, limit)?;
    let verdicts = judge_assertions(alloc, checked, lemmas.as_slice(), assertions, limit)?;
    let verdicts = verdicts.as_slice();
    let mut out = Vec::new(alloc);
    push_verdicts(&mut out, checked.spec(), assertions, verdicts)?;
    Ok((out, verdicts_status(verdicts)))
}

/// A line on each assertion that the text makes of the specification, or the line on why it makes none.
pub(crate) fn assert_text(
    alloc: Global,
    checked: &Checked,
    text: &[u8],
    limit: u32,
) -> Result<(Vec<u8>, Status), NoMemory>
    requires limit { limit ≤ SPLIT_LIMIT }
    ensures exact { IfOk result (λ r. answer.AssertsText limit (data_of checked.now.spec) text.now r.0.items r.1) }
    ensures own { IfOk result (λ r. IsTrue (is_own r.1)) }
{
    match read(alloc, checked.spec(), text)? {
        Reading::Right(assertions) => judge(alloc, checked, assertions.as_slice(), limit),
        Reading::Refused(line) => Ok((line, Status::AssertRefused)),
    }
}

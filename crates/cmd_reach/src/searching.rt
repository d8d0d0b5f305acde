//! The answers on the assertions of a text, as lines and as the ending of the command.
ghost use Rattle.std.specs.Prelude.{◌≡◌, ◌<◌, IfOk, IsTrue};
ghost use Rattle.std.specs.List.{list_any, list_all};
ghost use Rattle.scr_spec.specs.Shown.{data_of};
ghost use Rattle.scr_spec.specs.Over.{is_cond_over};
ghost use Rattle.cmd_work.specs.Ends.{is_own};
ghost use Rattle.prove_asserts.specs.Claims.{AreLemmasOver};
ghost use Rattle.cmd_reach.specs.Reaches as reaches;

use crate::reading::{Reading, read};
use crate::text::push_answers;
use base::NoMemory;
use cmd_work::Status;
use dd_store::SPLIT_LIMIT;
use prove_asserts::{AssertVerdict, Lemma, derive_lemmas, judge_assertion};
use run_broken::seek_break;
use run_reach::Answer;
use scr_depend::Checked;
use scr_resolve_asserts::Assertion;
use sqlite_items::Items;
use std::alloc::Global;

fn is_finding(answer: &Answer) -> bool
    ensures { result ≡ reaches.is_finding answer.now }
{
    match answer {
        Answer::Least(_) => true,
        Answer::Never | Answer::Open(_) => false,
    }
}

fn is_undecided(answer: &Answer) -> bool
    ensures { result ≡ reaches.is_undecided answer.now }
{
    match answer {
        Answer::Open(_) => true,
        Answer::Never | Answer::Least(_) => false,
    }
}

fn has_finding(answers: &[Answer]) -> bool
    ensures { result ≡ list_any reaches.is_finding answers.now }
{
    answers.iter().any(|answer| is_finding(answer))
}

fn has_undecided(answers: &[Answer]) -> bool
    ensures { result ≡ list_any reaches.is_undecided answers.now }
{
    answers.iter().any(|answer| is_undecided(answer))
}

/// How a run with these answers ends.
fn answers_status(answers: &[Answer]) -> Status
    ensures exact { result ≡ reaches.answers_status answers.now }
    ensures own { IsTrue (is_own result) }
{
    if has_finding(answers) {
        Status::Findings
    } else if has_undecided(answers) {
        Status::Undecided
    } else {
        Status::Done
    }
}

fn is_proved(verdict: &AssertVerdict) -> bool
    ensures { result ≡ reaches.is_proved verdict.now }
{
    match verdict {
        AssertVerdict::Yes => true,
        AssertVerdict::FalseInitial | AssertVerdict::Unproved(_) | AssertVerdict::Undecided =>
            false,
    }
}

/// Searches for a script that breaks the assertion, where that is not proved.
fn search_one(
    alloc: Global,
    checked: &Checked,
    lemmas: &[Lemma],
    assertion: &Assertion,
    most: usize,
) -> Result<Answer, NoMemory>
    requires lemmas { AreLemmasOver (data_of checked.now.spec) lemmas.now }
    requires over { IsTrue (is_cond_over (data_of checked.now.spec) assertion.now.cond) }
    requires some { 0 < most }
    ensures { IfOk result (reaches.IsAnswerTo (data_of checked.now.spec) checked.now.order.list lemmas.now most assertion.now) }
{
    let verdict = judge_assertion(alloc, checked, lemmas, assertion, SPLIT_LIMIT)?;
    if is_proved(&verdict) {
        return Ok(Answer::Never);
    }
    seek_break(alloc, checked, &assertion.cond, assertion.two, most)
}

/// Searches for each of the assertions.
fn search_each(
    alloc: Global,
    checked: &Checked,
    lemmas: &[Lemma],
    assertions: &[Assertion],
    most: usize,
) -> Result<Items<Answer>, NoMemory>
    requires lemmas { AreLemmasOver (data_of checked.now.spec) lemmas.now }
    requires over { IsTrue (list_all (λ a. is_cond_over (data_of checked.now.spec) a.cond) assertions.now) }
    requires some { 0 < most }
    ensures { IfOk result (reaches.AreAnswers (data_of checked.now.spec) checked.now.order.list lemmas.now most assertions.now) }
{
    let mut answers = Items::new(alloc);
    for assertion in assertions {
        answers.push(search_one(alloc, checked, lemmas, assertion, most)?)?;
    }
    Ok(answers)
}

/// What is answered of each of the assertions, what is derived for each class taken for granted.
fn reach(
    alloc: Global,
    checked: &Checked,
    assertions: &[Assertion],
    most: usize,
) -> Result<(Vec<u8>, Status), NoMemory>
    requires over { IsTrue (list_all (λ a. is_cond_over (data_of checked.now.spec) a.cond) assertions.now) }
    requires some { 0 < most }
    ensures exact { IfOk result (λ r. reaches.ReachesEach most (data_of checked.now.spec) assertions.now r.0.items r.1) }
    ensures own { IfOk result (λ r. IsTrue (is_own r.1)) }
{
    let lemmas = derive_lemmas(alloc, checked, SPLIT_LIMIT)?;
    let answers = search_each(alloc, checked, lemmas.as_slice(), assertions, most)?;
    let answers = answers.as_slice();
    let mut out = Vec::new(alloc);
    push_answers(&mut out, checked.spec(), assertions, answers)?;
    Ok((out, answers_status(answers)))
}

/// The lines on each assertion that the text makes of the specification, or the line on why it makes none.
pub(crate) fn reach_text(
    alloc: Global,
    checked: &Checked,
    text: &[u8],
    most: usize,
) -> Result<(Vec<u8>, Status), NoMemory>
    requires some { 0 < most }
    ensures exact { IfOk result (λ r. reaches.ReachesText most (data_of checked.now.spec) text.now r.0.items r.1) }
    ensures own { IfOk result (λ r. IsTrue (is_own r.1)) }
{
    match read(alloc, checked.spec(), text)? {
        Reading::Right(assertions) => reach(alloc, checked, assertions.as_slice(), most),
        Reading::Refused(line) => Ok((line, Status::AssertRefused)),
    }
}

//! The judgement of assertions. All tests in which one variable changes are made before the next
//! changes, so that only the formulas of one change stand in memory.
ghost use Rattle.std.specs.Prelude.{◌≡◌, ◌≤◌, false, [], IsTrue, OnOk, IfOk, length, slice_get};
ghost use Rattle.std.specs.Option.{option_map_or};
ghost use Rattle.scr_spec.specs.Shown.{data_of};
ghost use Rattle.scr_spec.specs.Over.{is_cond_over};
ghost use Rattle.dd_store.specs.declared.store.TheConstants.{SPLIT_LIMIT};
ghost use Rattle.prove_goals.specs.Goals.{monitored_variables};
ghost use Rattle.prove_asserts.specs.Claims.{AreLemmasOver};
ghost use Rattle.prove_asserts.specs.Judged.{HasEach, IsJudged, AreJudged};
ghost use Rattle.prove_asserts.specs.Settings.{AreAssertionsOver, spec_in, IsSetUp, IsChangeIn, IsJudgedBy, AreNext, is_open, verdict_of as decided};

use crate::change::{Change, of_change, test_change};
use crate::lemma::Lemma;
use crate::setting::Setting;
use crate::verdict::AssertVerdict;
use base::NoMemory;
use prove_decide::Decision;
use prove_invariants::monitored;
use run_step::initial;
use scr_depend::Checked;
use scr_eval::cond_holds;
use scr_resolve_asserts::Assertion;
use sqlite_items::Items;
use std::alloc::Global;
use std::slice;

/// The verdict before any test.
fn first_verdict(setting: &Setting, a: &Assertion) -> AssertVerdict
    requires set_up { IsSetUp setting.now }
    requires over { IsTrue (is_cond_over (spec_in setting.now) a.now.cond) }
    ensures { IsJudgedBy setting.now [] a.now result }
{
    if !a.two && !cond_holds(&setting.checked.spec, &a.cond, setting.first) {
        return AssertVerdict::FalseInitial;
    }
    AssertVerdict::Yes
}

#[tactic(auto, using(scr_spec::proofs::Lookup::lookup_laws))]
fn first_verdicts(
    alloc: Global,
    setting: &Setting,
    assertions: &[Assertion],
) -> Result<Items<AssertVerdict>, NoMemory>
    requires set_up { IsSetUp setting.now }
    requires over { AreAssertionsOver (spec_in setting.now) assertions.now }
    ensures { IfOk result (HasEach (IsJudgedBy setting.now []) assertions.now) }
{
    let mut out = Items::new(alloc);
    for a in assertions {
        out.push(first_verdict(setting, a))?;
    }
    Ok(out)
}

/// What one test makes of an assertion that none has decided before.
fn verdict_of(decision: Decision) -> AssertVerdict
    ensures { result ≡ decided decision }
{
    match decision {
        Decision::Unsatisfiable => AssertVerdict::Yes,
        Decision::Satisfied(witness) => AssertVerdict::Unproved(witness),
        Decision::Over => AssertVerdict::Undecided,
    }
}

#[tactic(auto, using(scr_spec::proofs::Lookup::lookup_laws))]
fn is_open_at(verdicts: &Items<AssertVerdict>, i: usize) -> bool
    ensures { result ≡ option_map_or is_open (slice_get verdicts.now i) false }
{
    match verdicts.get(i) {
        Some(verdict) => verdict.is_open(),
        None => false,
    }
}

/// Tests each assertion that is not decided, where this variable changes.
#[tactic(auto, using(scr_spec::proofs::Lookup::lookup_laws))]
fn test_each(
    alloc: Global,
    setting: &Setting,
    change: &Change,
    assertions: &[Assertion],
    verdicts: &mut Items<AssertVerdict>,
) -> Result<(), NoMemory>
    requires set_up { IsSetUp setting.now }
    requires change { IsChangeIn setting.now change.now }
    requires over { AreAssertionsOver (spec_in setting.now) assertions.now }
    requires one_each { length verdicts.old ≡ length assertions.now }
    ensures next { OnOk result (AreNext setting.now change.now.changed assertions.now verdicts.old verdicts.new) }
    ensures one_each { OnOk result (length verdicts.new ≡ length assertions.now) }
{
    for (i, a) in assertions.iter().enumerate() {
        if is_open_at(verdicts, i) {
            let decision = test_change(alloc, setting, change, a)?;
            verdicts.set(i, verdict_of(decision));
        }
    }
    Ok(())
}

fn judge_in(
    alloc: Global,
    setting: &Setting,
    assertions: &[Assertion],
) -> Result<Items<AssertVerdict>, NoMemory>
    requires set_up { IsSetUp setting.now }
    requires over { AreAssertionsOver (spec_in setting.now) assertions.now }
    ensures { IfOk result (HasEach (IsJudgedBy setting.now (monitored_variables (spec_in setting.now))) assertions.now) }
{
    let mut verdicts = first_verdicts(alloc, setting, assertions)?;
    for x in setting.monitored {
        let change = of_change(alloc, setting, *x)?;
        test_each(alloc, setting, &change, assertions, &mut verdicts)?;
    }
    Ok(verdicts)
}

/// Judges assertions by induction over runs, what the lemmas say taken for granted: a one-state one
/// is first tried in the initial state; then each monitored variable is changed, each test with a
/// listing and a count of its own.
pub fn judge_assertions(
    alloc: Global,
    checked: &Checked,
    lemmas: &[Lemma],
    assertions: &[Assertion],
    limit: u32,
) -> Result<Items<AssertVerdict>, NoMemory>
    requires limit { limit ≤ SPLIT_LIMIT }
    requires lemmas { AreLemmasOver (data_of checked.now.spec) lemmas.now }
    requires over { AreAssertionsOver (data_of checked.now.spec) assertions.now }
    ensures judged { IfOk result (AreJudged (data_of checked.now.spec) checked.now.order.list lemmas.now limit assertions.now) }
{
    let first = initial(alloc, checked)?;
    let monitored = monitored(alloc, &checked.spec)?;
    let setting = Setting {
        checked,
        lemmas,
        limit,
        first: &first,
        monitored: monitored.as_slice(),
    };
    judge_in(alloc, &setting, assertions)
}

/// Judges one assertion.
pub fn judge_assertion(
    alloc: Global,
    checked: &Checked,
    lemmas: &[Lemma],
    a: &Assertion,
    limit: u32,
) -> Result<AssertVerdict, NoMemory>
    requires limit { limit ≤ SPLIT_LIMIT }
    requires lemmas { AreLemmasOver (data_of checked.now.spec) lemmas.now }
    requires over { IsTrue (is_cond_over (data_of checked.now.spec) a.now.cond) }
    ensures judged { IfOk result (IsJudged (data_of checked.now.spec) checked.now.order.list lemmas.now limit a.now) }
{
    let mut verdicts = judge_assertions(alloc, checked, lemmas, slice::from_ref(a), limit)?;
    Ok(verdicts.remove(0))
}

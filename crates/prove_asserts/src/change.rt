//! The tests in which one monitored variable changes.
ghost use Rattle.std.specs.Prelude.{◌≡◌, ◌≤◌, map, IsTrue, IfOk};
ghost use Rattle.dd_store.specs.declared.store.TheConstants.{SPLIT_LIMIT};
ghost use Rattle.scr_spec.specs.Over.{is_cond_over};
ghost use Rattle.scr_spec.specs.Relations.{is_monitored};
ghost use Rattle.prove_goals.specs.Pairs.{AreOver};
ghost use Rattle.prove_formula.specs.Frozen.{frozen};
ghost use Rattle.prove_decide.specs.Levels.{level_domains};
ghost use Rattle.prove_decide.specs.Alone.{IsDecided};
ghost use Rattle.prove_asserts.specs.Settings.{spec_in, order_in, IsSetUp, IsChangeIn, change_of, change_test_in, formula_in};

use crate::formula::{broken, common};
use crate::setting::Setting;
use base::NoMemory;
use prove_decide::{Decision, decide_conjunction};
use prove_formula::Formula;
use prove_invariants::push_frozen;
use scr_resolve_asserts::Assertion;
use sqlite_items::Items;
use std::alloc::Global;

/// What all tests in which this variable changes say of a pair of states, whatever is asserted.
#[derive(Drop)]
pub(crate) struct Change {
    pub changed: usize,
    pub members: Items<Formula>,
}

/// The members of the tests in which x changes that are the same for every assertion.
pub(crate) fn of_change(alloc: Global, setting: &Setting, x: usize) -> Result<Change, NoMemory>
    requires set_up { IsSetUp setting.now }
    requires monitored { IsTrue (is_monitored (spec_in setting.now) x) }
    ensures { IfOk result (λ change. change ≡ change_of (spec_in setting.now) (order_in setting.now) setting.now.lemmas.now x) }
{
    let spec = &setting.checked.spec;
    let order = setting.checked.order.list.as_slice();
    let formulas = common(alloc, spec, order, setting.lemmas, x)?;
    let mut members = Items::new(alloc);
    push_frozen(&mut members, alloc, spec, x, formulas.as_slice())?;
    Ok(Change {
        changed: x,
        members,
    })
}

/// Decides whether this change breaks the assertion of which `own` speaks.
fn decide_change(
    alloc: Global,
    setting: &Setting,
    change: &Change,
    own: &[Formula],
) -> Result<Decision, NoMemory>
    requires limit { setting.now.limit ≤ SPLIT_LIMIT }
    requires own { AreOver (spec_in setting.now) (map (frozen (spec_in setting.now) change.now.changed) own.now) }
    requires members { AreOver (spec_in setting.now) change.now.members }
    ensures { IfOk result (IsDecided (level_domains (spec_in setting.now)) setting.now.limit (formula_in setting.now own.now change.now)) }
{
    let spec = &setting.checked.spec;
    let mut first = Items::new(alloc);
    push_frozen(&mut first, alloc, spec, change.changed, own)?;
    let rest = change.members.as_slice();
    decide_conjunction(alloc, spec, first.as_slice(), rest, setting.limit)
}

/// Tests the assertion where this variable changes.
pub(crate) fn test_change(
    alloc: Global,
    setting: &Setting,
    change: &Change,
    a: &Assertion,
) -> Result<Decision, NoMemory>
    requires set_up { IsSetUp setting.now }
    requires change { IsChangeIn setting.now change.now }
    requires over { IsTrue (is_cond_over (spec_in setting.now) a.now.cond) }
    ensures { IfOk result (change_test_in setting.now a.now change.now.changed) }
{
    let own = broken(alloc, &setting.checked.spec, a)?;
    decide_change(alloc, setting, change, own.as_slice())
}

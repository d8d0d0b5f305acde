//! How a class moves.
ghost use Rattle.std.specs.Prelude.{◌≡◌, IsTrue, IfOk};
ghost use Rattle.scr_spec.specs.Shown.{data_of};
ghost use Rattle.scr_spec.specs.Relations.{is_monitored};
ghost use Rattle.scr_depend.specs.Dependencies.{graph_of};
ghost use Rattle.scr_depend.specs.Needs.{IsNeed};
ghost use Rattle.prove_invariants.specs.Formulas.{moved_formulas};
ghost use Rattle.prove_invariants.specs.Settings.{moved_by};

use crate::formula::push_frozen;
use base::NoMemory;
use prove_formula::{Formula, of_relation};
use prove_goals::{change, pairs};
use scr_depend::Checked;
use sqlite_items::Items;
use std::alloc::Global;

/// What the formulas of all tests of a class say of a pair of states in which this monitored variable
/// changes.
#[derive(Drop)]
pub(crate) struct Moved {
    pub changed: usize,
    pub members: Items<Formula>,
}

/// The pair is related for the class, which moves as its table allows.
fn moved_formulas(
    alloc: Global,
    checked: &Checked,
    need: &[usize],
    class: usize,
    x: usize,
) -> Result<Items<Formula>, NoMemory>
    requires needed { IsNeed (graph_of (data_of checked.now.spec)) class need.now }
    requires monitored { IsTrue (is_monitored (data_of checked.now.spec) x) }
    ensures { IfOk result (λ fs. fs ≡ moved_formulas (data_of checked.now.spec) checked.now.order.list need.now class x) }
{
    let spec = &checked.spec;
    let mut out = pairs(alloc, spec, &checked.order, class, x)?;
    let _change = out.pop();
    let relation = of_relation(alloc, spec, class)?;
    let change = change(alloc, spec, x)?;
    out.push(relation)?;
    out.push(change)?;
    Ok(out)
}

/// What the tests of the class say where x changes.
pub(crate) fn of_change(
    alloc: Global,
    checked: &Checked,
    need: &[usize],
    class: usize,
    x: usize,
) -> Result<Moved, NoMemory>
    requires needed { IsNeed (graph_of (data_of checked.now.spec)) class need.now }
    requires monitored { IsTrue (is_monitored (data_of checked.now.spec) x) }
    ensures { IfOk result (λ moved. moved ≡ moved_by (data_of checked.now.spec) checked.now.order.list need.now class x) }
{
    let formulas = moved_formulas(alloc, checked, need, class, x)?;
    let mut members = Items::new(alloc);
    push_frozen(&mut members, alloc, &checked.spec, x, formulas.as_slice())?;
    Ok(Moved {
        changed: x,
        members,
    })
}

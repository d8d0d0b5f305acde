//! One formula, or one conjunction, by itself.
ghost use Rattle.std.specs.Prelude.{◌≤◌, ◌++◌, IsTrue, IfOk};
ghost use Rattle.std.specs.List.{list_all};
ghost use Rattle.dd_formula.specs.declared.formula.Formula.TheVariants.{And};
ghost use Rattle.dd_formula.specs.Measure.{all_atoms};
ghost use Rattle.scr_spec.specs.Shown.{data_of};
ghost use Rattle.prove_formula.specs.Measure.{is_atom_over, IsOver};
ghost use Rattle.prove_decide.specs.Levels.{level_domains};
ghost use Rattle.prove_decide.specs.Alone.{IsDecided};
ghost use Rattle.dd_store.specs.declared.store.TheConstants.{SPLIT_LIMIT};

use crate::decision::{Decision, list_conjunction};
use crate::levels::{new_store, places};
use base::NoMemory;
use prove_formula::Formula;
use scr_spec::Spec;
use std::alloc::Global;
use std::slice;

/// Lists the conjunction of members in two places, over the levels of a specification, in a store of
/// its own: whether its listing has more distinct splits than the limit; and if not, its witness, or
/// that it is never true.
pub fn decide_conjunction(
    alloc: Global,
    spec: &Spec,
    first: &[Formula],
    rest: &[Formula],
    limit: u32,
) -> Result<Decision, NoMemory>
    requires limit { limit ≤ SPLIT_LIMIT }
    requires first { IsTrue (list_all (all_atoms (is_atom_over (data_of spec.now))) first.now) }
    requires rest { IsTrue (list_all (all_atoms (is_atom_over (data_of spec.now))) rest.now) }
    ensures { IfOk result (IsDecided (level_domains (data_of spec.now)) limit (And (first.now ++ rest.now))) }
{
    let mut store = new_store(alloc, spec, limit)?;
    let mut codes = places(alloc, &store)?;
    let places = codes.as_mut_slice();
    let decision = list_conjunction(alloc, &mut store, places, first, rest)?;
    Ok(decision)
}

/// The same of one formula.
pub fn decide(alloc: Global, spec: &Spec, f: &Formula, limit: u32) -> Result<Decision, NoMemory>
    requires limit { limit ≤ SPLIT_LIMIT }
    requires over { IsOver (data_of spec.now) f.now }
    ensures { IfOk result (IsDecided (level_domains (data_of spec.now)) limit f.now) }
{
    decide_conjunction(alloc, spec, slice::from_ref(f), &[], limit)
}

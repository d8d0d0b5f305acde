//! Lists in which no condition stands twice.
ghost use Rattle.std.specs.Prelude.{◌≡◌, ◌↔◌, [], ◌∷◌, IsTrue, OnOk, Contains};
ghost use Rattle.prove_candidates.specs.New.{AddsNew};

use crate::same::is_same;
use base::NoMemory;
use scr_spec::Cond;
use sqlite_items::Items;

#[tactic(auto, using(crate::proofs::Listing::contain_laws))]
fn contains(conditions: &[Cond], c: &Cond) -> bool
    ensures { IsTrue result ↔ Contains conditions.now c.now }
{
    for listed in conditions {
        if is_same(listed, c) {
            return true;
        }
    }
    false
}

/// Adds the condition where it is not there yet.
#[tactic(auto, using(crate::proofs::Listing::add_laws))]
pub(crate) fn add_new(out: &mut Items<Cond>, c: Cond) -> Result<(), NoMemory>
    ensures { OnOk result (AddsNew out.old (c ∷ []) out.new) }
{
    if !contains(out.as_slice(), &c) {
        out.push(c)?;
    }
    Ok(())
}

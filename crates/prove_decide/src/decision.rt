//! One formula or conjunction more: its listing, and whether it can be true.
ghost use Rattle.std.specs.Prelude.{◌≡◌, ◌++◌, IfOk, length};
ghost use Rattle.dd_formula.specs.declared.formula.Formula.TheVariants.{And};
ghost use Rattle.dd_store.specs.Held.{Has};
ghost use Rattle.dd_build.specs.Built.{Keeps};
ghost use Rattle.dd_build.specs.Formulas.{IsFormulaOver, AreFormulasOver, formula_tree};
ghost use Rattle.prove_decide.specs.Decisions.{IsDecision, IsAnswer};

use crate::witness::{Witness, witness_of};
use base::NoMemory;
use dd_build::build_conjunction;
use dd_store::{Id, Store, StoreFault};
use dd_witness::least;
use prove_formula::Formula;
use std::alloc::Global;
use std::slice;

/// What listing a formula told: that its splits are too many, that it is never true, or its witness.
#[derive(Drop)]
pub enum Decision {
    Over,
    Unsatisfiable,
    Satisfied(Witness),
}

/// The witness of a conjunction whose tree is in the store.
#[tactic(auto, using(crate::proofs::Answers::answer_laws))]
fn answer(
    alloc: Global,
    store: &Store,
    id: Id,
    codes: &mut [i64],
    first: &[Formula],
    rest: &[Formula],
) -> Result<Option<Witness>, NoMemory>
    requires has { Has store.now id (formula_tree store.now (And (first.now ++ rest.now))) }
    requires long { length codes.old ≡ length store.now.domains }
    ensures answer { IfOk result (IsAnswer store.now.domains (And (first.now ++ rest.now))) }
    ensures long { length codes.new ≡ length codes.old }
{
    store.reveal();
    if least(store, id, codes) {
        return Ok(Some(witness_of(alloc, first, rest, codes)?));
    }
    Ok(None)
}

/// Lists the conjunction of members in two places behind the formulas whose trees are in the store, which holds what it
/// held after a fault, too. `codes` has a place for each level.
pub fn list_conjunction(
    alloc: Global,
    store: &mut Store,
    codes: &mut [i64],
    first: &[Formula],
    rest: &[Formula],
) -> Result<Decision, NoMemory>
    requires first { AreFormulasOver store.old.domains first.now }
    requires rest { AreFormulasOver store.old.domains rest.now }
    requires long { length codes.old ≡ length store.old.domains }
    ensures decision { IfOk result (IsDecision store.old store.new (And (first.now ++ rest.now))) }
    ensures domains { store.new.domains ≡ store.old.domains }
    ensures keeps { Keeps store.old store.new }
    ensures long { length codes.new ≡ length codes.old }
{
    let id = match build_conjunction(store, first, rest) {
        Ok(id) => id,
        Err(StoreFault::Full) => return Ok(Decision::Over),
        Err(StoreFault::NoMemory) => return Err(NoMemory),
    };
    match answer(alloc, store, id, codes, first, rest)? {
        Some(witness) => Ok(Decision::Satisfied(witness)),
        None => Ok(Decision::Unsatisfiable),
    }
}

/// Lists a formula behind those whose trees are in the store, which holds what it held after a fault, too. `codes` has a
/// place for each level.
pub fn list_formula(
    alloc: Global,
    store: &mut Store,
    codes: &mut [i64],
    f: &Formula,
) -> Result<Decision, NoMemory>
    requires over { IsFormulaOver store.old.domains f.now }
    requires long { length codes.old ≡ length store.old.domains }
    ensures decision { IfOk result (IsDecision store.old store.new f.now) }
    ensures domains { store.new.domains ≡ store.old.domains }
    ensures keeps { Keeps store.old store.new }
    ensures long { length codes.new ≡ length codes.old }
{
    list_conjunction(alloc, store, codes, slice::from_ref(f), &[])
}

//! Witnesses.
ghost use Rattle.std.specs.Prelude.{◌≡◌, ◌==◌, ◌++◌, IfOk};
ghost use Rattle.std.specs.List.{list_any};
ghost use Rattle.dd_formula.specs.declared.formula.Formula.TheVariants.{And};
ghost use Rattle.prove_decide.specs.Readings.{occurs, readings_of};

use base::NoMemory;
use prove_formula::{Formula, Term};
use sqlite_items::Items;
use std::alloc::Global;

/// The code of a level. Level `2 * v` is the old value of the variable with number `v`, and level
/// `2 * v + 1` its new value.
#[derive(Clone, Copy, Debug, PartialEq, Eq)]
pub struct Reading {
    pub level: usize,
    pub code: i64,
}

/// The least codes that make a formula true, of the levels that occur in it alone, in the order of
/// the levels.
#[derive(Drop)]
pub struct Witness {
    pub readings: Items<Reading>,
}

fn any_term(terms: &[Term], level: usize) -> bool
    ensures { result ≡ list_any (λ t. t.level == level) terms.now }
{
    terms.iter().any(|term| term.level == level)
}

/// Whether the level occurs in a term of the formula.
#[cycle(occurs)]
#[tactic(auto, using(crate::proofs::Occurs::occurs_laws, dd_formula::specs::declared::formula::Formula::TheViews::the_lemmas))]
fn occurs(f: &Formula, level: usize) -> bool
    ensures { result ≡ occurs level f.now }
{
    match f {
        Formula::True | Formula::False => false,
        Formula::Atom(a) => any_term(a.terms.as_slice(), level),
        Formula::Not(member) => occurs(member.get(), level),
        Formula::And(members) => any_occurs(members.as_slice(), level),
        Formula::Or(members) => any_occurs(members.as_slice(), level),
    }
}

#[cycle(occurs)]
fn any_occurs(fs: &[Formula], level: usize) -> bool
    ensures { result ≡ list_any (occurs level) fs.now }
{
    for member in fs {
        if occurs(member, level) {
            return true;
        }
    }
    false
}

/// Whether the level occurs in a member of one of two lists.
fn occurs_in(first: &[Formula], rest: &[Formula], level: usize) -> bool
    ensures { result ≡ occurs level (And (first.now ++ rest.now)) }
{
    any_occurs(first, level) || any_occurs(rest, level)
}

/// The codes of the levels that occur in the conjunction of members in two places, of those in
/// `codes`, which has one for each level.
#[tactic(auto, using(crate::proofs::Occurs::more_readings))]
pub fn witness_of(
    alloc: Global,
    first: &[Formula],
    rest: &[Formula],
    codes: &[i64],
) -> Result<Witness, NoMemory>
    ensures { IfOk result (λ w. w.readings ≡ readings_of (And (first.now ++ rest.now)) codes.now) }
{
    let mut readings = Items::new(alloc);
    for (level, code) in codes.iter().enumerate() {
        if occurs_in(first, rest, level) {
            readings.push(Reading { level, code: *code })?;
        }
    }
    Ok(Witness { readings })
}

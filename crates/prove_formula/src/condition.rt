//! The formula of a condition.
ghost use Rattle.std.specs.Prelude.{◌≡◌, ◌<◌, ◌≤◌, map, unsigned_abs, IsTrue, IfOk};
ghost use Rattle.std.specs.List.{list_all};
ghost use Rattle.scr_spec.specs.Shown.{data_of};
ghost use Rattle.scr_spec.specs.Over.{is_side_over, is_cond_over};
ghost use Rattle.dd_formula.specs.declared.formula.Formula.TheVariants.{Atom};
ghost use Rattle.dd_formula.specs.declared.formula.Op.TheVariants.{Eq, Le};
ghost use Rattle.prove_formula.specs.Sides.{difference, one_more};
ghost use Rattle.prove_formula.specs.Conditions.{has_code, compared, formula_read, condition_formula, pair_formula, HasTruthOf, HasTruthBetween};
ghost use Rattle.prove_formula.specs.Measure.{IsOver};

use crate::level::level_at;
use crate::side::{Reading, difference_at, plain_in_new};
use crate::{Formula, Linear, Op, Term};
use base::{NoMemory, Relation};
use scr_spec::{Cond, Expr, Spec};
use sqlite_items::Items;
use std::alloc::Global;

/// The variable has the code in the new state, or in the old.
pub fn variable_is(alloc: Global, v: usize, new: bool, code: i64) -> Result<Formula, NoMemory>
    requires number { v < 128 }
    requires narrow { unsigned_abs code ≤ 1000000 }
    ensures { IfOk result (λ f. f ≡ has_code new v code) }
{
    let mut terms = Items::new(alloc);
    terms.push(Term {
        factor: 1,
        level: level_at(v, new),
    })?;
    Ok(Formula::Atom(Linear {
        terms,
        constant: -code,
        op: Op::Eq,
    }))
}

#[tactic(auto, using(std::proofs::lemmas::Int::ints))]
fn with_one_more(atom: Linear) -> Linear
    requires { unsigned_abs atom.constant ≤ 4000000000 }
    ensures { result ≡ one_more atom }
{
    Linear {
        terms: atom.terms,
        constant: atom.constant + 1,
        op: atom.op,
    }
}

fn equal_at(
    alloc: Global,
    spec: &Spec,
    reading: Reading,
    left: &Expr,
    right: &Expr,
) -> Result<Formula, NoMemory>
    requires left_over { IsTrue (is_side_over (data_of spec.now) left.now) }
    requires right_over { IsTrue (is_side_over (data_of spec.now) right.now) }
    ensures { IfOk result (λ f. f ≡ Atom (difference (data_of spec.now) reading left.now right.now Eq)) }
{
    let atom = difference_at(alloc, spec, reading, left, right, Op::Eq)?;
    Ok(Formula::Atom(atom))
}

fn at_most_at(
    alloc: Global,
    spec: &Spec,
    reading: Reading,
    left: &Expr,
    right: &Expr,
) -> Result<Formula, NoMemory>
    requires left_over { IsTrue (is_side_over (data_of spec.now) left.now) }
    requires right_over { IsTrue (is_side_over (data_of spec.now) right.now) }
    ensures { IfOk result (λ f. f ≡ Atom (difference (data_of spec.now) reading left.now right.now Le)) }
{
    let atom = difference_at(alloc, spec, reading, left, right, Op::Le)?;
    Ok(Formula::Atom(atom))
}

fn less_at(
    alloc: Global,
    spec: &Spec,
    reading: Reading,
    left: &Expr,
    right: &Expr,
) -> Result<Formula, NoMemory>
    requires left_over { IsTrue (is_side_over (data_of spec.now) left.now) }
    requires right_over { IsTrue (is_side_over (data_of spec.now) right.now) }
    ensures { IfOk result (λ f. f ≡ Atom (one_more (difference (data_of spec.now) reading left.now right.now Le))) }
{
    let atom = difference_at(alloc, spec, reading, left, right, Op::Le)?;
    Ok(Formula::Atom(with_one_more(atom)))
}

fn compared_at(
    alloc: Global,
    spec: &Spec,
    reading: Reading,
    left: &Expr,
    relation: Relation,
    right: &Expr,
) -> Result<Formula, NoMemory>
    requires left_over { IsTrue (is_side_over (data_of spec.now) left.now) }
    requires right_over { IsTrue (is_side_over (data_of spec.now) right.now) }
    ensures { IfOk result (λ f. f ≡ compared (data_of spec.now) reading left.now relation right.now) }
{
    match relation {
        Relation::Equal => equal_at(alloc, spec, reading, left, right),
        Relation::Differ => {
            let same = equal_at(alloc, spec, reading, left, right)?;
            Formula::negation(alloc, same)
        }
        Relation::Less => less_at(alloc, spec, reading, left, right),
        Relation::AtMost => at_most_at(alloc, spec, reading, left, right),
        Relation::Greater => less_at(alloc, spec, reading, right, left),
        Relation::AtLeast => at_most_at(alloc, spec, reading, right, left),
    }
}

#[cycle(made)]
#[tactic(auto, using(scr_spec::proofs::Laws::cond_laws, crate::proofs::ConditionLaws::condition_laws, scr_spec::specs::declared::cond::Cond::TheViews::the_lemmas))]
fn condition_at(alloc: Global, spec: &Spec, c: &Cond, reading: Reading) -> Result<Formula, NoMemory>
    requires { IsTrue (is_cond_over (data_of spec.now) c.now) }
    ensures { IfOk result (λ f. f ≡ formula_read (data_of spec.now) reading c.now) }
{
    match c {
        Cond::Truth(true) => Ok(Formula::True),
        Cond::Truth(false) => Ok(Formula::False),
        Cond::Holds(v) => variable_is(alloc, *v, plain_in_new(reading), 1),
        Cond::Compare(left, relation, right) => {
            compared_at(alloc, spec, reading, left, *relation, right)
        }
        Cond::Not(c) => {
            let member = condition_at(alloc, spec, c.get(), reading)?;
            Formula::negation(alloc, member)
        }
        Cond::And(cs) => {
            let members = conditions_at(alloc, spec, cs.as_slice(), reading)?;
            Ok(Formula::conjunction(members))
        }
        Cond::Or(cs) => {
            let members = conditions_at(alloc, spec, cs.as_slice(), reading)?;
            Ok(Formula::disjunction(members))
        }
    }
}

#[cycle(made)]
fn conditions_at(
    alloc: Global,
    spec: &Spec,
    cs: &[Cond],
    reading: Reading,
) -> Result<Items<Formula>, NoMemory>
    requires { IsTrue (list_all (is_cond_over (data_of spec.now)) cs.now) }
    ensures { IfOk result (λ fs. fs ≡ map (formula_read (data_of spec.now) reading) cs.now) }
{
    let mut members = Items::new(alloc);
    for c in cs {
        let member = condition_at(alloc, spec, c, reading)?;
        members.push(member)?;
    }
    Ok(members)
}

/// The formula of a condition, read in the new state where `new` is true and in the old one else.
#[tactic(auto, using(crate::proofs::ConditionTruth::truth_of_ok))]
pub fn of_cond(alloc: Global, spec: &Spec, c: &Cond, new: bool) -> Result<Formula, NoMemory>
    requires { IsTrue (is_cond_over (data_of spec.now) c.now) }
    ensures formula { IfOk result (λ f. f ≡ condition_formula (data_of spec.now) new c.now) }
    ensures truth { IfOk result (λ f. HasTruthOf (data_of spec.now) new c.now f) }
    ensures narrow { IfOk result (λ f. IsOver (data_of spec.now) f) }
{
    condition_at(alloc, spec, c, Reading::In(new))
}

/// The formula of a condition between two states, which reads unprimed names in the old state and
/// primed ones in the new.
#[tactic(auto, using(crate::proofs::ConditionTruth::truth_between_ok))]
pub fn of_pair_cond(alloc: Global, spec: &Spec, c: &Cond) -> Result<Formula, NoMemory>
    requires { IsTrue (is_cond_over (data_of spec.now) c.now) }
    ensures formula { IfOk result (λ f. f ≡ pair_formula (data_of spec.now) c.now) }
    ensures truth { IfOk result (λ f. HasTruthBetween (data_of spec.now) c.now f) }
    ensures narrow { IfOk result (λ f. IsOver (data_of spec.now) f) }
{
    condition_at(alloc, spec, c, Reading::Across)
}

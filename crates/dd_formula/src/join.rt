//! Formulas joined by not, and, or.
ghost use Rattle.std.specs.Prelude.{◌≡◌, [], ◌∷◌, IfOk};
ghost use Rattle.dd_formula.specs.declared.formula.Formula.TheVariants.{Not, And, Or};
ghost use Rattle.dd_formula.specs.Joined.{all_of, any_of};

use crate::Formula;
use base::NoMemory;
use sqlite_items::{Boxed, Items};
use std::alloc::Global;

fn pair(alloc: Global, f: Formula, g: Formula) -> Result<Items<Formula>, NoMemory>
    ensures { IfOk result (λ fs. fs ≡ f ∷ g ∷ []) }
{
    let mut members = Items::new(alloc);
    members.push(f)?;
    members.push(g)?;
    Ok(members)
}

impl Formula {
    /// True exactly where `f` is not.
    pub fn negation(alloc: Global, f: Formula) -> Result<Formula, NoMemory>
        ensures { IfOk result (λ g. g ≡ Not f) }
    {
        Ok(Formula::Not(Boxed::new(alloc, f)?))
    }

    /// True exactly where both are.
    pub fn both(alloc: Global, f: Formula, g: Formula) -> Result<Formula, NoMemory>
        ensures { IfOk result (λ h. h ≡ And (f ∷ g ∷ [])) }
    {
        Ok(Formula::And(pair(alloc, f, g)?))
    }

    /// True exactly where one of them is.
    pub fn either(alloc: Global, f: Formula, g: Formula) -> Result<Formula, NoMemory>
        ensures { IfOk result (λ h. h ≡ Or (f ∷ g ∷ [])) }
    {
        Ok(Formula::Or(pair(alloc, f, g)?))
    }

    /// True exactly where each member is, and so without members. A single member is not wrapped.
    pub fn conjunction(mut members: Items<Formula>) -> Formula
        ensures { result ≡ all_of members }
    {
        match members.len() {
            0 => Formula::True,
            1 => match members.pop() {
                Some(member) => member,
                None => Formula::True,
            },
            _ => Formula::And(members),
        }
    }

    /// True exactly where some member is, and so nowhere without members. A single member is not
    /// wrapped.
    pub fn disjunction(mut members: Items<Formula>) -> Formula
        ensures { result ≡ any_of members }
    {
        match members.len() {
            0 => Formula::False,
            1 => match members.pop() {
                Some(member) => member,
                None => Formula::False,
            },
            _ => Formula::Or(members),
        }
    }
}

//! Conditions: the first unknown name, whether they are well typed and within the bound of a side,
//! and what they resolve to.
ghost use Rattle.std.specs.Prelude.{◌≡◌, map, IfOk};
ghost use Rattle.std.specs.Option.{option_copied};
ghost use Rattle.std.specs.List.{list_all};
ghost use Rattle.scr_spec.specs.Sorts as sorts;
ghost use Rattle.scr_spec.specs.Typed as typed;
ghost use Rattle.scr_scope.specs.First as first;
ghost use Rattle.scr_scope.specs.Conditions as spec;

use crate::known::Known;
use crate::side::has_sort;
use base::{Name, NoMemory, Relation};
use scr_parse::{DraftCond, DraftItem};
use scr_spec::{Cond, Operand, Sort};
use sqlite_items::{Boxed, Items};
use std::alloc::Global;

fn is_equality(relation: Relation) -> bool
    ensures { result ≡ typed.is_equality relation }
{
    matches!(&relation, Relation::Equal | Relation::Differ)
}

fn are_comparable(relation: Relation, left: Sort, right: Sort) -> bool
    ensures { result ≡ typed.are_comparable relation left right }
{
    left == right && (left == Sort::Integer || is_equality(relation))
}

fn is_comparison(relation: Relation, left: Option<Sort>, right: Option<Sort>) -> bool
    ensures { result ≡ typed.is_comparison relation left right }
{
    match (left, right) {
        (Some(left), Some(right)) => are_comparable(relation, left, right),
        _ => false,
    }
}

fn operand_cond(operand: Operand) -> Cond
    ensures { result ≡ spec.operand_cond operand }
{
    match operand {
        Operand::Truth(truth) => Cond::Truth(truth),
        Operand::Variable(v) => Cond::Holds(v),
        _ => Cond::Truth(false),
    }
}

impl Known {
    /// The first name in the condition that is not declared.
    #[cycle(unknown)]
    #[tactic(auto, using(crate::proofs::CondLaws::unknown_laws, scr_parse::specs::declared::draft::DraftCond::TheViews::the_lemmas))]
    pub fn unknown_cond<'a>(&self, cond: &'a DraftCond) -> Option<&'a Name>
        ensures { option_copied result ≡ spec.unknown_cond self.now cond.now }
    {
        match cond {
            DraftCond::Alone(side) => self.unknown_side(side),
            DraftCond::Compare(left, _, right) => match self.unknown_side(left) {
                Some(name) => Some(name),
                None => self.unknown_side(right),
            },
            DraftCond::Not(cond) => self.unknown_cond(cond.get()),
            DraftCond::And(conds) | DraftCond::Or(conds) => self.unknown_conds(conds.as_slice()),
        }
    }

    #[cycle(unknown)]
    fn unknown_conds<'a>(&self, conds: &'a [DraftCond]) -> Option<&'a Name>
        ensures { option_copied result ≡ first.first_in (spec.unknown_cond self.now) conds.now }
    {
        for cond in conds {
            if let Some(name) = self.unknown_cond(cond) {
                return Some(name);
            }
        }
        None
    }

    /// Whether the condition is well typed.
    #[cycle(typed)]
    #[tactic(auto, using(crate::proofs::CondLaws::typed_laws, scr_parse::specs::declared::draft::DraftCond::TheViews::the_lemmas))]
    pub fn is_typed_cond(&self, cond: &DraftCond) -> bool
        ensures { result ≡ spec.is_typed_cond self.now cond.now }
    {
        match cond {
            DraftCond::Alone(side) => has_sort(Sort::Boolean, self.side_sort(side)),
            DraftCond::Compare(left, relation, right) => {
                is_comparison(*relation, self.side_sort(left), self.side_sort(right))
            }
            DraftCond::Not(cond) => self.is_typed_cond(cond.get()),
            DraftCond::And(conds) | DraftCond::Or(conds) => self.are_typed_conds(conds.as_slice()),
        }
    }

    #[cycle(typed)]
    fn are_typed_conds(&self, conds: &[DraftCond]) -> bool
        ensures { result ≡ list_all (spec.is_typed_cond self.now) conds.now }
    {
        for cond in conds {
            if !self.is_typed_cond(cond) {
                return false;
            }
        }
        true
    }

    /// Whether the bound of each side is at most `SIDE_LIMIT`.
    #[cycle(narrow)]
    #[tactic(auto, using(crate::proofs::CondLaws::narrow_laws, scr_parse::specs::declared::draft::DraftCond::TheViews::the_lemmas))]
    pub fn is_narrow_cond(&self, cond: &DraftCond) -> bool
        ensures { result ≡ spec.is_narrow_cond self.now cond.now }
    {
        match cond {
            DraftCond::Alone(side) => self.is_narrow_side(side),
            DraftCond::Compare(left, _, right) => {
                self.is_narrow_side(left) && self.is_narrow_side(right)
            }
            DraftCond::Not(cond) => self.is_narrow_cond(cond.get()),
            DraftCond::And(conds) | DraftCond::Or(conds) => self.are_narrow_conds(conds.as_slice()),
        }
    }

    #[cycle(narrow)]
    fn are_narrow_conds(&self, conds: &[DraftCond]) -> bool
        ensures { result ≡ list_all (spec.is_narrow_cond self.now) conds.now }
    {
        for cond in conds {
            if !self.is_narrow_cond(cond) {
                return false;
            }
        }
        true
    }

    fn alone_of(&self, items: &[DraftItem]) -> Cond
        ensures { result ≡ spec.alone_of self.now items.now }
    {
        match items.first() {
            Some(item) => operand_cond(self.operand_of(&item.operand)),
            None => Cond::Truth(false),
        }
    }

    /// What the condition resolves to.
    #[cycle(made)]
    #[tactic(auto, using(crate::proofs::CondLaws::made_laws, scr_parse::specs::declared::draft::DraftCond::TheViews::the_lemmas))]
    pub fn cond_of(&self, alloc: Global, cond: &DraftCond) -> Result<Cond, NoMemory>
        ensures { IfOk result (λ made. made ≡ spec.cond_of self.now cond.now) }
    {
        match cond {
            DraftCond::Alone(side) => Ok(self.alone_of(side.items.as_slice())),
            DraftCond::Compare(left, relation, right) => {
                let left = self.side_of(alloc, left)?;
                let right = self.side_of(alloc, right)?;
                Ok(Cond::Compare(left, *relation, right))
            }
            DraftCond::Not(cond) => {
                let part = self.cond_of(alloc, cond.get())?;
                Ok(Cond::Not(Boxed::new(alloc, part)?))
            }
            DraftCond::And(conds) => {
                let parts = self.conds_of(alloc, conds.as_slice())?;
                Ok(Cond::And(parts))
            }
            DraftCond::Or(conds) => {
                let parts = self.conds_of(alloc, conds.as_slice())?;
                Ok(Cond::Or(parts))
            }
        }
    }

    #[cycle(made)]
    fn conds_of(&self, alloc: Global, conds: &[DraftCond]) -> Result<Items<Cond>, NoMemory>
        ensures { IfOk result (λ made. made ≡ map (spec.cond_of self.now) conds.now) }
    {
        let mut parts = Items::from_vec(Vec::with_capacity(alloc, conds.len())?);
        for cond in conds {
            let part = self.cond_of(alloc, cond)?;
            parts.push(part)?;
        }
        Ok(parts)
    }
}

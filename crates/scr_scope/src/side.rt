//! Sides: the first unknown name, the sort, and what they resolve to.
ghost use Rattle.std.specs.Prelude.{◌≡◌, ◌&&◌, IfOk};
ghost use Rattle.std.specs.Option.{option_copied};
ghost use Rattle.std.specs.List.{list_all, list_any};
ghost use Rattle.scr_spec.specs.Sorts.{is_sort};
ghost use Rattle.scr_spec.specs.Typed as typed;
ghost use Rattle.scr_scope.specs.Meanings as names;
ghost use Rattle.scr_scope.specs.Sides as spec;

use crate::known::Known;
use crate::meaning::Meaning;
use base::{Name, NoMemory};
use scr_parse::{DraftItem, DraftOperand, DraftSide};
use scr_spec::{Expr, Heading, Item, Operand, Sort, variable_sort};
use sqlite_items::Items;
use std::alloc::Global;

/// Whether there is a sort, and it is this one.
pub(crate) fn has_sort(sort: Sort, found: Option<Sort>) -> bool
    ensures { result ≡ is_sort sort found }
{
    match found {
        Some(found) => sort == found,
        None => false,
    }
}

fn operand_meant(meaning: Meaning) -> Option<Operand>
    ensures { result ≡ names.operand_meant meaning }
{
    match meaning {
        Meaning::Type(_) => None,
        Meaning::Constant(k) => Some(Operand::Constant(k)),
        Meaning::Label(owner, place) => Some(Operand::Label(owner, i64::from(place))),
        Meaning::Variable(v) => Some(Operand::Variable(v)),
    }
}

fn is_primed(item: &DraftItem) -> bool
    ensures { result ≡ spec.is_primed item.now }
{
    matches!(&item.operand, DraftOperand::Primed(_))
}

/// Whether a name in the side is primed.
pub fn has_primes(side: &DraftSide) -> bool
    ensures { result ≡ list_any spec.is_primed side.now.items }
{
    side.items.as_slice().iter().any(is_primed)
}

fn takes_primes(heading: Heading) -> bool
    ensures { result ≡ spec.takes_primes heading }
{
    match heading {
        Heading::Condition => false,
        Heading::Event | Heading::Modes => true,
    }
}

impl Known {
    fn unknown_operand<'a>(&self, operand: &'a DraftOperand) -> Option<&'a Name>
        ensures { option_copied result ≡ spec.unknown_operand self.now operand.now }
    {
        match operand {
            DraftOperand::Plain(name) | DraftOperand::Primed(name) => self.unknown(name),
            _ => None,
        }
    }

    /// The first name in the side that is not declared.
    pub fn unknown_side<'a>(&self, side: &'a DraftSide) -> Option<&'a Name>
        ensures { option_copied result ≡ spec.unknown_side self.now side.now }
    {
        for item in side.items.as_slice() {
            if let Some(name) = self.unknown_operand(&item.operand) {
                return Some(name);
            }
        }
        None
    }

    /// What the operand stands for. None for a name that stands for no operand.
    pub(crate) fn operand_named(&self, operand: &DraftOperand) -> Option<Operand>
        ensures { result ≡ spec.operand_named self.now operand.now }
    {
        match operand {
            DraftOperand::One => Some(Operand::One),
            DraftOperand::Truth(truth) => Some(Operand::Truth(*truth)),
            DraftOperand::Plain(name) => operand_meant(self.names.get(name)?),
            DraftOperand::Primed(name) => Some(Operand::Primed(self.variable_named(name)?)),
        }
    }

    pub(crate) fn operand_of(&self, operand: &DraftOperand) -> Operand
        ensures { result ≡ spec.operand_of self.now operand.now }
    {
        self.operand_named(operand).unwrap_or(Operand::One)
    }

    fn item_of(&self, item: &DraftItem) -> Item
        ensures { result ≡ spec.item_of self.now item.now }
    {
        Item {
            factor: item.factor,
            operand: self.operand_of(&item.operand),
        }
    }

    /// What the side resolves to.
    pub fn side_of(&self, alloc: Global, side: &DraftSide) -> Result<Expr, NoMemory>
        ensures { IfOk result (λ made. made ≡ spec.side_of self.now side.now) }
    {
        let mut items = Items::from_vec(Vec::with_capacity(alloc, side.items.len())?);
        for item in side.items.as_slice() {
            items.push(self.item_of(item))?;
        }
        Ok(Expr { items })
    }

    fn variable_sort(&self, v: usize) -> Option<Sort>
        ensures { result ≡ spec.sort_of_variable self.now v }
    {
        variable_sort(self.types.as_slice(), self.variables.as_slice(), v)
    }

    fn operand_sort(&self, operand: Operand) -> Option<Sort>
        ensures { result ≡ typed.operand_sort (names.seen self.now) operand }
    {
        match operand {
            Operand::One | Operand::Constant(_) => Some(Sort::Integer),
            Operand::Truth(_) => Some(Sort::Boolean),
            Operand::Label(owner, _) => Some(Sort::Labels(owner)),
            Operand::Variable(v) | Operand::Primed(v) => self.variable_sort(v),
        }
    }

    fn item_sort(&self, item: &DraftItem) -> Option<Sort>
        ensures { result ≡ spec.draft_item_sort self.now item.now }
    {
        self.operand_sort(self.operand_named(&item.operand)?)
    }

    fn are_integers(&self, items: &[DraftItem]) -> bool
        ensures { result ≡ list_all (spec.is_integer_item self.now) items.now }
    {
        items
            .iter()
            .all(|item| has_sort(Sort::Integer, self.item_sort(item)))
    }

    fn single_sort(&self, items: &[DraftItem]) -> Option<Sort>
        ensures { result ≡ typed.single_sort spec.draft_factor (spec.draft_item_sort self.now) items.now }
    {
        match items {
            [item] => {
                if item.factor == 1 {
                    self.item_sort(item)
                } else {
                    None
                }
            }
            _ => None,
        }
    }

    /// The sort of a side. None where it is not well typed.
    pub fn side_sort(&self, side: &DraftSide) -> Option<Sort>
        ensures { result ≡ spec.draft_sort self.now side.now }
    {
        if self.are_integers(side.items.as_slice()) {
            Some(Sort::Integer)
        } else {
            self.single_sort(side.items.as_slice())
        }
    }

    /// Whether the side is a well typed value in a table of that heading for that variable.
    pub fn is_typed_value(&self, heading: Heading, v: usize, side: &DraftSide) -> bool
        ensures { result ≡ spec.is_typed_value self.now heading v side.now }
    {
        match self.variable_sort(v) {
            Some(sort) => {
                has_sort(sort, self.side_sort(side)) && (takes_primes(heading) || !has_primes(side))
            }
            None => false,
        }
    }
}

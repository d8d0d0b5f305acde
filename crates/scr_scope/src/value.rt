//! The value of a side without variables.
ghost use Rattle.std.specs.Prelude.{◌≡◌, ◌≤◌, ◌+◌, ◌*ℤ◌, ◌+ℤ◌, [], IsTrue, length, unsigned_abs};
ghost use Rattle.std.specs.List.{list_all};
ghost use Rattle.base.specs.declared.limits.TheConstants.{NUMBER_LIMIT};
ghost use Rattle.scr_spec.specs.declared.limits.TheConstants.{ITEM_LIMIT};
ghost use Rattle.scr_spec.specs.Meaning.{operand_value, item_value};
ghost use Rattle.scr_spec.specs.Sorts.{constant_at};
ghost use Rattle.scr_scope.specs.Meanings.{seen, operand_meant};
ghost use Rattle.scr_scope.specs.Sides as spec;

use crate::known::Known;
use crate::meaning::Meaning;
use scr_parse::{DraftItem, DraftOperand, DraftSide};
use scr_spec::{Constant, variable_range};

#[tactic(auto, using(crate::proofs::Products::product_bounds))]
fn times(factor: i64, value: i64) -> i64
    requires factor { unsigned_abs factor ≤ NUMBER_LIMIT }
    requires value { unsigned_abs value ≤ 4294967296 }
    ensures value { result ≡ factor *ℤ value }
    ensures bounded { unsigned_abs result ≤ 4294967296000000 }
{
    factor * value
}

fn plus(sum: i64, more: i64) -> i64
    requires sum { unsigned_abs sum ≤ 34359738368000000 }
    requires more { unsigned_abs more ≤ 4294967296000000 }
    ensures value { result ≡ sum +ℤ more }
    ensures bounded { unsigned_abs result ≤ unsigned_abs sum + 4294967296000000 }
{
    sum + more
}

#[tactic(auto, using(crate::proofs::Products::constant_bounds))]
fn narrow_constant(constants: &[Constant], k: usize) -> i64
    requires { IsTrue (list_all spec.is_narrow_constant constants.now) }
    ensures value { result ≡ constant_at constants.now k }
    ensures bounded { unsigned_abs result ≤ NUMBER_LIMIT }
{
    match constants.get(k) {
        Some(constant) => constant.value,
        None => 0,
    }
}

impl Known {
    fn meaning_value(&self, meaning: Meaning) -> i64
        requires { IsTrue (list_all spec.is_narrow_constant self.now.constants) }
        ensures value { result ≡ operand_value (seen self.now) [] [] (spec.or_one (operand_meant meaning)) }
        ensures bounded { unsigned_abs result ≤ 4294967296 }
    {
        match meaning {
            Meaning::Type(_) => 1,
            Meaning::Constant(k) => narrow_constant(self.constants.as_slice(), k),
            Meaning::Label(_, place) => i64::from(place),
            Meaning::Variable(_) => 0,
        }
    }

    fn operand_value(&self, operand: &DraftOperand) -> i64
        requires { IsTrue (list_all spec.is_narrow_constant self.now.constants) }
        ensures value { result ≡ operand_value (seen self.now) [] [] (spec.operand_of self.now operand.now) }
        ensures bounded { unsigned_abs result ≤ 4294967296 }
    {
        match operand {
            DraftOperand::One => 1,
            DraftOperand::Truth(truth) => i64::from(*truth),
            DraftOperand::Plain(name) => match self.names.get(name) {
                Some(meaning) => self.meaning_value(meaning),
                None => 1,
            },
            DraftOperand::Primed(name) => match self.variable_named(name) {
                Some(_) => 0,
                None => 1,
            },
        }
    }

    fn item_value(&self, item: &DraftItem) -> i64
        requires constants { IsTrue (list_all spec.is_narrow_constant self.now.constants) }
        requires factor { IsTrue (spec.is_narrow_item item.now) }
        ensures value { result ≡ item_value (seen self.now) [] [] (spec.item_of self.now item.now) }
        ensures bounded { unsigned_abs result ≤ 4294967296000000 }
    {
        times(item.factor, self.operand_value(&item.operand))
    }

    fn items_value(&self, items: &[DraftItem]) -> i64
        requires constants { IsTrue (list_all spec.is_narrow_constant self.now.constants) }
        requires few { length items.now ≤ ITEM_LIMIT }
        requires factors { IsTrue (list_all spec.is_narrow_item items.now) }
        ensures { result ≡ spec.items_value self.now items.now }
    {
        let mut sum = 0;
        for item in items {
            sum = plus(sum, self.item_value(item));
        }
        sum
    }

    fn is_variable_operand(&self, operand: &DraftOperand) -> bool
        ensures { result ≡ spec.is_variable_operand self.now operand.now }
    {
        match operand {
            DraftOperand::Plain(name) | DraftOperand::Primed(name) => self.is_variable(name),
            _ => false,
        }
    }

    fn has_variable(&self, side: &DraftSide) -> bool
        ensures { result ≡ spec.has_variable self.now side.now }
    {
        side.items
            .as_slice()
            .iter()
            .any(|item| self.is_variable_operand(&item.operand))
    }

    /// Whether a value for that variable names a variable, or lies in the domain of one that is an
    /// integer.
    pub fn is_value_within(&self, v: usize, side: &DraftSide) -> bool
        requires constants { IsTrue (list_all spec.is_narrow_constant self.now.constants) }
        requires few { length side.now.items ≤ ITEM_LIMIT }
        requires factors { IsTrue (list_all spec.is_narrow_item side.now.items) }
        ensures { result ≡ spec.is_value_within self.now v side.now }
    {
        match variable_range(self.types.as_slice(), self.variables.as_slice(), v) {
            Some(domain) => {
                self.has_variable(side) || domain.contains(self.items_value(side.items.as_slice()))
            }
            None => true,
        }
    }
}

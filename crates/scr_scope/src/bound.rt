//! The bound of a side.
ghost use Rattle.std.specs.Prelude.{◌≡◌, ◌+◌, ◌<◌, ◌≤◌, MatchOption};
ghost use Rattle.scr_spec.specs.Over as over;
ghost use Rattle.scr_scope.specs.Meanings.{seen};
ghost use Rattle.scr_scope.specs.Sides as spec;

use crate::known::Known;
use scr_parse::{DraftItem, DraftSide};
use scr_spec::{Operand, SIDE_LIMIT, constant_value};

impl Known {
    fn variable_bound(&self, v: usize) -> u64
        ensures { result ≡ over.variable_bound (seen self.now) v }
    {
        match self.variables.get(v) {
            Some(variable) => variable.kind.domain(self.types.as_slice()).bound(),
            None => 0,
        }
    }

    fn operand_bound(&self, operand: Operand) -> u64
        ensures { result ≡ over.operand_bound (seen self.now) operand }
    {
        match operand {
            Operand::One | Operand::Truth(_) => 1,
            Operand::Constant(k) => constant_value(self.constants.as_slice(), k).unsigned_abs(),
            Operand::Label(_, code) => code.unsigned_abs(),
            Operand::Variable(v) | Operand::Primed(v) => self.variable_bound(v),
        }
    }

    /// The sum with the bound of the item, where it is within the limit.
    fn widened(&self, sum: u64, item: &DraftItem) -> Option<u64>
        requires { sum ≤ SIDE_LIMIT }
        ensures { MatchOption result
            (SIDE_LIMIT < sum + spec.draft_item_bound self.now item.now)
            (λ more. (more ≡ sum + spec.draft_item_bound self.now item.now) × (more ≤ SIDE_LIMIT)) }
    {
        let product = item
            .factor
            .unsigned_abs()
            .checked_mul(self.operand_bound(self.operand_of(&item.operand)))?;
        if product > SIDE_LIMIT - sum {
            None
        } else {
            Some(sum + product)
        }
    }

    /// Whether the bound of the side is at most `SIDE_LIMIT`.
    pub fn is_narrow_side(&self, side: &DraftSide) -> bool
        ensures { result ≡ spec.is_narrow_side self.now side.now }
    {
        let mut sum = 0;
        for item in side.items.as_slice() {
            match self.widened(sum, item) {
                Some(more) => sum = more,
                None => return false,
            }
        }
        true
    }
}

//! Values of sides.
ghost use Rattle.std.specs.Prelude.{◌≡◌, ◌≤◌, ◌*◌, ◌*ℤ◌, IsTrue, unsigned_abs};
ghost use Rattle.scr_spec.specs.Shown.{data_of};
ghost use Rattle.scr_spec.specs.Domains.{IsTyped};
ghost use Rattle.scr_spec.specs.Meaning.{operand_value, item_value, side_value};
ghost use Rattle.scr_spec.specs.Over.{is_operand_over, is_side_over, operand_bound, item_bound};

use scr_spec::{Expr, Item, Operand, Spec, State};

#[tactic(auto, using(crate::proofs::Bounds::code_bounds))]
fn operand_value_at(spec: &Spec, operand: Operand, old: &State, new: &State) -> i64
    requires old_typed { IsTyped (data_of spec.now) old.now.codes }
    requires new_typed { IsTyped (data_of spec.now) new.now.codes }
    requires over { IsTrue (is_operand_over (data_of spec.now) operand) }
    ensures value { result ≡ operand_value (data_of spec.now) old.now.codes new.now.codes operand }
    ensures bounded { unsigned_abs result ≤ operand_bound (data_of spec.now) operand }
{
    match operand {
        Operand::One => 1,
        Operand::Truth(b) => i64::from(b),
        Operand::Constant(k) => spec.constants.as_slice()[k].value,
        Operand::Label(_, code) => code,
        Operand::Variable(v) => old.codes.as_slice()[v],
        Operand::Primed(v) => new.codes.as_slice()[v],
    }
}

#[tactic(auto, using(crate::proofs::Bounds::product_bounds))]
fn times(factor: i64, value: i64) -> i64
    requires { unsigned_abs factor * unsigned_abs value ≤ 2000000000 }
    ensures value { result ≡ factor *ℤ value }
    ensures size { unsigned_abs result ≡ unsigned_abs factor * unsigned_abs value }
{
    factor * value
}

#[tactic(auto, using(crate::proofs::Bounds::item_bounds))]
fn item_value_at(spec: &Spec, item: Item, old: &State, new: &State) -> i64
    requires old_typed { IsTyped (data_of spec.now) old.now.codes }
    requires new_typed { IsTyped (data_of spec.now) new.now.codes }
    requires over { IsTrue (is_operand_over (data_of spec.now) item.operand) }
    requires narrow { item_bound (data_of spec.now) item ≤ 2000000000 }
    ensures value { result ≡ item_value (data_of spec.now) old.now.codes new.now.codes item }
    ensures bounded { unsigned_abs result ≤ item_bound (data_of spec.now) item }
{
    times(item.factor, operand_value_at(spec, item.operand, old, new))
}

/// The value of a side. Unprimed names are read in the old state, primed ones in the new.
pub fn expr_value(spec: &Spec, e: &Expr, old: &State, new: &State) -> i64
    requires old_typed { IsTyped (data_of spec.now) old.now.codes }
    requires new_typed { IsTyped (data_of spec.now) new.now.codes }
    requires over { IsTrue (is_side_over (data_of spec.now) e.now) }
    ensures { result ≡ side_value (data_of spec.now) old.now.codes new.now.codes e.now }
{
    let mut sum = 0;
    for item in e.items.as_slice() {
        sum += item_value_at(spec, *item, old, new);
    }
    sum
}

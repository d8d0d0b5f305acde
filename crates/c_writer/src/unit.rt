//! The unit of a specification.
ghost use Rattle.std.specs.Prelude.{◌≡◌, ◌++◌, [], ◌∷◌, true, pos, map, length, Some, None, IsTrue, IfOk, OnOk, slice_index_or};
ghost use Rattle.std.specs.List.{flat_map, filter, range_with_len};
ghost use Rattle.scr_spec.specs.Shown.{data_of};
ghost use Rattle.scr_spec.specs.Meaning.{code_of};
ghost use Rattle.scr_spec.specs.Relations.{is_monitored};
ghost use Rattle.run_step.specs.Runs.{IsInitial};
ghost use Rattle.c_subset.specs.Rules.{is_unit};
ghost use Rattle.c_writer.specs.Objects.{object_of};
ghost use Rattle.c_writer.specs.Tables.{variable_stmts as stmts_of_variable};
ghost use Rattle.c_writer.specs.Units.{object_item as item_of_object, objects_of, save_stmt as stmt_of_save, save_function as function_of_save, step_function as function_of_step, setter as function_of_setter, setters, unit_of as unit_of_data};
ghost use Rattle.c_subset.specs.declared.stmt.CStmt.TheVariants.{Call};
ghost use Rattle.c_writer.specs.Laws.{IsRightUnit};

use crate::objects::{Moment, object_at, setter_at};
use crate::table::variable_stmts;
use base::{Name, NoMemory};
use c_subset::{CExpr, CFunction, CItem, CObject, CStmt, CUnit};
use scr_depend::Checked;
use scr_spec::{Spec, State};
use sqlite_items::Items;
use std::alloc::Global;

fn code_at(at: &State, v: usize) -> i64
    ensures { result ≡ code_of at.now.codes v }
{
    let codes = at.codes.as_slice();
    if v < codes.len() { codes[v] } else { 0 }
}

/// An object begins with the initial code.
fn object_item(
    alloc: Global,
    spec: &Spec,
    first: &State,
    moment: Moment,
    v: usize,
) -> Result<CItem, NoMemory>
    ensures { IfOk result (λ i. i ≡ item_of_object (object_of (data_of spec.now) moment) first.now.codes v) }
{
    let name = object_at(alloc, spec, moment, v)?;
    Ok(CItem::Object(CObject {
        name,
        init: code_at(first, v),
    }))
}

#[tactic(auto, using(crate::proofs::Growth::range_laws))]
fn push_objects(
    out: &mut Items<CItem>,
    alloc: Global,
    spec: &Spec,
    first: &State,
    moment: Moment,
) -> Result<(), NoMemory>
    ensures { OnOk result (out.new ≡ out.old ++ map (item_of_object (object_of (data_of spec.now) moment) first.now.codes) (range_with_len 0 (length spec.now.variables))) }
{
    let count = spec.variables.len();
    for v in 0..count {
        let item = object_item(alloc, spec, first, moment, v)?;
        out.push(item)?;
    }
    Ok(())
}

/// What is new becomes old.
fn save_stmt(alloc: Global, spec: &Spec, v: usize) -> Result<CStmt, NoMemory>
    ensures { IfOk result (λ s. s ≡ stmt_of_save (data_of spec.now) v) }
{
    let old = object_at(alloc, spec, Moment::Old, v)?;
    let new = object_at(alloc, spec, Moment::New, v)?;
    Ok(CStmt::Assign(old, CExpr::Name(new)))
}

#[tactic(auto, using(crate::proofs::Growth::range_laws))]
fn save_stmts(alloc: Global, spec: &Spec) -> Result<Items<CStmt>, NoMemory>
    ensures { IfOk result (λ ss. ss ≡ map (stmt_of_save (data_of spec.now)) (range_with_len 0 (length spec.now.variables))) }
{
    let mut body = Items::new(alloc);
    let count = spec.variables.len();
    for v in 0..count {
        let statement = save_stmt(alloc, spec, v)?;
        body.push(statement)?;
    }
    Ok(body)
}

fn save_function(alloc: Global, spec: &Spec) -> Result<CFunction, NoMemory>
    ensures { IfOk result (λ f. f ≡ function_of_save (data_of spec.now)) }
{
    Ok(CFunction {
        name: Name::from_slice(alloc, b"save")?,
        parameter: None,
        body: save_stmts(alloc, spec)?,
    })
}

#[tactic(auto, using(crate::proofs::Growth::flat_laws))]
fn step_stmts(alloc: Global, spec: &Spec, order: &[usize]) -> Result<Items<CStmt>, NoMemory>
    ensures { IfOk result (λ ss. ss ≡ flat_map (stmts_of_variable (data_of spec.now)) order.now) }
{
    let mut body = Items::new(alloc);
    for v in order {
        let statements = variable_stmts(alloc, spec, *v)?;
        body.append(statements)?;
    }
    Ok(body)
}

/// The dependent variables take their new codes in order.
fn step_function(alloc: Global, spec: &Spec, order: &[usize]) -> Result<CFunction, NoMemory>
    ensures { IfOk result (λ f. f ≡ function_of_step (data_of spec.now) order.now) }
{
    Ok(CFunction {
        name: Name::from_slice(alloc, b"step")?,
        parameter: None,
        body: step_stmts(alloc, spec, order)?,
    })
}

fn call_of(alloc: Global, name: &[u8]) -> Result<CStmt, NoMemory>
    ensures { IfOk result (λ s. s ≡ Call name.now None) }
{
    let name = Name::from_slice(alloc, name)?;
    Ok(CStmt::Call(name, None))
}

/// The old codes are saved, the variable takes its new code, and the others follow.
fn setter_stmts(alloc: Global, spec: &Spec, x: usize) -> Result<Items<CStmt>, NoMemory>
    ensures { IfOk result (λ ss. ss ≡ (function_of_setter (data_of spec.now) x).body) }
{
    let object = object_at(alloc, spec, Moment::New, x)?;
    let argument = Name::from_slice(alloc, b"a")?;
    let mut body = Items::new(alloc);
    body.push(call_of(alloc, b"save")?)?;
    body.push(CStmt::Assign(object, CExpr::Name(argument)))?;
    body.push(call_of(alloc, b"step")?)?;
    Ok(body)
}

/// The function for one input.
fn setter(alloc: Global, spec: &Spec, x: usize) -> Result<CFunction, NoMemory>
    ensures { IfOk result (λ f. f ≡ function_of_setter (data_of spec.now) x) }
{
    let name = setter_at(alloc, spec, x)?;
    let argument = Name::from_slice(alloc, b"a")?;
    Ok(CFunction {
        name,
        parameter: Some(argument),
        body: setter_stmts(alloc, spec, x)?,
    })
}

#[tactic(auto, using(crate::proofs::Growth::range_laws))]
fn push_setters(out: &mut Items<CItem>, alloc: Global, spec: &Spec) -> Result<(), NoMemory>
    ensures { OnOk result (out.new ≡ out.old ++ setters (data_of spec.now)) }
{
    let count = spec.variables.len();
    for x in 0..count {
        if spec.is_monitored(x) {
            let function = setter(alloc, spec, x)?;
            out.push(CItem::Function(function))?;
        }
    }
    Ok(())
}

/// The unit by the order of the dependent variables and the initial codes.
fn unit_by(alloc: Global, spec: &Spec, order: &[usize], first: &State) -> Result<CUnit, NoMemory>
    ensures { IfOk result (λ u. u ≡ unit_of_data (data_of spec.now) order.now first.now.codes) }
{
    let mut items = Items::new(alloc);
    push_objects(&mut items, alloc, spec, first, Moment::New)?;
    push_objects(&mut items, alloc, spec, first, Moment::Old)?;
    items.push(CItem::Function(save_function(alloc, spec)?))?;
    items.push(CItem::Function(step_function(alloc, spec, order)?))?;
    push_setters(&mut items, alloc, spec)?;
    Ok(CUnit { items })
}

/// The unit of a specification that passed its checks: an object `v_X` with the code of each
/// variable X, and for each monitored variable X a function `set_X` that takes its new code. It keeps
/// the rules of C, and runs as the specification.
pub fn unit_of(alloc: Global, checked: &Checked, first: &State) -> Result<CUnit, NoMemory>
    requires { IsInitial (data_of checked.now.spec) first.now.codes }
    ensures unit { IfOk result (λ u. u ≡ unit_of_data (data_of checked.now.spec) checked.now.order.list first.now.codes) }
    ensures rules { IfOk result (λ u. IsTrue (is_unit u)) }
    ensures right { IfOk result (λ u. IsRightUnit (data_of checked.now.spec) u) }
{
    unit_by(alloc, &checked.spec, checked.order.list.as_slice(), first)
}

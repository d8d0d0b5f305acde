//! From a unit to one in which objects and functions go by number.
ghost use Rattle.std.specs.Prelude.{◌≡◌, map, IfOk};
ghost use Rattle.std.specs.Option.{option_map};
ghost use Rattle.c_subset.specs.Meaning.{place_of};
ghost use Rattle.c_machine.specs.Resolved as spec;
ghost use Rattle.c_machine.specs.Shapes.{part_resolved, case_resolved};

use crate::code::{Action, Case, Part, Routine, Value};
use crate::places::Places;
use base::{Name, NoMemory};
use c_subset::{CClause, CExpr, CFunction, CStmt, CTerm};
use sqlite_items::{Boxed, Items};
use std::alloc::Global;

fn object_named(objects: &Places, name: &Name) -> Value
    ensures { result ≡ spec.at_place (place_of objects.now name.now) }
{
    match objects.first(name.as_slice()) {
        Some(place) => Value::Object(place),
        None => Value::Unknown,
    }
}

fn resolve_name(objects: &Places, parameter: &Option<Name>, name: &Name) -> Value
    ensures { result ≡ spec.name_resolved objects.now parameter.now name.now }
{
    match parameter {
        Some(parameter) => {
            if parameter.is_same(name) {
                Value::Parameter
            } else {
                object_named(objects, name)
            }
        }
        None => object_named(objects, name),
    }
}

#[cycle(expr)]
#[tactic(auto, using(crate::proofs::ResolveLaws::resolve_laws, c_subset::specs::Unrolled::expr_laws, c_subset::specs::declared::expr::CExpr::TheViews::the_lemmas))]
fn resolve_expression(
    alloc: Global,
    objects: &Places,
    parameter: &Option<Name>,
    expression: &CExpr,
) -> Result<Value, NoMemory>
    ensures { IfOk result (λ v. v ≡ spec.expr_resolved objects.now parameter.now expression.now) }
{
    match expression {
        CExpr::Constant(number) => Ok(Value::Constant(*number)),
        CExpr::Name(name) => Ok(resolve_name(objects, parameter, name)),
        CExpr::Minus(operand) => {
            let value = resolve_expression(alloc, objects, parameter, operand.get())?;
            Ok(Value::Minus(Boxed::new(alloc, value)?))
        }
        CExpr::Not(operand) => {
            let value = resolve_expression(alloc, objects, parameter, operand.get())?;
            Ok(Value::Not(Boxed::new(alloc, value)?))
        }
        CExpr::Product(members) => {
            let values = resolve_expressions(alloc, objects, parameter, members.as_slice())?;
            Ok(Value::Product(values))
        }
        CExpr::Sum(terms) => {
            let parts = resolve_terms(alloc, objects, parameter, terms.as_slice())?;
            Ok(Value::Sum(parts))
        }
        CExpr::Relate(left, relation, right) => {
            let left = resolve_expression(alloc, objects, parameter, left.get())?;
            let right = resolve_expression(alloc, objects, parameter, right.get())?;
            let left = Boxed::new(alloc, left)?;
            let right = Boxed::new(alloc, right)?;
            Ok(Value::Relate(left, *relation, right))
        }
        CExpr::And(members) => {
            let values = resolve_expressions(alloc, objects, parameter, members.as_slice())?;
            Ok(Value::And(values))
        }
        CExpr::Or(members) => {
            let values = resolve_expressions(alloc, objects, parameter, members.as_slice())?;
            Ok(Value::Or(values))
        }
    }
}

#[cycle(expr)]
fn resolve_expressions(
    alloc: Global,
    objects: &Places,
    parameter: &Option<Name>,
    expressions: &[CExpr],
) -> Result<Items<Value>, NoMemory>
    ensures { IfOk result (λ vs. vs ≡ map (spec.expr_resolved objects.now parameter.now) expressions.now) }
{
    let mut values = Items::new(alloc);
    for expression in expressions {
        let value = resolve_expression(alloc, objects, parameter, expression)?;
        values.push(value)?;
    }
    Ok(values)
}

#[cycle(expr)]
fn resolve_terms(
    alloc: Global,
    objects: &Places,
    parameter: &Option<Name>,
    terms: &[CTerm],
) -> Result<Items<Part>, NoMemory>
    ensures { IfOk result (λ ps. ps ≡ map (part_resolved objects.now parameter.now) terms.now) }
{
    let mut parts = Items::new(alloc);
    for term in terms {
        let value = resolve_expression(alloc, objects, parameter, &term.value)?;
        parts.push(Part {
            minus: term.minus,
            value,
        })?;
    }
    Ok(parts)
}

fn resolve_argument(
    alloc: Global,
    objects: &Places,
    parameter: &Option<Name>,
    argument: &Option<CExpr>,
) -> Result<Option<Value>, NoMemory>
    ensures { IfOk result (λ v. v ≡ option_map (spec.expr_resolved objects.now parameter.now) argument.now) }
{
    match argument {
        Some(expression) => {
            let value = resolve_expression(alloc, objects, parameter, expression)?;
            Ok(Some(value))
        }
        None => Ok(None),
    }
}

fn assignment_to(place: Option<usize>, value: Value) -> Action
    ensures { result ≡ spec.assign_resolved place value }
{
    match place {
        Some(place) => Action::Assign(place, value),
        None => Action::Unknown,
    }
}

fn call_of(place: Option<usize>, value: Option<Value>) -> Action
    ensures { result ≡ spec.call_resolved place value }
{
    match place {
        Some(place) => Action::Call(place, value),
        None => Action::Unknown,
    }
}

#[cycle(stmt)]
#[tactic(auto, using(crate::proofs::ResolveLaws::resolve_laws, c_subset::specs::Unrolled::stmt_laws, c_subset::specs::declared::stmt::CStmt::TheViews::the_lemmas))]
fn resolve_statement(
    alloc: Global,
    objects: &Places,
    functions: &Places,
    parameter: &Option<Name>,
    statement: &CStmt,
) -> Result<Action, NoMemory>
    ensures { IfOk result (λ a. a ≡ spec.stmt_resolved objects.now functions.now parameter.now statement.now) }
{
    match statement {
        CStmt::Assign(name, value) => {
            let value = resolve_expression(alloc, objects, parameter, value)?;
            Ok(assignment_to(objects.first(name.as_slice()), value))
        }
        CStmt::If(condition, yes_block, no_block) => {
            let condition = resolve_expression(alloc, objects, parameter, condition)?;
            let yes_block = resolve_statements(
                alloc,
                objects,
                functions,
                parameter,
                yes_block.as_slice(),
            )?;
            let no_block = resolve_statements(
                alloc,
                objects,
                functions,
                parameter,
                no_block.as_slice(),
            )?;
            Ok(Action::If(condition, yes_block, no_block))
        }
        CStmt::Call(name, argument) => {
            let argument = resolve_argument(alloc, objects, parameter, argument)?;
            Ok(call_of(functions.last(name.as_slice()), argument))
        }
        CStmt::Switch(value, clauses) => {
            let value = resolve_expression(alloc, objects, parameter, value)?;
            let cases = resolve_clauses(alloc, objects, functions, parameter, clauses.as_slice())?;
            Ok(Action::Switch(value, cases))
        }
    }
}

#[cycle(stmt)]
fn resolve_statements(
    alloc: Global,
    objects: &Places,
    functions: &Places,
    parameter: &Option<Name>,
    statements: &[CStmt],
) -> Result<Items<Action>, NoMemory>
    ensures { IfOk result (λ xs. xs ≡ map (spec.stmt_resolved objects.now functions.now parameter.now) statements.now) }
{
    let mut actions = Items::new(alloc);
    for statement in statements {
        let action = resolve_statement(alloc, objects, functions, parameter, statement)?;
        actions.push(action)?;
    }
    Ok(actions)
}

#[cycle(stmt)]
fn resolve_clauses(
    alloc: Global,
    objects: &Places,
    functions: &Places,
    parameter: &Option<Name>,
    clauses: &[CClause],
) -> Result<Items<Case>, NoMemory>
    ensures { IfOk result (λ xs. xs ≡ map (case_resolved objects.now functions.now parameter.now) clauses.now) }
{
    let mut cases = Items::new(alloc);
    for clause in clauses {
        let body = resolve_statements(
            alloc,
            objects,
            functions,
            parameter,
            clause.body.as_slice(),
        )?;
        cases.push(Case {
            label: clause.label,
            body,
            stops: clause.stops,
        })?;
    }
    Ok(cases)
}

/// The function, where the objects and the functions before it have these names.
pub(crate) fn resolve_function(
    alloc: Global,
    objects: &Places,
    functions: &Places,
    function: &CFunction,
) -> Result<Routine, NoMemory>
    ensures { IfOk result (λ r. r ≡ spec.routine_of objects.now functions.now function.now) }
{
    let body = resolve_statements(
        alloc,
        objects,
        functions,
        &function.parameter,
        function.body.as_slice(),
    )?;
    Ok(Routine {
        takes: function.parameter.is_some(),
        body,
    })
}

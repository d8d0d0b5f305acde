//! The machine.
ghost use Rattle.std.specs.Prelude.{◌≡◌, length, map, Some, IfOk};
ghost use Rattle.std.specs.List.{filter_map};
ghost use Rattle.c_subset.specs.Parts.{object_of, function_of};
ghost use Rattle.c_machine.specs.Actions.{replies_of};
ghost use Rattle.c_machine.specs.Resolved.{by_name, resolved};
ghost use Rattle.c_machine.specs.Runs.{outcome};

use crate::code::Resolved;
use crate::declared::{functions, initial_numbers, object_names, setter_names};
use crate::places::Places;
use crate::run::run_routine;
use base::NoMemory;
use c_subset::{CItem, CUnit};
use std::alloc::Global;
use std::marker::Model;
use std::mem;

/// Why a call leaves the objects as they are.
#[derive(Clone, Copy, Debug, PartialEq, Eq)]
pub enum MachineFault {
    /// No function with a parameter has the name.
    NoFunction,
    /// The call has no meaning. In a unit that keeps the rules of the subset, a result left the range from -2147483647 to
    /// 2147483647.
    Overflow,
}

/// A unit with the present numbers of its objects. The unit need not keep the rules of the subset. They bound how deep its
/// statements nest and its calls go, and with that the stack, of which no contract speaks.
#[derive(Drop)]
pub struct Machine<'a> {
    unit: &'a CUnit,
    code: Resolved,
    setters: Places,
    row: Vec<i64>,
    spare: Vec<i64>,
}

impl<'a> Model for Machine<'a> {
    ghost use Rattle.c_machine.specs.Running.{Running, IsSet};
    ghost use Rattle.std.specs.Coded.{codes};
    ghost use Rattle.c_subset.specs.contracts.stmt.CStmt as statement;
    ghost use Rattle.c_subset.specs.contracts.expr.CExpr as expression;

    ghost Value = { Running };

    ghost coded = { Prim.hlevel (codes, statement.the_row.coded, expression.the_row.coded) };

    ghost view = { λ m. record { unit = m.unit.now; objects = m.row.items } };

    ghost invariant = { λ m. IsSet m.unit.now m.code m.setters m.row.items m.spare.items };
}

/// The functions of a unit, by number.
fn code_of(alloc: Global, items: &[CItem]) -> Result<Resolved, NoMemory>
    ensures { IfOk result (λ code. code ≡ resolved (map (λ o. o.name) (filter_map object_of items.now)) (filter_map function_of items.now)) }
{
    let names = object_names(alloc, items)?;
    functions(alloc, &names, items)
}

/// Two rows of the initial numbers.
fn rows_of(alloc: Global, items: &[CItem]) -> Result<(Vec<i64>, Vec<i64>), NoMemory>
    ensures row { IfOk result (λ rows. rows.0.items ≡ map (λ o. o.init) (filter_map object_of items.now)) }
    ensures spare { IfOk result (λ rows. rows.1.items ≡ map (λ o. o.init) (filter_map object_of items.now)) }
{
    let numbers = initial_numbers(alloc, items)?;
    let row = Vec::from_slice(alloc, numbers.as_slice())?;
    let spare = Vec::from_slice(alloc, numbers.as_slice())?;
    Ok((row, spare))
}

/// Tries a call on a copy of the row.
fn attempt(code: &Resolved, name: &[u8], value: i64, row: &[i64], spare: &mut [i64]) -> bool
    requires { length spare.old ≡ length row.now }
    ensures { by_name code.now.names (replies_of code.now.routines) name.now (Some value) row.now ≡ outcome result spare.new }
{
    spare.copy_from_slice(row);
    match code.names.last(name) {
        Some(k) => run_routine(code.routines.as_slice(), k, Some(value), spare),
        None => false,
    }
}

impl<'a> Machine<'a> {
    ghost use Rattle.c_subset.specs.Runs.{initial_objects, takes_call};
    ghost use Rattle.c_machine.specs.Running.{call_answer, after_call};

    /// A machine whose objects have their initial numbers, in time in proportion to the length of the unit.
    pub fn new(alloc: Global, unit: &'a CUnit) -> Result<Machine<'a>, NoMemory>
        ensures { IfOk result (λ m. m ≡ record { unit = unit.now; objects = initial_objects unit.now }) }
    {
        let items = unit.items.as_slice();
        let (row, spare) = rows_of(alloc, items)?;
        let setters = setter_names(alloc, items)?;
        let code = code_of(alloc, items)?;
        Ok(Machine {
            unit,
            code,
            setters,
            row,
            spare,
        })
    }

    /// Whether a function with a parameter has the name.
    pub fn has_setter(&self, name: &[u8]) -> bool
        ensures { result ≡ takes_call self.now.unit name.now }
    {
        self.setters.first(name).is_some()
    }

    /// Calls the function of that name with this argument, and takes no memory. After a fault the objects are as before.
    pub fn call(&mut self, name: &[u8], value: i64) -> Result<(), MachineFault>
        ensures answer { result ≡ call_answer self.old name.now value }
        ensures after { self.new ≡ after_call self.old name.now value }
    {
        if !self.has_setter(name) {
            return Err(MachineFault::NoFunction);
        }
        if attempt(
            &self.code,
            name,
            value,
            self.row.as_slice(),
            self.spare.as_mut_slice(),
        ) {
            mem::swap(&mut self.row, &mut self.spare);
            Ok(())
        } else {
            Err(MachineFault::Overflow)
        }
    }

    /// The present numbers of the objects, in order of declaration.
    pub fn objects(&self) -> &[i64]
        ensures { result.now ≡ self.now.objects }
    {
        self.row.as_slice()
    }
}

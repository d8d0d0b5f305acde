//! The specification over the kept variables.
ghost use Rattle.std.specs.Prelude.{◌≡◌, ◌<◌, ℕ, length, map, Some, slice_get, IfOk, IsTrue};
ghost use Rattle.std.specs.List.{filter};
ghost use Rattle.scr_spec.specs.Shown.{data_of};
ghost use Rattle.scr_depend.specs.Graphs.{is_among};
ghost use Rattle.scr_slice.specs.Renumbered.{table_with};
ghost use Rattle.scr_slice.specs.Slices.{IsKeepable, IsSlice, number_in};

use crate::renumbered::table;
use base::NoMemory;
use scr_depend::{Checked, is_among};
use scr_spec::{Spec, Table, Variable, copy_constants, copy_types, copy_variable};
use sqlite_items::Items;
use std::alloc::Global;

/// The variable with this number.
fn variable_at(alloc: Global, variables: &[Variable], v: usize) -> Result<Variable, NoMemory>
    requires { v < length variables.now }
    ensures { IfOk result (λ copy. Some copy ≡ slice_get variables.now v) }
{
    match variables.get(v) {
        Some(variable) => copy_variable(alloc, variable),
        None => unreachable!(),
    }
}

/// The kept variables.
fn kept_variables(
    alloc: Global,
    variables: &[Variable],
    keep: &[usize],
) -> Result<Items<Variable>, NoMemory>
    requires { (v : ℕ) → IsTrue (is_among keep.now v) → v < length variables.now }
    ensures { IfOk result (λ kept. map (λ x. Some x) kept ≡ map (slice_get variables.now) keep.now) }
{
    let mut kept = Items::new(alloc);
    for v in keep {
        kept.push(variable_at(alloc, variables, *v)?)?;
    }
    Ok(kept)
}

/// The tables of kept variables.
fn kept_tables(alloc: Global, tables: &[Table], keep: &[usize]) -> Result<Items<Table>, NoMemory>
    ensures { IfOk result (λ kept. kept ≡ map (table_with (number_in keep.now)) (filter (λ t. is_among keep.now t.variable) tables.now)) }
{
    let mut kept = Items::new(alloc);
    for it in tables {
        if is_among(keep, it.variable) {
            kept.push(table(alloc, keep, it)?)?;
        }
    }
    Ok(kept)
}

/// The specification over the kept variables alone: the kept variables in order of declaration, and
/// their tables in order of the text. The list has numbers of variables, rising, and with each all
/// that its table mentions. In the slice the number of a variable is its place in the list. The only
/// error is want of memory.
pub fn slice(alloc: Global, checked: &Checked, keep: &[usize]) -> Result<Spec, NoMemory>
    requires { IsKeepable (data_of checked.now.spec) keep.now }
    ensures { IfOk result (λ slice. IsSlice (data_of checked.now.spec) keep.now (data_of slice)) }
{
    let whole = checked.spec();
    let name = whole.name.copy(alloc)?;
    let types = copy_types(alloc, whole.types.as_slice())?;
    let constants = copy_constants(alloc, whole.constants.as_slice())?;
    let variables = kept_variables(alloc, whole.variables.as_slice(), keep)?;
    let tables = kept_tables(alloc, whole.tables.as_slice(), keep)?;
    Ok(Spec {
        name,
        types,
        constants,
        variables,
        tables,
    })
}

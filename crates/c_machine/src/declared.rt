//! What a unit declares: its objects with their initial numbers, its functions, and those with a parameter.
ghost use Rattle.std.specs.Prelude.{◌≡◌, ◌++◌, fold, map, IfOk, OnOk};
ghost use Rattle.std.specs.List.{filter_map};
ghost use Rattle.std.specs.Option.{option_to_list};
ghost use Rattle.c_subset.specs.Parts.{object_of, function_of};
ghost use Rattle.c_machine.specs.Resolved as spec;
ghost use Rattle.c_machine.specs.Running.{setter_of};

use crate::code::Resolved;
use crate::places::Places;
use crate::resolve::resolve_function;
use base::NoMemory;
use c_subset::CItem;
use sqlite_items::Items;
use std::alloc::Global;

fn add_object(alloc: Global, names: &mut Places, item: &CItem) -> Result<(), NoMemory>
    ensures { OnOk result (names.new ≡ names.old ++ map (λ o. o.name) (option_to_list (object_of item.now))) }
{
    match item {
        CItem::Object(object) => names.push(alloc, &object.name),
        CItem::Function(_) => Ok(()),
    }
}

/// The names of the objects.
#[tactic(auto, using(crate::proofs::Items::item_laws))]
pub(crate) fn object_names(alloc: Global, items: &[CItem]) -> Result<Places, NoMemory>
    ensures { IfOk result (λ names. names ≡ map (λ o. o.name) (filter_map object_of items.now)) }
{
    let mut names = Places::new(alloc);
    for item in items {
        add_object(alloc, &mut names, item)?;
    }
    Ok(names)
}

fn add_setter(alloc: Global, names: &mut Places, item: &CItem) -> Result<(), NoMemory>
    ensures { OnOk result (names.new ≡ names.old ++ map (λ f. f.name) (option_to_list (setter_of item.now))) }
{
    match item {
        CItem::Function(function) => match &function.parameter {
            Some(_) => names.push(alloc, &function.name),
            None => Ok(()),
        },
        CItem::Object(_) => Ok(()),
    }
}

/// The names of the functions with a parameter.
#[tactic(auto, using(crate::proofs::Items::item_laws))]
pub(crate) fn setter_names(alloc: Global, items: &[CItem]) -> Result<Places, NoMemory>
    ensures { IfOk result (λ names. names ≡ map (λ f. f.name) (filter_map setter_of items.now)) }
{
    let mut names = Places::new(alloc);
    for item in items {
        add_setter(alloc, &mut names, item)?;
    }
    Ok(names)
}

fn add_number(numbers: &mut Items<i64>, item: &CItem) -> Result<(), NoMemory>
    ensures { OnOk result (numbers.new ≡ numbers.old ++ map (λ o. o.init) (option_to_list (object_of item.now))) }
{
    match item {
        CItem::Object(object) => {
            numbers.push(object.init)?;
            Ok(())
        }
        CItem::Function(_) => Ok(()),
    }
}

/// The initial numbers of the objects.
#[tactic(auto, using(crate::proofs::Items::item_laws))]
pub(crate) fn initial_numbers(alloc: Global, items: &[CItem]) -> Result<Items<i64>, NoMemory>
    ensures { IfOk result (λ numbers. numbers ≡ map (λ o. o.init) (filter_map object_of items.now)) }
{
    let mut numbers = Items::new(alloc);
    for item in items {
        add_number(&mut numbers, item)?;
    }
    Ok(numbers)
}

fn add_function(
    alloc: Global,
    objects: &Places,
    code: &mut Resolved,
    item: &CItem,
) -> Result<(), NoMemory>
    ensures { OnOk result (code.new ≡ fold (spec.with_routine objects.now) code.old (option_to_list (function_of item.now))) }
{
    match item {
        CItem::Object(_) => Ok(()),
        CItem::Function(function) => {
            let next = resolve_function(alloc, objects, &code.names, function)?;
            code.names.push(alloc, &function.name)?;
            code.routines.push(next)?;
            Ok(())
        }
    }
}

/// The functions, where the objects have these names.
#[tactic(auto, using(crate::proofs::Items::item_laws))]
pub(crate) fn functions(
    alloc: Global,
    objects: &Places,
    items: &[CItem],
) -> Result<Resolved, NoMemory>
    ensures { IfOk result (λ code. code ≡ spec.resolved objects.now (filter_map function_of items.now)) }
{
    let mut code = Resolved {
        names: Places::new(alloc),
        routines: Items::new(alloc),
    };
    for item in items {
        add_function(alloc, objects, &mut code, item)?;
    }
    Ok(code)
}

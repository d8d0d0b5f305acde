//! What a specification declares.
ghost use Rattle.std.specs.Prelude.{◌≡◌, [], IsTrue, IfOk, OnOk};
ghost use Rattle.std.specs.List.{list_all};
ghost use Rattle.scr_spec.specs.Shown.{data_of};
ghost use Rattle.scr_spec.specs.Types.{is_type_sound, is_kind_sound};
ghost use Rattle.scr_scope.specs.Entries as entries;

use crate::added::add_labels;
use crate::known::Known;
use crate::meaning::Meaning;
use crate::names::Names;
use base::NoMemory;
use scr_spec::{
    Constant, Kind, Owner, Shape, Spec, TypeDef, Variable, copy_constants, copy_types,
    copy_variable,
};
use sqlite_items::Items;
use std::alloc::Global;

fn copy_variables(alloc: Global, variables: &[Variable]) -> Result<Items<Variable>, NoMemory>
    ensures { IfOk result (λ copy. copy ≡ variables.now) }
{
    let mut copy = Items::new(alloc);
    for variable in variables {
        copy.push(copy_variable(alloc, variable)?)?;
    }
    Ok(copy)
}

/// Declares the type with this number and its enumerators.
#[tactic(auto, using(crate::proofs::EntrySteps::labels_entered))]
fn add_type(alloc: Global, names: &mut Names, k: usize, declared: &TypeDef) -> Result<(), NoMemory>
    requires { IsTrue (is_type_sound declared.now) }
    ensures { OnOk result (names.new ≡ entries.with_entries names.old (entries.entries_of_type k declared.now)) }
{
    names.add(alloc, &declared.name, Meaning::Type(k))?;
    match &declared.shape {
        Shape::Range(_) => Ok(()),
        Shape::Labels(labels) => add_labels(alloc, names, Owner::Named(k), labels.as_slice()),
    }
}

/// Declares the types and their enumerators.
fn add_types(alloc: Global, names: &mut Names, types: &[TypeDef]) -> Result<(), NoMemory>
    requires { IsTrue (list_all is_type_sound types.now) }
    ensures { OnOk result (names.new ≡ entries.with_entries names.old (entries.type_entries 0 types.now)) }
{
    for (k, declared) in types.iter().enumerate() {
        add_type(alloc, names, k, declared)?;
    }
    Ok(())
}

/// Declares the constants.
fn add_constants(alloc: Global, names: &mut Names, constants: &[Constant]) -> Result<(), NoMemory>
    ensures { OnOk result (names.new ≡ entries.with_entries names.old (entries.constant_entries 0 constants.now)) }
{
    for (k, constant) in constants.iter().enumerate() {
        names.add(alloc, &constant.name, Meaning::Constant(k))?;
    }
    Ok(())
}

/// Declares the variable with this number and its modes.
#[tactic(auto, using(crate::proofs::EntrySteps::labels_entered))]
fn add_variable(
    alloc: Global,
    names: &mut Names,
    types: &[TypeDef],
    v: usize,
    variable: &Variable,
) -> Result<(), NoMemory>
    requires { IsTrue (is_kind_sound types.now variable.now.kind) }
    ensures { OnOk result (names.new ≡ entries.with_entries names.old (entries.entries_of_variable v variable.now)) }
{
    names.add(alloc, &variable.name, Meaning::Variable(v))?;
    match &variable.kind {
        Kind::Boolean | Kind::Named(_) => Ok(()),
        Kind::Modes(modes) => add_labels(alloc, names, Owner::Class(v), modes.as_slice()),
    }
}

/// Declares the variables and the modes of classes.
fn add_variables(
    alloc: Global,
    names: &mut Names,
    types: &[TypeDef],
    variables: &[Variable],
) -> Result<(), NoMemory>
    requires { IsTrue (list_all (λ x. is_kind_sound types.now x.kind) variables.now) }
    ensures { OnOk result (names.new ≡ entries.with_entries names.old (entries.variable_entries 0 variables.now)) }
{
    for (v, variable) in variables.iter().enumerate() {
        add_variable(alloc, names, types, v, variable)?;
    }
    Ok(())
}

/// The names that a specification declares.
#[tactic(auto, using(crate::proofs::EntrySteps::entries_append))]
fn names_of(alloc: Global, spec: &Spec) -> Result<Names, NoMemory>
    ensures { IfOk result (λ names. names ≡ entries.with_entries [] (entries.entries_of (data_of spec.now))) }
{
    let mut names = Names::new(alloc);
    add_types(alloc, &mut names, spec.types.as_slice())?;
    add_constants(alloc, &mut names, spec.constants.as_slice())?;
    add_variables(
        alloc,
        &mut names,
        spec.types.as_slice(),
        spec.variables.as_slice(),
    )?;
    Ok(names)
}

impl Known {
    /// What the declarations of a specification say, over which names stand for what they do behind
    /// its lines.
    pub fn of_spec(alloc: Global, spec: &Spec) -> Result<Known, NoMemory>
        ensures { IfOk result (λ known. known ≡ entries.known_of (data_of spec.now)) }
    {
        Ok(Known {
            title: spec.name.copy(alloc)?,
            names: names_of(alloc, spec)?,
            types: copy_types(alloc, spec.types.as_slice())?,
            constants: copy_constants(alloc, spec.constants.as_slice())?,
            variables: copy_variables(alloc, spec.variables.as_slice())?,
            tables: Items::new(alloc),
            current: None,
        })
    }
}

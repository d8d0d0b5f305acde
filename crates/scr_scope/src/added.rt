//! What the lines that declare add.
ghost use Rattle.std.specs.Prelude.{◌≡◌, ◌≤◌, true, length, OnOk, IfOk};
ghost use Rattle.std.specs.List.{position};
ghost use Rattle.std.specs.Str.{bytes_eq};
ghost use Rattle.scr_spec.specs.declared.limits.TheConstants.{LABEL_LIMIT};
ghost use Rattle.scr_parse.specs.Limits.{is_statement_within};
ghost use Rattle.scr_scope.specs.Declarations as spec;

use crate::known::Known;
use crate::meaning::Meaning;
use crate::names::Names;
use base::{Name, NoMemory};
use scr_parse::{DraftKind, DraftValue, Statement};
use scr_spec::{
    Constant, Domain, Kind, Owner, Role, Shape, TypeDef, Variable, copy_kind, copy_names,
};
use sqlite_items::Items;
use std::alloc::Global;

/// Declares the names with their places in the list.
pub(crate) fn add_labels(
    alloc: Global,
    names: &mut Names,
    owner: Owner,
    labels: &[Name],
) -> Result<(), NoMemory>
    requires { length labels.now ≤ LABEL_LIMIT }
    ensures { OnOk result (names.new ≡ spec.with_labels names.old owner 0 labels.now) }
{
    let mut place = 0;
    for label in labels {
        names.add(alloc, label, Meaning::Label(owner, place))?;
        place += 1;
    }
    Ok(())
}

fn find(names: &[Name], name: &[u8]) -> Option<usize>
    ensures { result ≡ position (λ other. bytes_eq other name.now) names.now }
{
    names.iter().position(|other| other.as_slice() == name)
}

fn place_of(names: &[Name], name: &Name) -> usize
    ensures { result ≡ spec.place_of names.now name.now }
{
    find(names, name.as_slice()).unwrap_or(0)
}

fn bounded(alloc: Global, variable: &Variable, step: i64) -> Result<Variable, NoMemory>
    ensures { IfOk result (λ made. made ≡ spec.bounded step variable.now) }
{
    Ok(Variable {
        name: variable.name.copy(alloc)?,
        role: variable.role,
        kind: copy_kind(alloc, &variable.kind)?,
        init: variable.init,
        bound: Some(step),
    })
}

impl Known {
    fn add_range(&mut self, alloc: Global, name: &Name, lo: i64, hi: i64) -> Result<(), NoMemory>
        ensures { OnOk result (self.new ≡ spec.with_range self.old name.now lo hi) }
    {
        let meaning = Meaning::Type(self.types.len());
        self.names.add(alloc, name, meaning)?;
        let name = name.copy(alloc)?;
        self.types.push(TypeDef {
            name,
            shape: Shape::Range(Domain { lo, hi }),
        })?;
        Ok(())
    }

    fn add_list(&mut self, alloc: Global, name: &Name, labels: &[Name]) -> Result<(), NoMemory>
        requires { length labels.now ≤ LABEL_LIMIT }
        ensures { OnOk result (self.new ≡ spec.with_list self.old name.now labels.now) }
    {
        let k = self.types.len();
        self.names.add(alloc, name, Meaning::Type(k))?;
        add_labels(alloc, &mut self.names, Owner::Named(k), labels)?;
        let name = name.copy(alloc)?;
        let labels = copy_names(alloc, labels)?;
        self.types.push(TypeDef {
            name,
            shape: Shape::Labels(labels),
        })?;
        Ok(())
    }

    fn add_constant(&mut self, alloc: Global, name: &Name, value: i64) -> Result<(), NoMemory>
        ensures { OnOk result (self.new ≡ spec.with_constant self.old name.now value) }
    {
        let meaning = Meaning::Constant(self.constants.len());
        self.names.add(alloc, name, meaning)?;
        let name = name.copy(alloc)?;
        self.constants.push(Constant { name, value })?;
        Ok(())
    }

    fn init_code(&self, init: &Option<DraftValue>) -> Option<i64>
        ensures { result ≡ spec.init_code self.now init.now }
    {
        match init {
            Some(value) => Some(self.value_code(value)),
            None => None,
        }
    }

    fn add_variable(
        &mut self,
        alloc: Global,
        role: Role,
        name: &Name,
        kind: &DraftKind,
        init: &Option<DraftValue>,
    ) -> Result<(), NoMemory>
        ensures { OnOk result (self.new ≡ spec.with_variable self.old role name.now kind.now init.now) }
    {
        let init = self.init_code(init);
        let kind = self.kind_of(kind);
        let meaning = Meaning::Variable(self.variables.len());
        self.names.add(alloc, name, meaning)?;
        let name = name.copy(alloc)?;
        self.variables.push(Variable {
            name,
            role,
            kind,
            init,
            bound: None,
        })?;
        Ok(())
    }

    fn add_class(
        &mut self,
        alloc: Global,
        name: &Name,
        modes: &[Name],
        init: &Name,
    ) -> Result<(), NoMemory>
        requires { length modes.now ≤ LABEL_LIMIT }
        ensures { OnOk result (self.new ≡ spec.with_class self.old name.now modes.now init.now) }
    {
        let v = self.variables.len();
        self.names.add(alloc, name, Meaning::Variable(v))?;
        add_labels(alloc, &mut self.names, Owner::Class(v), modes)?;
        let name = name.copy(alloc)?;
        let first = place_of(modes, init) as i64;
        let modes = copy_names(alloc, modes)?;
        self.variables.push(Variable {
            name,
            role: Role::Mode,
            kind: Kind::Modes(modes),
            init: Some(first),
            bound: None,
        })?;
        Ok(())
    }

    fn add_bound(&mut self, alloc: Global, name: &Name, step: i64) -> Result<(), NoMemory>
        ensures { OnOk result (self.new ≡ spec.with_bound self.old name.now step) }
    {
        if let Some(v) = self.variable_named(name) {
            if let Some(variable) = self.variables.get(v) {
                let variable = bounded(alloc, variable, step)?;
                self.variables.set(v, variable);
            }
        }
        Ok(())
    }

    /// Adds what the line declares. A line of a table adds nothing.
    pub fn declare(&mut self, alloc: Global, statement: &Statement) -> Result<(), NoMemory>
        requires { is_statement_within statement.now ≡ true }
        ensures { OnOk result (self.new ≡ spec.with_declaration self.old statement.now) }
    {
        match statement {
            Statement::Specification(name) => {
                self.title = name.copy(alloc)?;
                Ok(())
            }
            Statement::Range(name, lo, hi) => self.add_range(alloc, name, *lo, *hi),
            Statement::Labels(name, labels) => self.add_list(alloc, name, labels.as_slice()),
            Statement::Constant(name, value) => self.add_constant(alloc, name, *value),
            Statement::Variable(role, name, kind, init) => {
                self.add_variable(alloc, *role, name, kind, init)
            }
            Statement::Class(name, modes, init) => {
                self.add_class(alloc, name, modes.as_slice(), init)
            }
            Statement::Nat(name, step) => self.add_bound(alloc, name, *step),
            _ => Ok(()),
        }
    }
}

//! What the lines so far declare.
ghost use Rattle.std.specs.Prelude.{◌≡◌, is_some, IfOk};
ghost use Rattle.std.specs.Option.{option_copied};
ghost use Rattle.scr_scope.specs.Declarations.{variable_of};
ghost use Rattle.scr_scope.specs.Meanings as spec;

use crate::meaning::Meaning;
use crate::names::Names;
use base::{Name, NoMemory};
use scr_spec::{Constant, Table, TypeDef, Variable};
use sqlite_items::Items;
use std::alloc::Global;

/// What the lines so far declare. `title` is the specification's name, which is not one of the
/// declared names, and `current` the table whose lines are read now.
#[derive(Drop)]
pub struct Known {
    pub title: Name,
    pub names: Names,
    pub types: Items<TypeDef>,
    pub constants: Items<Constant>,
    pub variables: Items<Variable>,
    pub tables: Items<Table>,
    pub current: Option<Table>,
}

fn type_meant(meaning: Meaning) -> Option<usize>
    ensures { result ≡ spec.type_meant meaning }
{
    match meaning {
        Meaning::Type(k) => Some(k),
        _ => None,
    }
}

fn variable_meant(meaning: Meaning) -> Option<usize>
    ensures { result ≡ spec.variable_meant meaning }
{
    match meaning {
        Meaning::Variable(v) => Some(v),
        _ => None,
    }
}

impl Known {
    /// Before the first line.
    pub fn new(alloc: Global) -> Result<Known, NoMemory>
        ensures { IfOk result (λ known. known ≡ spec.nothing) }
    {
        Ok(Known {
            title: Name::from_slice(alloc, &[])?,
            names: Names::new(alloc),
            types: Items::new(alloc),
            constants: Items::new(alloc),
            variables: Items::new(alloc),
            tables: Items::new(alloc),
            current: None,
        })
    }

    /// The name, where it is not declared.
    pub fn unknown<'a>(&self, name: &'a Name) -> Option<&'a Name>
        ensures { option_copied result ≡ spec.unknown self.now name.now }
    {
        match self.names.get(name) {
            Some(_) => None,
            None => Some(name),
        }
    }

    /// The number of the type of that name. None where the name is not declared, or is no type.
    pub fn type_named(&self, name: &Name) -> Option<usize>
        ensures { result ≡ spec.type_named self.now name.now }
    {
        type_meant(self.names.get(name)?)
    }

    /// The number of the variable of that name. None where the name is not declared, or is no
    /// variable.
    pub fn variable_named(&self, name: &Name) -> Option<usize>
        ensures { result ≡ spec.variable_named self.now name.now }
    {
        variable_meant(self.names.get(name)?)
    }

    /// The variable of that name. None where the name is not declared, or is no variable.
    pub fn variable_of(&self, name: &Name) -> Option<&Variable>
        ensures { option_copied result ≡ variable_of self.now name.now }
    {
        self.variables.get(self.variable_named(name)?)
    }

    /// Whether a variable has that name.
    pub fn is_variable(&self, name: &Name) -> bool
        ensures { result ≡ spec.is_variable self.now name.now }
    {
        self.variable_named(name).is_some()
    }
}

//! What the items so far declare.

ghost use Rattle.std.specs.Prelude.{◌≡◌, false, None, OnOk};
ghost use Rattle.std.specs.Option.{option_map};
ghost use Rattle.c_subset.specs.Names.{is_among};
ghost use Rattle.c_subset.specs.Scope.{no_scope, known, is_item_name, is_taken};
ghost use Rattle.c_reader.specs.Kept.{signature_of, scope_of, with_object, with_function, with_parameter, Like};

use base::{Name, NoMemory};
use indexmap::{IndexMap, IndexSet};
use std::alloc::Global;

/// Whether a function has a parameter, and what a call of it costs.
#[derive(Clone, Copy)]
pub(crate) struct Signature {
    pub takes: bool,
    pub weight: usize,
    pub depth: usize,
}

/// The names that the items so far declare. Each name is of one sort alone, and is found in constant time.
#[derive(Drop)]
pub(crate) struct Declared {
    objects: IndexSet<Vec<u8>>,
    functions: IndexMap<Vec<u8>, Signature>,
    parameters: IndexSet<Vec<u8>>,
}

impl Declared {
    /// Before the first item.
    pub fn new(alloc: Global) -> Declared
        ensures { scope_of result ≡ no_scope }
    {
        Declared {
            objects: IndexSet::new(alloc),
            functions: IndexMap::new(alloc),
            parameters: IndexSet::new(alloc),
        }
    }

    pub fn is_object(&self, name: &Name) -> bool
        ensures { result ≡ is_among (scope_of self.now).objects name.now }
    {
        self.objects.contains(name.as_slice())
    }

    pub fn function(&self, name: &Name) -> Option<Signature>
        ensures { result ≡ option_map signature_of (known (scope_of self.now) name.now) }
    {
        self.functions.get(name.as_slice()).copied()
    }

    fn is_parameter(&self, name: &Name) -> bool
        ensures { result ≡ is_among (scope_of self.now).parameters name.now }
    {
        self.parameters.contains(name.as_slice())
    }

    /// Whether it is the name of an object or a function.
    pub fn is_item_name(&self, name: &Name) -> bool
        ensures { result ≡ is_item_name (scope_of self.now) name.now }
    {
        self.is_object(name) || self.function(name).is_some()
    }

    /// Whether it is a name of any sort.
    pub fn is_taken(&self, name: &Name) -> bool
        ensures { result ≡ is_taken (scope_of self.now) name.now }
    {
        self.is_item_name(name) || self.is_parameter(name)
    }

    /// Declares an object. After an error nothing is known of what is declared.
    pub fn add_object(&mut self, alloc: Global, name: &Name) -> Result<(), NoMemory>
        requires { is_among (scope_of self.old).objects name.now ≡ false }
        ensures { OnOk result (scope_of self.new ≡ with_object (scope_of self.old) name.now) }
    {
        let key = Vec::from_slice(alloc, name.as_slice())?;
        self.objects.insert(key)?;
        Ok(())
    }

    /// Declares a function. After an error nothing is known of what is declared.
    pub fn add_function(
        &mut self,
        alloc: Global,
        name: &Name,
        signature: Signature,
    ) -> Result<(), NoMemory>
        requires { known (scope_of self.old) name.now ≡ None }
        ensures { OnOk result (scope_of self.new ≡ with_function (scope_of self.old) name.now signature) }
    {
        let key = Vec::from_slice(alloc, name.as_slice())?;
        self.functions.insert(key, signature)?;
        Ok(())
    }

    /// Declares a function's parameter, which another function may have, too.
    pub fn add_parameter(&mut self, alloc: Global, parameter: &Option<Name>) -> Result<(), NoMemory>
        ensures { OnOk result (Like (scope_of self.new) (with_parameter (scope_of self.old) parameter.now)) }
    {
        if let Some(name) = parameter {
            let key = Vec::from_slice(alloc, name.as_slice())?;
            self.parameters.insert(key)?;
        }
        Ok(())
    }
}

//! Names.
ghost use Rattle.std.specs.Prelude.{◌≡◌, IfOk};
ghost use Rattle.std.specs.Str.{bytes_eq};

use crate::NoMemory;
use std::alloc::Global;
use std::marker::Model;

/// A name. Contracts see it as the list of its bytes.
#[derive(Drop)]
pub struct Name {
    bytes: Vec<u8>,
}

impl Model for Name {
    ghost use Rattle.std.specs.Prelude.{ℕ, List};

    ghost Value = { List ℕ };

    ghost view = { λ n. n.bytes.items };
}

impl Name {
    /// A name of these bytes, which are not looked at.
    pub fn from_slice(alloc: Global, bytes: &[u8]) -> Result<Name, NoMemory>
        ensures { IfOk result (λ name. name ≡ bytes.now) }
    {
        let bytes = Vec::from_slice(alloc, bytes)?;
        Ok(Name { bytes })
    }

    /// Its bytes.
    pub fn as_slice(&self) -> &[u8]
        ensures { result.now ≡ self.now }
    {
        self.bytes.as_slice()
    }

    /// Another name of the same bytes.
    pub fn copy(&self, alloc: Global) -> Result<Name, NoMemory>
        ensures { IfOk result (λ name. name ≡ self.now) }
    {
        Name::from_slice(alloc, self.as_slice())
    }

    /// Whether both have the same bytes.
    pub fn is_same(&self, other: &Name) -> bool
        ensures { result ≡ bytes_eq self.now other.now }
    {
        self.as_slice() == other.as_slice()
    }
}

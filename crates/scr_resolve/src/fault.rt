//! Why a draft is refused.

use base::{Name, NoMemory};
use std::alloc::{AllocError, AllocFailed};

/// Which rule a line breaks, in the order in which the rules are tried on a line. `Kind` is the
/// rule on types.
#[derive(Clone, Copy, Debug, PartialEq, Eq)]
pub enum TypeKind {
    Duplicate,
    Unknown,
    Kind,
    Range,
    Wide,
    Mode,
    Table,
}

/// Why a draft spells no specification: its first line that breaks a rule, from 1, the rule, and
/// the name that breaks it.
#[derive(Drop)]
pub enum TypeFault {
    Refused(u32, TypeKind, Name),
    NoMemory,
}

impl From<NoMemory> for TypeFault {
    ghost use Rattle.std.specs.Prelude.{◌≡◌};
    ghost use Rattle.scr_resolve.specs.declared.fault.TypeFault.TheVariants as fault;

    ghost from_gives = { λ _ e. e ≡ fault.NoMemory };

    fn from(_: NoMemory) -> TypeFault {
        TypeFault::NoMemory
    }
}

impl From<AllocError> for TypeFault {
    ghost use Rattle.std.specs.Prelude.{◌≡◌};
    ghost use Rattle.scr_resolve.specs.declared.fault.TypeFault.TheVariants.{NoMemory};

    ghost from_gives = { λ _ e. e ≡ NoMemory };

    fn from(_: AllocError) -> TypeFault {
        TypeFault::NoMemory
    }
}

impl<T: Drop> From<AllocFailed<T>> for TypeFault {
    ghost use Rattle.std.specs.Prelude.{◌≡◌};
    ghost use Rattle.scr_resolve.specs.declared.fault.TypeFault.TheVariants.{NoMemory};

    ghost from_gives = { λ _ e. e ≡ NoMemory };

    fn from(_: AllocFailed<T>) -> TypeFault {
        TypeFault::NoMemory
    }
}

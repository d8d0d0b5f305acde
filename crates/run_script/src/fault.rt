//! Why a script line holds no input.
ghost use Rattle.std.specs.Prelude.{◌≡◌};
ghost use Rattle.run_script.specs.Faults.{kind_of};

use base_script::ScriptKind;
use thiserror::Error;

/// The first thing that is wrong with a script line, in the order in which it is looked for.
#[derive(Clone, Copy, Debug, PartialEq, Eq, Error)]
pub enum ScriptFault {
    /// The line has no form, or more than 4,096 bytes, or a byte that may not stand outside comments.
    #[error("the line has no form")]
    Syntax,
    /// The name is that of no monitored variable.
    #[error("the variable is not a monitored one")]
    Unknown,
    /// The value is none of the variable.
    #[error("the value is none of the variable's")]
    Value,
    /// The variable has this value now.
    #[error("the variable has this value")]
    NoChange,
    /// The value differs from the present one by more than the bound.
    #[error("the change passes the bound")]
    Nat,
}

/// The kind that is printed of a fault.
pub fn kind_of(fault: ScriptFault) -> ScriptKind
    ensures { result ≡ kind_of fault }
{
    match fault {
        ScriptFault::Syntax => ScriptKind::Syntax,
        ScriptFault::Unknown => ScriptKind::Unknown,
        ScriptFault::Value => ScriptKind::Value,
        ScriptFault::NoChange => ScriptKind::NoChange,
        ScriptFault::Nat => ScriptKind::Nat,
    }
}

//! What a line did, and why it did nothing.
ghost use Rattle.std.specs.Prelude.{◌≡◌};
ghost use Rattle.run_back.specs.Faults.{kind_of};

use base_script::ScriptKind;
use run_script::ScriptFault;

/// What a line did.
#[derive(Clone, Copy, Debug, PartialEq, Eq)]
pub enum Replayed {
    /// Nothing: it is blank or a comment.
    Blank,
    /// It held an input.
    Forward,
    /// It went some inputs back.
    Back,
}

/// What is wrong with a line.
#[derive(Clone, Copy, Debug, PartialEq, Eq)]
pub enum ReplayFault {
    /// It is no line of a script.
    Script(ScriptFault),
    /// It asks for more steps back than the depth, which stands here.
    Back(u32),
}

/// The kind that is printed of a fault.
pub fn kind_of(fault: ReplayFault) -> ScriptKind
    ensures { result ≡ kind_of fault }
{
    match fault {
        ReplayFault::Script(fault) => run_script::kind_of(fault),
        ReplayFault::Back(_) => ScriptKind::Back,
    }
}

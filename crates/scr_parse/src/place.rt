//! Places in a text, and why a text is refused.

use crate::fault::FormFault;
use base::NoMemory;
use scr_spec::Heading;
use scr_tokens::LexFault;
use std::alloc::{AllocError, AllocFailed};

/// Where in the text a line stands, which decides the forms that it may have.
#[derive(Clone, Copy, PartialEq, Eq)]
pub enum Place {
    Start,
    Declarations,
    FirstRow(Heading),
    Rows(Heading),
    Transitions,
    Closed,
    Tables,
    After,
}

/// How many lines of a kind came so far: `TYPE` lines, `CONST` lines, variables with the mode
/// classes, and the `ROW` or `FROM` lines of the present table.
#[derive(Clone, Copy, PartialEq, Eq)]
pub struct Counts {
    pub types: u32,
    pub constants: u32,
    pub variables: u32,
    pub rows: u32,
}

/// The place of a line, and what came before it.
#[derive(Clone, Copy, PartialEq, Eq)]
pub struct Position {
    pub place: Place,
    pub counts: Counts,
}

/// Why a line is refused. `End` is the fault of the line after the last one, where `FINISH` was
/// not met.
#[derive(Clone, Copy, PartialEq, Eq)]
pub enum TextKind {
    Byte,
    Limit,
    Syntax,
    End,
}

/// Why a line is not read.
#[derive(Clone, Copy, PartialEq, Eq)]
pub(crate) enum LineFault {
    Refused(TextKind),
    NoMemory,
}

impl From<FormFault> for LineFault {
    ghost use Rattle.std.specs.Prelude.{◌≡◌};
    ghost use Rattle.scr_parse.specs.Faults.{of_form};

    ghost from_gives = { λ form fault. fault ≡ of_form form };

    fn from(fault: FormFault) -> LineFault {
        match fault {
            FormFault::Refused => LineFault::Refused(TextKind::Syntax),
            FormFault::NoMemory => LineFault::NoMemory,
        }
    }
}

impl From<LexFault> for LineFault {
    ghost use Rattle.std.specs.Prelude.{◌≡◌};
    ghost use Rattle.scr_parse.specs.Faults.{of_lex};

    ghost from_gives = { λ lex fault. fault ≡ of_lex lex };

    fn from(fault: LexFault) -> LineFault {
        match fault {
            LexFault::Limit => LineFault::Refused(TextKind::Limit),
            LexFault::Byte => LineFault::Refused(TextKind::Byte),
            LexFault::Syntax => LineFault::Refused(TextKind::Syntax),
            LexFault::NoMemory => LineFault::NoMemory,
        }
    }
}

/// Why a text is not read: its first faulty line, from 1, and what is wrong with it. A text that
/// is too long is refused at line 0.
#[derive(Clone, Copy, PartialEq, Eq)]
pub enum TextFault {
    Refused(u32, TextKind),
    NoMemory,
}

impl From<AllocError> for TextFault {
    ghost use Rattle.std.specs.Prelude.{◌≡◌};
    ghost use Rattle.scr_parse.specs.declared.place.TextFault.TheVariants.{NoMemory};

    ghost from_gives = { λ _ e. e ≡ NoMemory };

    fn from(_: AllocError) -> TextFault {
        TextFault::NoMemory
    }
}

impl<T: Drop> From<AllocFailed<T>> for TextFault {
    ghost use Rattle.std.specs.Prelude.{◌≡◌};
    ghost use Rattle.scr_parse.specs.declared.place.TextFault.TheVariants.{NoMemory};

    ghost from_gives = { λ _ e. e ≡ NoMemory };

    fn from(_: AllocFailed<T>) -> TextFault {
        TextFault::NoMemory
    }
}

impl From<NoMemory> for TextFault {
    ghost use Rattle.std.specs.Prelude.{◌≡◌};
    ghost use Rattle.scr_parse.specs.declared.place.TextFault.TheVariants as fault;

    ghost from_gives = { λ _ e. e ≡ fault.NoMemory };

    fn from(_: NoMemory) -> TextFault {
        TextFault::NoMemory
    }
}

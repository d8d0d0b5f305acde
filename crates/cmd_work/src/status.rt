//! How the program ends.
ghost use Rattle.std.specs.Prelude.{◌≡◌};

use base::NoMemory;

/// How a run ended. Its number is the exit status of the program.
#[derive(Clone, Copy, Debug, PartialEq, Eq)]
pub enum Status {
    /// 0: the whole answer was written. It tells no fault, no finding and nothing undecided.
    Done,
    /// 1: the whole answer was written. It tells a cycle, a verdict no, a call without a meaning, or an
    /// assertion that is false initially or unproved.
    Findings,
    /// 2: the words have no form.
    Usage,
    /// 3: the text of the specification is refused, by one line.
    SpecRefused,
    /// 4: a line of the script, or of the calls, is faulty. No line behind it is answered.
    ScriptRefused,
    /// 5: a file could not be begun, or a read of it failed.
    ReadFault,
    /// 6: a write failed, or took no bytes.
    WriteFault,
    /// 7: memory ran out.
    NoMemory,
    /// 8: the whole answer was written. It tells no finding, and a table, a class or an assertion that is
    /// undecided.
    Undecided,
    /// 9: the text of the C unit is refused, by one line.
    CodeRefused,
    /// 10: the text of the assertions is refused, by one line.
    AssertRefused,
    /// 11: a word that is to name a variable names none.
    NameRefused,
}

impl Status {
    ghost use Rattle.cmd_work.specs.Number.{status_number};

    /// The exit status, from 0 in the order of the endings.
    pub fn number(self) -> u8
        ensures { result ≡ status_number self }
    {
        self as u8
    }
}

/// Why a command did not come to its end.
#[derive(Clone, Copy, Debug, PartialEq, Eq)]
pub enum Stop {
    /// A file could not be begun, or a read of it failed.
    Read,
    /// A write failed, or took no bytes.
    Write,
    /// Memory ran out.
    NoMemory,
}

impl From<NoMemory> for Stop {
    ghost use Rattle.cmd_work.specs.declared.status.Stop.TheVariants.{NoMemory};

    ghost from_gives = { λ _ stop. stop ≡ NoMemory };

    fn from(_: NoMemory) -> Self {
        Stop::NoMemory
    }
}

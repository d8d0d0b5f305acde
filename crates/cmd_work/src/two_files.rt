//! The order of work of a command that reads one file whole and then goes through a second one line by line.
ghost use Rattle.std.specs.Prelude.{◌≡◌, ◌<◌, ◌^◌, [], ℕ, Bool, List, Option, IfOk, IfErr, IfSome, IsErrOf, IsSome, IsTrue};
ghost use Rattle.base_io.specs.Outside.{HasRisen, Holds};
ghost use Rattle.cmd_work.specs.declared.status.Status.{Status};
ghost use Rattle.cmd_work.specs.Ends.{Answered, Stopped, IsFront, is_own};
ghost use Rattle.cmd_work.specs.Load.{IsLoaded};
ghost use Rattle.cmd_work.specs.TwoFiles.{IsFirst, IsOwnFirst};

use crate::status::{Status, Stop};
use crate::whole::{Loaded, load, put};
use base::NoMemory;
use base_io::{Shelf, Sink};
use std::alloc::Global;

/// What the first file makes of a command.
#[derive(Drop)]
pub enum First<B> {
    /// The whole answer. The second file is not begun.
    Answer(Vec<u8>, Status),
    /// What the lines of the second file are answered by.
    Base(B),
}

/// A command that reads one file whole and then goes through a second one line by line.
pub trait TwoFiles {
    type Base: Drop;

    /// The bytes and the status for the first and the second file, where they are there.
    ghost answers: { Self → Option (List ℕ) → Option (List ℕ) → List ℕ → Status → Type 0 };

    /// The second file is reached, by the first one.
    ghost reaches: { Self → Option (List ℕ) → Type 0 };

    /// The bytes and the status for the second file, if it is there.
    ghost goes: { Self → Self.Base → Option (List ℕ) → List ℕ → Status → Type 0 };

    /// The most bytes that the first file may have.
    ghost most_bytes: { Self → ℕ };

    /// Both files are read before a byte is written.
    ghost reads_first: { Bool };

    /// The most bytes of the first file. All files have an answer, those above it and those that are not there
    /// included.
    fn most_bytes(&self) -> usize
        ensures exact { result ≡ most_bytes self.now }
        ensures small { result < 2 ^ 32 }
        ensures some_answer { (held second : Option (List ℕ)) → IsFront (answers self.now held second) [] };

    /// What a first file makes of the command.
    fn first(&self, alloc: Global, file: Loaded) -> Result<First<Self::Base>, NoMemory>
        ensures exact { IfOk result (λ r. (held : Option (List ℕ)) → IsLoaded (most_bytes self.now) held file
            → IsFirst (answers self.now held) (reaches self.now held) (goes self.now) r) }
        ensures own { IfOk result IsOwnFirst };

    /// Answers the second file, line by line or by one text.
    fn go_on<S: Shelf, K: Sink>(
        &self,
        alloc: Global,
        base: &Self::Base,
        name: &str,
        shelf: &mut S,
        out: &mut K,
    ) -> Result<Status, Stop>
        ensures answered { IfOk result (Answered (S.contents shelf.old) (K.written out.old) (K.written out.new)
            (λ files. goes self.now base.now (files name.now))) }
        ensures stopped { IfErr result (Stopped (S.contents shelf.old) (K.written out.old) (K.written out.new)
            (λ files. goes self.now base.now (files name.now))) }
        ensures status { IfOk result (λ status. IsTrue (is_own status)) }
        ensures nothing { IsTrue reads_first → IsErrOf result Stop.Read → K.written out.new ≡ K.written out.old }
        ensures read_cause { IsErrOf result Stop.Read → HasRisen (S.faults shelf.old) (S.faults shelf.new) }
        ensures write_cause { IsErrOf result Stop.Write → HasRisen (K.faults out.old) (K.faults out.new) }
        ensures succeeds { S.steady shelf.old → Holds (S.contents shelf.old) name.now → ¬ IsErrOf result Stop.Read };
}

/// Reads the first file whole. Where it gives no whole answer, the second file is gone through line by line.
pub(crate) fn respond_two<C: TwoFiles, S: Shelf, K: Sink>(
    command: &C,
    alloc: Global,
    name: &str,
    second: &str,
    shelf: &mut S,
    out: &mut K,
) -> Result<Status, Stop>
    ensures answered { IfOk result (Answered (S.contents shelf.old) (K.written out.old) (K.written out.new)
        (λ files. C.answers command.now (files name.now) (files second.now))) }
    ensures stopped { IfErr result (Stopped (S.contents shelf.old) (K.written out.old) (K.written out.new)
        (λ files. C.answers command.now (files name.now) (files second.now))) }
    ensures status { IfOk result (λ status. IsTrue (is_own status)) }
    ensures nothing { IsTrue C.reads_first → IsErrOf result Stop.Read → K.written out.new ≡ K.written out.old }
    ensures read_cause { IsErrOf result Stop.Read → HasRisen (S.faults shelf.old) (S.faults shelf.new) }
    ensures write_cause { IsErrOf result Stop.Write → HasRisen (K.faults out.old) (K.faults out.new) }
    ensures succeeds { S.steady shelf.old → Holds (S.contents shelf.old) name.now
        → IfSome (S.contents shelf.old) (λ files. C.reaches command.now (files name.now) → IsSome (files second.now))
        → ¬ IsErrOf result Stop.Read }
{
    let file = load(alloc, shelf, name, command.most_bytes())?;
    let first = command.first(alloc, file)?;
    match first {
        First::Answer(text, status) => {
            put(out, text.as_slice())?;
            Ok(status)
        }
        First::Base(base) => command.go_on(alloc, &base, second, shelf, out),
    }
}

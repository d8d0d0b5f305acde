//! The order of work of a command that reads one file whole and then writes one text.
ghost use Rattle.std.specs.Prelude.{◌≡◌, ◌<◌, ◌^◌, [], ℕ, List, Option, IfOk, IfErr, IsErrOf, IsTrue};
ghost use Rattle.base_io.specs.Outside.{HasRisen, Holds};
ghost use Rattle.cmd_work.specs.declared.status.Status.{Status};
ghost use Rattle.cmd_work.specs.Load.{IsLoaded};
ghost use Rattle.cmd_work.specs.Ends.{Answered, Stopped, IsFront, is_own};

use crate::status::{Status, Stop};
use crate::whole::{Loaded, load, put};
use base::NoMemory;
use base_io::{Shelf, Sink};
use std::alloc::Global;

/// A command that reads one file whole and then writes one text.
pub trait OneFile {
    /// The bytes and the status for a file, if it is there.
    ghost answers: { Self → Option (List ℕ) → List ℕ → Status → Type 0 };

    /// The most bytes that the file may have.
    ghost most_bytes: { Self → ℕ };

    /// The most bytes of the file. Each file has an answer, one above it and one that is not there included.
    fn most_bytes(&self) -> usize
        ensures exact { result ≡ most_bytes self.now }
        ensures small { result < 2 ^ 32 }
        ensures some_answer { (held : Option (List ℕ)) → IsFront (answers self.now held) [] };

    /// The text and the status for a file that was read.
    fn answer(&self, alloc: Global, file: Loaded) -> Result<(Vec<u8>, Status), NoMemory>
        ensures exact { IfOk result (λ r. (held : Option (List ℕ))
            → IsLoaded (most_bytes self.now) held file → answers self.now held r.0.items r.1) }
        ensures status { IfOk result (λ r. IsTrue (is_own r.1)) };
}

/// Reads the file whole, and then writes the answer.
pub fn respond_one<J: OneFile, S: Shelf, K: Sink>(
    job: &J,
    alloc: Global,
    name: &str,
    shelf: &mut S,
    out: &mut K,
) -> Result<Status, Stop>
    ensures answered { IfOk result (Answered (S.contents shelf.old) (K.written out.old) (K.written out.new)
        (λ files. J.answers job.now (files name.now))) }
    ensures stopped { IfErr result (Stopped (S.contents shelf.old) (K.written out.old) (K.written out.new)
        (λ files. J.answers job.now (files name.now))) }
    ensures status { IfOk result (λ status. IsTrue (is_own status)) }
    ensures nothing { IsErrOf result Stop.Read → K.written out.new ≡ K.written out.old }
    ensures read_cause { IsErrOf result Stop.Read → HasRisen (S.faults shelf.old) (S.faults shelf.new) }
    ensures write_cause { IsErrOf result Stop.Write → HasRisen (K.faults out.old) (K.faults out.new) }
    ensures succeeds { S.steady shelf.old → Holds (S.contents shelf.old) name.now
        → ¬ IsErrOf result Stop.Read }
{
    let file = load(alloc, shelf, name, job.most_bytes())?;
    let (text, status) = job.answer(alloc, file)?;
    put(out, text.as_slice())?;
    Ok(status)
}

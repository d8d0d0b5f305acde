//! The order of work of a command that begins no file and writes one text.
ghost use Rattle.std.specs.Prelude.{[], ℕ, List, IfOk, IfErr, IsErrOf, IsTrue};
ghost use Rattle.base_io.specs.Outside.{HasRisen};
ghost use Rattle.cmd_work.specs.declared.status.Status.{Status};
ghost use Rattle.cmd_work.specs.Ends.{Wrote, IsCut, IsFront, is_own};

use crate::status::{Status, Stop};
use crate::whole::put;
use base::NoMemory;
use base_io::Sink;
use std::alloc::Global;

/// A command that begins no file and writes one text.
pub trait NoFile {
    /// The bytes and the status.
    ghost answers: { Self → List ℕ → Status → Type 0 };

    /// The text and the status. There is always an answer, also where there is no memory for it.
    fn answer(&self, alloc: Global) -> Result<(Vec<u8>, Status), NoMemory>
        ensures exact { IfOk result (λ r. answers self.now r.0.items r.1) }
        ensures status { IfOk result (λ r. IsTrue (is_own r.1)) }
        ensures some_answer { IsFront (answers self.now) [] };
}

/// Writes the answer.
pub(crate) fn respond_none<J: NoFile, K: Sink>(
    job: &J,
    alloc: Global,
    out: &mut K,
) -> Result<Status, Stop>
    ensures answered { IfOk result (Wrote (J.answers job.now) (K.written out.old) (K.written out.new)) }
    ensures stopped { IfErr result (IsCut (J.answers job.now) (K.written out.old) (K.written out.new)) }
    ensures status { IfOk result (λ status. IsTrue (is_own status)) }
    ensures not_read { ¬ IsErrOf result Stop.Read }
    ensures write_cause { IsErrOf result Stop.Write → HasRisen (K.faults out.old) (K.faults out.new) }
{
    let (text, status) = job.answer(alloc)?;
    put(out, text.as_slice())?;
    Ok(status)
}

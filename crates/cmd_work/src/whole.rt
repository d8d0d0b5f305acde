//! Files of the shelf, read whole, and pieces of an answer, written whole.
ghost use Rattle.std.specs.Prelude.{◌≡◌, ◌<◌, ◌≤◌, ◌^◌, IfOk, IfErr, OnOk, OnErr, IfSome, IsErrOf};
ghost use Rattle.std.specs.Io.KnownBytes.{Appends};
ghost use Rattle.base_io.specs.Outside.{HasRisen, Holds, AppendsPart};
ghost use Rattle.cmd_work.specs.Load.{IsLoaded};

use crate::status::Stop;
use base_io::{LoadFault, Shelf, Sink, read_all, write_all};
use std::alloc::Global;

/// A file's bytes, where they are within the limit.
#[derive(Drop)]
pub enum Loaded {
    /// All bytes of the file.
    Whole(Vec<u8>),
    /// The file has more bytes than the limit. None of them is kept.
    TooLong,
}

/// Begins the file of this name and reads all of it, at most `limit` bytes.
pub fn load<S: Shelf>(
    alloc: Global,
    shelf: &mut S,
    name: &str,
    limit: usize,
) -> Result<Loaded, Stop>
    requires { limit < 2 ^ 32 }
    ensures loaded { IfOk result (λ file.
        IfSome (S.contents shelf.old) (λ files. IsLoaded limit (files name.now) file)) }
    ensures not_write { ¬ IsErrOf result Stop.Write }
    ensures cause { IsErrOf result Stop.Read → HasRisen (S.faults shelf.old) (S.faults shelf.new) }
    ensures later { S.faults shelf.old ≤ S.faults shelf.new }
    ensures same_contents { S.contents shelf.new ≡ S.contents shelf.old }
    ensures steady_on { S.steady shelf.old → S.steady shelf.new }
    ensures succeeds { S.steady shelf.old → Holds (S.contents shelf.old) name.now
        → ¬ IsErrOf result Stop.Read }
{
    if shelf.begin(name).is_err() {
        return Err(Stop::Read);
    }
    match read_all(alloc, shelf, limit) {
        Ok(bytes) => Ok(Loaded::Whole(bytes)),
        Err(LoadFault::TooLong(_)) => Ok(Loaded::TooLong),
        Err(LoadFault::Read) => Err(Stop::Read),
        Err(LoadFault::NoMemory) => Err(Stop::NoMemory),
    }
}

/// Writes all of a piece. Where that fails, a part of it was written, and not all.
pub fn put<K: Sink>(out: &mut K, piece: &[u8]) -> Result<(), Stop>
    ensures ok { OnOk result (Appends (K.written out.old) (K.written out.new) piece.now) }
    ensures err { OnErr result (AppendsPart (K.written out.old) (K.written out.new) piece.now) }
    ensures only { IfErr result (λ stop. stop ≡ Stop.Write) }
    ensures cause { OnErr result (HasRisen (K.faults out.old) (K.faults out.new)) }
    ensures later { K.faults out.old ≤ K.faults out.new }
{
    write_all(out, piece).map_err(|_| Stop::Write)
}

//! All of a file, and all of a piece.
ghost use Rattle.std.specs.Prelude.{◌≡◌, ◌≤◌, ◌<◌, ◌+◌, ◌^◌, vec_len, OnOk, OnErr, IfOk, IfErr, IfSome, IsErrOf};
ghost use Rattle.std.specs.Io.KnownBytes.{Appends, IsAtEnd};
ghost use Rattle.base_io.specs.Outside.{HasRisen, TakesAtMost, AppendsPart};
ghost use Rattle.base_io.specs.Load.{IsBeginning, IfTooLong};

use crate::reading::{READ_SIZE, read_piece};
use crate::{Failed, Shelf, Sink};
use std::alloc::{AllocError, Global};

/// Appends the piece. A failure leaves a part of it appended, and not all.
pub fn write_all<K: Sink>(out: &mut K, piece: &[u8]) -> Result<(), Failed>
    ensures ok { OnOk result (Appends (K.written out.old) (K.written out.new) piece.now) }
    ensures err { OnErr result (AppendsPart (K.written out.old) (K.written out.new) piece.now) }
    ensures cause { OnErr result (HasRisen (K.faults out.old) (K.faults out.new)) }
    ensures later { K.faults out.old ≤ K.faults out.new }
{
    let mut done = 0;
    while done < piece.len() {
        done += out.write(&piece[done..])?;
    }
    Ok(())
}

/// Why a file was not read whole.
#[derive(Drop)]
pub enum LoadFault {
    /// A read failed.
    Read,
    /// There were more bytes than `limit`. These are the first `limit` of them.
    TooLong(Vec<u8>),
    NoMemory,
}

impl From<Failed> for LoadFault {
    ghost use Rattle.base_io.specs.declared.whole.LoadFault.TheVariants.{Read};

    ghost from_gives = { λ _ fault. fault ≡ Read };

    fn from(_: Failed) -> Self {
        LoadFault::Read
    }
}

impl From<AllocError> for LoadFault {
    ghost use Rattle.base_io.specs.declared.whole.LoadFault.TheVariants.{NoMemory};

    ghost from_gives = { λ _ fault. fault ≡ NoMemory };

    fn from(_: AllocError) -> Self {
        LoadFault::NoMemory
    }
}

/// All that is left of the file that was begun, at most `limit` bytes.
pub fn read_all<S: Shelf>(alloc: Global, shelf: &mut S, limit: usize) -> Result<Vec<u8>, LoadFault>
    requires { limit < 2 ^ 32 }
    ensures all { IfOk result (λ bytes. IfSome (S.left shelf.old) (λ left. bytes.items ≡ left)) }
    ensures within { IfOk result (λ bytes. vec_len bytes ≤ limit) }
    ensures end { OnOk result (IsAtEnd (S.left shelf.new)) }
    ensures too_long { IfErr result (IfTooLong (IsBeginning limit (S.left shelf.old))) }
    ensures taken { TakesAtMost (limit + 1) (S.left shelf.old) (S.left shelf.new) }
    ensures cause { IsErrOf result LoadFault.Read → HasRisen (S.faults shelf.old) (S.faults shelf.new) }
    ensures later { S.faults shelf.old ≤ S.faults shelf.new }
    ensures same_contents { S.contents shelf.new ≡ S.contents shelf.old }
    ensures steady_on { S.steady shelf.old → S.steady shelf.new }
    ensures succeeds { S.steady shelf.old → ¬ IsErrOf result LoadFault.Read }
{
    let mut all = Vec::new(alloc);
    let mut piece = [0u8; READ_SIZE];
    while all.len() <= limit {
        let n = read_piece(shelf, &mut piece, limit + 1 - all.len())?;
        if n == 0 {
            return Ok(all);
        }
        all.extend_from_slice(&piece[..n])?;
    }
    all.truncate(limit);
    Err(LoadFault::TooLong(all))
}

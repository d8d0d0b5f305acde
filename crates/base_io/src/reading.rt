//! Reads of one piece of a file.
ghost use Rattle.std.specs.Prelude.{◌≡◌, ◌<◌, ◌≤◌, min, take, IsOk, OnErr, IfOk};
ghost use Rattle.std.specs.Io.KnownBytes.{Consumes, Keeps, IsAtEnd};
ghost use Rattle.base_io.specs.Outside.{HasRisen};

use crate::{Failed, Shelf};

/// How many bytes a read asks for, where so many may yet be taken.
pub(crate) const READ_SIZE: usize = 512;

/// Reads to the front of the piece, where at most `most` bytes may yet be taken.
pub(crate) fn read_piece<S: Shelf>(
    shelf: &mut S,
    piece: &mut [u8; READ_SIZE],
    most: usize,
) -> Result<usize, Failed>
    requires { 0 < most }
    ensures bound { IfOk result (λ n. n ≤ min READ_SIZE most) }
    ensures taken { IfOk result (λ n. Consumes (S.left shelf.old) (S.left shelf.new) (take n piece.new)) }
    ensures end { IfOk result (λ n. n ≡ 0 → IsAtEnd (S.left shelf.new)) }
    ensures err { OnErr result (Keeps (S.left shelf.old) (S.left shelf.new)) }
    ensures cause { OnErr result (HasRisen (S.faults shelf.old) (S.faults shelf.new)) }
    ensures later { S.faults shelf.old ≤ S.faults shelf.new }
    ensures same_contents { S.contents shelf.new ≡ S.contents shelf.old }
    ensures steady_on { S.steady shelf.old → S.steady shelf.new }
    ensures succeeds { S.steady shelf.old → IsOk result }
{
    shelf.read(&mut piece[..READ_SIZE.min(most)])
}

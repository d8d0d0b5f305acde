//! Where the first line of a file ends.
ghost use Rattle.std.specs.Prelude.{◌≡◌, ◌≢◌, ◌<◌, ◌≤◌, ◌+◌, ◌-◌, ◌++◌, ◌^◌, ℕ, List, All, length, take, drop, vec_len, vec_capacity, IfSome, IfNone, IfOk, OnErr, IsOk, nat_le};
ghost use Rattle.std.specs.Io.KnownBytes.{IsAtEnd};
ghost use Rattle.std.specs.List.{list_any};
ghost use Rattle.base_io.specs.Outside.{HasRisen, TakesAtMost};
ghost use Rattle.base.specs.Ends.{without_end, line_with_end};
ghost use Rattle.base_io.specs.Line.{is_line_feed, Grows};
ghost use Rattle.base_io.specs.Sought.{Finds};

use crate::reading::{READ_SIZE, read_piece};
use crate::{Failed, Shelf};
use base::LINE_LIMIT;

/// Room for a line with its end, and for one read more.
pub(crate) const LINE_ROOM: usize = LINE_LIMIT + 2 + READ_SIZE;

// How many bytes the first line has with its end, if its end is there.
fn line_end(bytes: &[u8]) -> Option<usize>
    ensures within { IfSome result (λ n. (0 < n) × (n ≤ length bytes.now)) }
    ensures found { IfSome result (λ n. (more : List ℕ)
        → line_with_end (bytes.now ++ more) ≡ take n bytes.now) }
    ensures none { IfNone result (All (λ b. b ≢ 10) bytes.now) }
{
    for (i, byte) in bytes.iter().enumerate() {
        if *byte == b'\n' {
            return Some(i + 1);
        }
    }
    None
}

/// How many bytes a line has without its end.
pub(crate) fn len_without_end(line: &[u8]) -> usize
    ensures within { result ≤ length line.now }
    ensures exact { take result line.now ≡ without_end line.now }
{
    let mut n = line.len();
    if n > 0 && line[n - 1] == b'\n' {
        n -= 1;
    }
    if n > 0 && line[n - 1] == b'\r' {
        n -= 1;
    }
    n
}

/// Takes the first bytes away.
pub(crate) fn forget(buf: &mut Vec<u8>, count: usize)
    requires { count ≤ vec_len buf.old }
    ensures rest { buf.new.items ≡ drop count buf.old.items }
    ensures capacity { vec_capacity buf.old ≤ vec_capacity buf.new }
{
    buf.rotate_left(count);
    buf.truncate(buf.len() - count);
}

// Reads once, and puts what came behind the other bytes. At most `most` bytes may yet be taken.
fn refill<S: Shelf>(buf: &mut Vec<u8>, shelf: &mut S, most: usize) -> Result<usize, Failed>
    requires some { 0 < most }
    requires room { vec_len buf.old + READ_SIZE ≤ vec_capacity buf.old }
    ensures grows { Grows buf.old.items buf.new.items (S.left shelf.old) (S.left shelf.new) }
    ensures count { IfOk result (λ n. vec_len buf.new ≡ vec_len buf.old + n) }
    ensures within { vec_len buf.new ≤ vec_len buf.old + most }
    ensures end { IfOk result (λ n. n ≡ 0 → IsAtEnd (S.left shelf.new)) }
    ensures capacity { vec_capacity buf.old ≤ vec_capacity buf.new }
    ensures cause { OnErr result (HasRisen (S.faults shelf.old) (S.faults shelf.new)) }
    ensures later { S.faults shelf.old ≤ S.faults shelf.new }
    ensures same_contents { S.contents shelf.new ≡ S.contents shelf.old }
    ensures steady_on { S.steady shelf.old → S.steady shelf.new }
    ensures succeeds { S.steady shelf.old → IsOk result }
{
    let mut piece = [0u8; READ_SIZE];
    let n = read_piece(shelf, &mut piece, most)?;
    buf.extend_from_slice(&piece[..n]).unwrap();
    Ok(n)
}

fn is_line_feed(b: u8) -> bool
    ensures { result ≡ is_line_feed b }
{
    b == b'\n'
}

/// Whether a line ends among the bytes.
pub(crate) fn has_line_end(bytes: &[u8]) -> bool
    ensures { result ≡ list_any is_line_feed bytes.now }
{
    bytes.iter().any(|b| is_line_feed(*b))
}

/// How a search for the end of the first line went.
pub(crate) enum Sought {
    /// So many bytes are the first line with its end.
    Ended(usize),
    /// The first line does not lie within the room.
    TooFar,
    /// There are more bytes than a line may have, and none ends it.
    Unended,
    /// No byte is left.
    Nothing,
}

/// Takes bytes until the end of the first line is among them, or it is known that it is too far.
pub(crate) fn seek<S: Shelf>(
    buf: &mut Vec<u8>,
    shelf: &mut S,
    room: usize,
) -> Result<Sought, Failed>
    requires small { room < 2 ^ 32 }
    requires within { vec_len buf.old ≤ room + 1 }
    requires capacity { LINE_ROOM ≤ vec_capacity buf.old }
    ensures found { IfOk result (Finds room buf.new.items (S.left shelf.new)) }
    ensures grows { Grows buf.old.items buf.new.items (S.left shelf.old) (S.left shelf.new) }
    ensures within_on { vec_len buf.new ≤ room + 1 }
    ensures capacity_on { LINE_ROOM ≤ vec_capacity buf.new }
    ensures cause { OnErr result (HasRisen (S.faults shelf.old) (S.faults shelf.new)) }
    ensures later { S.faults shelf.old ≤ S.faults shelf.new }
    ensures same_contents { S.contents shelf.new ≡ S.contents shelf.old }
    ensures steady_on { S.steady shelf.old → S.steady shelf.new }
    ensures succeeds { S.steady shelf.old → IsOk result }
{
    'search: loop {
        if let Some(n) = line_end(buf.as_slice()) {
            return Ok(if n > room {
                Sought::TooFar
            } else {
                Sought::Ended(n)
            });
        }
        let have = buf.len();
        if have > room {
            return Ok(Sought::TooFar);
        }
        if have > LINE_LIMIT + 1 {
            return Ok(Sought::Unended);
        }
        if refill(buf, shelf, room + 1 - have)? == 0 {
            return Ok(if have == 0 {
                Sought::Nothing
            } else {
                Sought::Ended(have)
            });
        }
    }
}

/// Whether a line ends within the room, of which `seen` bytes came and none ended it.
/// What is read here is not kept.
pub(crate) fn ends_within<S: Shelf>(shelf: &mut S, seen: usize, room: usize) -> Result<bool, Failed>
    requires fits { seen ≤ room }
    requires small { room < 2 ^ 32 }
    ensures exact { IfOk result (λ within. IfSome (S.left shelf.old) (λ more.
        within ≡ nat_le (seen + length (line_with_end more)) room)) }
    ensures taken { TakesAtMost (room + 1 - seen) (S.left shelf.old) (S.left shelf.new) }
    ensures cause { OnErr result (HasRisen (S.faults shelf.old) (S.faults shelf.new)) }
    ensures later { S.faults shelf.old ≤ S.faults shelf.new }
    ensures same_contents { S.contents shelf.new ≡ S.contents shelf.old }
    ensures steady_on { S.steady shelf.old → S.steady shelf.new }
    ensures succeeds { S.steady shelf.old → IsOk result }
{
    let mut piece = [0u8; READ_SIZE];
    let mut count = seen;
    while count <= room {
        let n = read_piece(shelf, &mut piece, room + 1 - count)?;
        if n == 0 {
            return Ok(true);
        }
        if let Some(k) = line_end(&piece[..n]) {
            return Ok(count + k <= room);
        }
        count += n;
    }
    Ok(false)
}

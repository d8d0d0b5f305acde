//! The order of work of a command that answers a file line by line. Neither the file nor the answer is held whole.
ghost use Rattle.std.specs.Prelude.{◌≡◌, ◌<◌, ◌≤◌, ◌+◌, ◌^◌, [], ℕ, List, Option, None, OnOk, OnErr, IfOk, IfErr, IsErrOf, IsTrue};
ghost use Rattle.std.specs.Io.KnownBytes.{Appends};
ghost use Rattle.base_io.specs.Outside.{HasRisen, Holds, AppendsPart};
ghost use Rattle.cmd_work.specs.Ends.{Answered, Stopped, IsCut, is_own};
ghost use Rattle.cmd_work.specs.Session.{IsAnswered, FileAnswers};
ghost use Rattle.cmd_work.specs.Walk.{IsTurn, MovesOn, AppendsFrom, rest_of, room_of};

use crate::session::Session;
use crate::status::{Status, Stop};
use crate::whole::put;
use base_io::{Lines, Piece, Shelf, Sink};
use std::alloc::Global;

/// The most bytes of a file that is answered line by line which count, line ends included.
pub const SCRIPT_LIMIT: usize = 16_777_216;

/// So many pending bytes are written before the next line, whether a read is due or not.
const FLUSH_SIZE: usize = 32_768;

/// Answers what comes next in the file.
pub(crate) fn turn<L: Session, S: Shelf>(
    session: &mut L,
    lines: &mut Lines,
    shelf: &mut S,
    number: u32,
    pending: &mut Vec<u8>,
) -> Result<Option<Status>, Stop>
    requires live { IsTrue lines.old.live }
    requires stands { L.stands session.old number }
    ensures stands { IfOk result (λ last. last ≡ None → L.stands session.new (number + 1)) }
    ensures exact { IfOk result (IsTurn (L.answers session.old) (L.answers session.new) number lines.old lines.new
        (S.left shelf.old) (S.left shelf.new) pending.old.items pending.new.items) }
    ensures not_write { ¬ IsErrOf result Stop.Write }
    ensures cause { IsErrOf result Stop.Read → HasRisen (S.faults shelf.old) (S.faults shelf.new) }
    ensures later { S.faults shelf.old ≤ S.faults shelf.new }
    ensures same_contents { S.contents shelf.new ≡ S.contents shelf.old }
    ensures steady_on { S.steady shelf.old → S.steady shelf.new }
    ensures succeeds { S.steady shelf.old → ¬ IsErrOf result Stop.Read }
{
    match lines.fill(shelf) {
        Ok(Piece::Line) => Ok(session.line(number, lines.line(), pending)?),
        Ok(piece) => Ok(Some(session.close(number, piece, pending)?)),
        Err(_) => Err(Stop::Read),
    }
}

/// Writes what is pending.
fn flush<K: Sink>(out: &mut K, pending: &mut Vec<u8>) -> Result<(), Stop>
    ensures ok { OnOk result (Appends (K.written out.old) (K.written out.new) pending.old.items) }
    ensures emptied { OnOk result (pending.new.items ≡ []) }
    ensures err { OnErr result (AppendsPart (K.written out.old) (K.written out.new) pending.old.items) }
    ensures only { IfErr result (λ stop. stop ≡ Stop.Write) }
    ensures cause { OnErr result (HasRisen (K.faults out.old) (K.faults out.new)) }
    ensures later { K.faults out.old ≤ K.faults out.new }
{
    put(out, pending.as_slice())?;
    pending.clear();
    Ok(())
}

/// Writes what is pending where it is much, or where a read is due before the next line.
#[tactic(auto, using(crate::proofs::WalkLemmas::moved_all, crate::proofs::WalkLemmas::moved_none))]
fn flush_due<K: Sink>(out: &mut K, lines: &Lines, pending: &mut Vec<u8>) -> Result<(), Stop>
    ensures ok { OnOk result (MovesOn (K.written out.old) (K.written out.new) pending.old.items pending.new.items) }
    ensures err { OnErr result (AppendsPart (K.written out.old) (K.written out.new) pending.old.items) }
    ensures only { IfErr result (λ stop. stop ≡ Stop.Write) }
    ensures cause { OnErr result (HasRisen (K.faults out.old) (K.faults out.new)) }
    ensures later { K.faults out.old ≤ K.faults out.new }
{
    if pending.len() >= FLUSH_SIZE || !lines.is_ready() {
        return flush(out, pending);
    }
    Ok(())
}

/// Goes through the lines, and writes their answers.
fn walk<L: Session, S: Shelf, K: Sink>(
    alloc: Global,
    session: &mut L,
    lines: &mut Lines,
    shelf: &mut S,
    out: &mut K,
) -> Result<Status, Stop>
    requires live { IsTrue lines.old.live }
    requires fresh { lines.old.given ≡ 0 }
    requires small { lines.old.limit + 1 < 2 ^ 32 }
    requires some { IsAnswered (L.answers session.old) }
    requires stands { L.stands session.old 1 }
    ensures answered { IfOk result (Answered (rest_of lines.old (S.left shelf.old)) (K.written out.old) (K.written out.new)
        (L.answers session.old 1 (room_of lines.old))) }
    ensures stopped { IfErr result (Stopped (rest_of lines.old (S.left shelf.old)) (K.written out.old) (K.written out.new)
        (L.answers session.old 1 (room_of lines.old))) }
    ensures status { IfOk result (λ status. IsTrue (is_own status)) }
    ensures appended { IsErrOf result Stop.Read → AppendsFrom (K.written out.old) (K.written out.new) [] }
    ensures read_cause { IsErrOf result Stop.Read → HasRisen (S.faults shelf.old) (S.faults shelf.new) }
    ensures write_cause { IsErrOf result Stop.Write → HasRisen (K.faults out.old) (K.faults out.new) }
    ensures succeeds { S.steady shelf.old → ¬ IsErrOf result Stop.Read }
{
    let mut pending = Vec::new(alloc);
    let mut number = 1u32;
    'lines: loop {
        flush_due(out, lines, &mut pending)?;
        match turn(session, lines, shelf, number, &mut pending)? {
            Some(status) => {
                flush(out, &mut pending)?;
                return Ok(status);
            }
            None => number += 1,
        }
    }
}

/// Writes the text before the first line.
fn write_opening<L: Session, K: Sink>(alloc: Global, session: &L, out: &mut K) -> Result<(), Stop>
    ensures ok { OnOk result (Appends (K.written out.old) (K.written out.new) (L.opening session.now)) }
    ensures some { IfOk result (λ _. IsAnswered (L.answers session.now)) }
    ensures stopped { IfErr result (λ stop. (held : Option (List ℕ))
        → IsCut (FileAnswers (L.opening session.now) (L.answers session.now) held) (K.written out.old) (K.written out.new) stop) }
    ensures not_read { ¬ IsErrOf result Stop.Read }
    ensures cause { IsErrOf result Stop.Write → HasRisen (K.faults out.old) (K.faults out.new) }
    ensures later { K.faults out.old ≤ K.faults out.new }
{
    let mut text = Vec::new(alloc);
    session.open(&mut text)?;
    put(out, text.as_slice())
}

/// Writes the text before the first line, and then begins the file and answers its lines, each before
/// a further read that a later line needs.
pub fn answer_lines<L: Session, S: Shelf, K: Sink>(
    session: &mut L,
    alloc: Global,
    name: &str,
    shelf: &mut S,
    out: &mut K,
) -> Result<Status, Stop>
    requires { L.stands session.old 1 }
    ensures answered { IfOk result (Answered (S.contents shelf.old) (K.written out.old) (K.written out.new)
        (λ files. FileAnswers (L.opening session.old) (L.answers session.old) (files name.now))) }
    ensures stopped { IfErr result (Stopped (S.contents shelf.old) (K.written out.old) (K.written out.new)
        (λ files. FileAnswers (L.opening session.old) (L.answers session.old) (files name.now))) }
    ensures status { IfOk result (λ status. IsTrue (is_own status)) }
    ensures opened { IsErrOf result Stop.Read → AppendsFrom (K.written out.old) (K.written out.new) (L.opening session.old) }
    ensures read_cause { IsErrOf result Stop.Read → HasRisen (S.faults shelf.old) (S.faults shelf.new) }
    ensures write_cause { IsErrOf result Stop.Write → HasRisen (K.faults out.old) (K.faults out.new) }
    ensures succeeds { S.steady shelf.old → Holds (S.contents shelf.old) name.now → ¬ IsErrOf result Stop.Read }
{
    write_opening(alloc, session, out)?;
    if shelf.begin(name).is_err() {
        return Err(Stop::Read);
    }
    let mut lines = Lines::new(alloc, SCRIPT_LIMIT)?;
    walk(alloc, session, &mut lines, shelf, out)
}

/// A second file that is gone through line by line has at most 16,777,216 bytes.
pub fn limit_of_scripts()
    ensures { SCRIPT_LIMIT ≡ 16777216 }
{}

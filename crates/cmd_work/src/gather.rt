//! A file that is gone through line by line, and answered by one text.
ghost use Rattle.std.specs.Prelude.{◌≡◌, ◌<◌, ◌+◌, ◌^◌, ◌++◌, IfOk, OnOk, IfSome, IsErrOf, IsTrue};
ghost use Rattle.base_io.specs.Outside.{HasRisen, Holds};
ghost use Rattle.cmd_work.specs.Ends.{is_own};
ghost use Rattle.cmd_work.specs.Session.{FileAnswers};
ghost use Rattle.cmd_work.specs.Walk.{rest_of, room_of};

use crate::session::Session;
use crate::status::{Status, Stop};
use crate::walk::{SCRIPT_LIMIT, turn};
use base::NoMemory;
use base_io::{Lines, Shelf};
use std::alloc::Global;

/// Goes through the lines, and gathers their answers.
fn gather<L: Session, S: Shelf>(
    alloc: Global,
    session: &mut L,
    lines: &mut Lines,
    shelf: &mut S,
) -> Result<(Vec<u8>, Status), Stop>
    requires live { IsTrue lines.old.live }
    requires fresh { lines.old.given ≡ 0 }
    requires small { lines.old.limit + 1 < 2 ^ 32 }
    requires stands { L.stands session.old 1 }
    ensures answered { IfOk result (λ r. IfSome (rest_of lines.old (S.left shelf.old))
        (λ rest. L.answers session.old 1 (room_of lines.old) rest r.0.items r.1)) }
    ensures status { IfOk result (λ r. IsTrue (is_own r.1)) }
    ensures not_write { ¬ IsErrOf result Stop.Write }
    ensures cause { IsErrOf result Stop.Read → HasRisen (S.faults shelf.old) (S.faults shelf.new) }
    ensures succeeds { S.steady shelf.old → ¬ IsErrOf result Stop.Read }
{
    let mut text = Vec::new(alloc);
    let mut number = 1u32;
    'lines: loop {
        match turn(session, lines, shelf, number, &mut text)? {
            Some(status) => return Ok((text, status)),
            None => number += 1,
        }
    }
}

fn append(text: &mut Vec<u8>, more: &[u8]) -> Result<(), NoMemory>
    ensures { OnOk result (text.new.items ≡ text.old.items ++ more.now) }
{
    text.extend_from_slice(more)?;
    Ok(())
}

/// Begins the file and goes through its lines. The text before the first line and the answers to all
/// lines are held whole; the file is not.
pub fn gather_lines<L: Session, S: Shelf>(
    session: &mut L,
    alloc: Global,
    name: &str,
    shelf: &mut S,
) -> Result<(Vec<u8>, Status), Stop>
    requires { L.stands session.old 1 }
    ensures answered { IfOk result (λ r. IfSome (S.contents shelf.old)
        (λ files. FileAnswers (L.opening session.old) (L.answers session.old) (files name.now) r.0.items r.1)) }
    ensures status { IfOk result (λ r. IsTrue (is_own r.1)) }
    ensures not_write { ¬ IsErrOf result Stop.Write }
    ensures cause { IsErrOf result Stop.Read → HasRisen (S.faults shelf.old) (S.faults shelf.new) }
    ensures succeeds { S.steady shelf.old → Holds (S.contents shelf.old) name.now → ¬ IsErrOf result Stop.Read }
{
    let mut text = Vec::new(alloc);
    session.open(&mut text)?;
    if shelf.begin(name).is_err() {
        return Err(Stop::Read);
    }
    let mut lines = Lines::new(alloc, SCRIPT_LIMIT)?;
    let (answers, status) = gather(alloc, session, &mut lines, shelf)?;
    append(&mut text, answers.as_slice())?;
    Ok((text, status))
}

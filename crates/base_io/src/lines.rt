//! The lines of a file, one at a time, without holding the file.
ghost use Rattle.std.specs.Prelude.{◌≡◌, ◌≢◌, ◌<◌, ◌≤◌, ◌+◌, ◌-◌, ◌^◌, ◌++◌, [], true, None, Some, length, IfOk, IfSome, IsSome, OnErr, IsOk, IsTrue};
ghost use Rattle.base_io.specs.Outside.{HasRisen, TakesAtMost};
ghost use Rattle.std.specs.List.{list_any};
ghost use Rattle.base_io.specs.Line.{next_piece, is_line_feed, HandsOut, IsAtEnd};

use crate::first_line::{
    LINE_ROOM, Sought, ends_within, forget, has_line_end, len_without_end, seek,
};
use crate::{Failed, Shelf};
use base::{LINE_LIMIT, NoMemory};
use std::alloc::Global;
use std::marker::Model;

/// What comes next in a file that is read by lines.
#[derive(Clone, Copy, Debug, PartialEq, Eq)]
pub enum Piece {
    /// A line of at most 4,096 bytes without its end, which is held now.
    Line,
    /// A line of more bytes.
    Long,
    /// A line that does not lie within the limit.
    Past,
    /// Nothing: the file is at its end.
    End,
}

/// The lines of a file of which at most `limit` bytes are handed out, line ends included.
/// A line ends with a line feed or with the file. A carriage return directly before either belongs to the end.
#[derive(Drop)]
pub struct Lines {
    buf: Vec<u8>,
    // How many bytes at the front of the buffer were handed out.
    handed: usize,
    // How many of these are the line that is held, without its end.
    line: Option<usize>,
    given: usize,
    limit: usize,
    live: bool,
}

impl Model for Lines {
    ghost use Rattle.std.specs.Prelude.{drop, take};
    ghost use Rattle.std.specs.Option.{option_map};
    ghost use Rattle.base_io.specs.Line.{LinesState};

    ghost Value = { LinesState };

    ghost use Rattle.base_io.specs.Lines.{AreKept};

    ghost view = { λ a. record {
      ahead = drop a.handed a.buf.items;
      given = a.given;
      limit = a.limit;
      line = option_map (λ n. take n a.buf.items) a.line;
      live = a.live;
    } };

    ghost invariant = { AreKept };
}

impl Lines {
    /// The lines of a file from its start. This takes all the memory that they need.
    pub fn new(alloc: Global, limit: usize) -> Result<Lines, NoMemory>
        requires { limit < 2 ^ 32 }
        ensures { IfOk result (λ lines. lines ≡ record {
          ahead = [];
          given = 0;
          limit = limit;
          line = None;
          live = true;
        }) }
    {
        let buf = Vec::with_capacity(alloc, LINE_ROOM)?;
        Ok(Lines {
            buf,
            handed: 0,
            line: None,
            given: 0,
            limit,
            live: true,
        })
    }

    /// The line that is held, without its end.
    pub fn line(&self) -> &[u8]
        requires { IsSome self.now.line }
        ensures { self.now.line ≡ Some result.now }
    {
        let len = self.line.unwrap();
        &self.buf[..len]
    }

    /// Whether the end of the next line is here, so that no read is due before that line.
    pub fn is_ready(&self) -> bool
        ensures { result ≡ list_any is_line_feed self.now.ahead }
    {
        has_line_end(&self.buf[self.handed..])
    }

    /// Hands out the next line, if it can. After any other answer it is done with.
    /// The rest of the file is what is ahead, and then what is left on the shelf.
    pub fn fill<S: Shelf>(&mut self, shelf: &mut S) -> Result<Piece, Failed>
        requires { IsTrue self.old.live }
        ensures exact { IfOk result (λ piece. IfSome (S.left shelf.old) (λ more.
            piece ≡ next_piece (self.old.limit - self.old.given) (self.old.ahead ++ more))) }
        ensures line { IfOk result (λ piece. piece ≡ Piece.Line
            → HandsOut self.old self.new (S.left shelf.old) (S.left shelf.new)) }
        ensures over { IfOk result (λ piece. piece ≢ Piece.Line → IsAtEnd self.old self.new) }
        ensures failed { OnErr result (IsAtEnd self.old self.new) }
        ensures given { self.new.given ≤ self.new.limit }
        ensures ahead { self.new.given + length self.new.ahead ≤ self.new.limit + 1 }
        ensures taken { TakesAtMost (self.old.limit + 1 - (self.old.given + length self.old.ahead))
            (S.left shelf.old) (S.left shelf.new) }
        ensures cause { OnErr result (HasRisen (S.faults shelf.old) (S.faults shelf.new)) }
        ensures later { S.faults shelf.old ≤ S.faults shelf.new }
        ensures same_contents { S.contents shelf.new ≡ S.contents shelf.old }
        ensures steady_on { S.steady shelf.old → S.steady shelf.new }
        ensures succeeds { S.steady shelf.old → IsOk result }
    {
        let room = self.limit - self.given;
        forget(&mut self.buf, self.handed);
        self.handed = 0;
        self.line = None;
        self.live = false;
        match seek(&mut self.buf, shelf, room)? {
            Sought::Ended(n) => {
                let len = len_without_end(&self.buf[..n]);
                if len > LINE_LIMIT {
                    return Ok(Piece::Long);
                }
                self.handed = n;
                self.line = Some(len);
                self.given += n;
                self.live = true;
                Ok(Piece::Line)
            }
            Sought::TooFar => Ok(Piece::Past),
            Sought::Unended => {
                if ends_within(shelf, self.buf.len(), room)? {
                    Ok(Piece::Long)
                } else {
                    Ok(Piece::Past)
                }
            }
            Sought::Nothing => Ok(Piece::End),
        }
    }
}

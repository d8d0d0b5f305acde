//! A command between two lines of a file that it answers line by line.
ghost use Rattle.std.specs.Prelude.{◌≡◌, ◌≢◌, ◌+◌, ◌++◌, List, ℕ, None, OnOk, IfOk};
ghost use Rattle.cmd_work.specs.Session.{Answering, IsAnswered, AnswersLine, IsClosed};

use crate::status::Status;
use base::NoMemory;
use base_io::Piece;

/// A command between two lines of a file that it answers line by line. A text that it appends is the
/// whole answer to a line; after `NoMemory` what it appended counts for nothing.
pub trait Session {
    /// The bytes and the status that answer the rest of the file from here.
    ghost answers: { Self → Answering };

    /// It can stand before the line with this number.
    ghost stands: { Self → ℕ → Type 0 };

    /// The text before the first line.
    ghost opening: { Self → List ℕ };

    /// Appends the text before the first line. Each rest of a file has an answer.
    fn open(&self, out: &mut Vec<u8>) -> Result<(), NoMemory>
        ensures exact { OnOk result (out.new.items ≡ out.old.items ++ opening self.now) }
        ensures some_answer { IsAnswered (answers self.now) };

    /// Appends the answer to a line of at most 4,096 bytes, which is given without its end and has this
    /// number from 1 on. `None`: it goes on. A status: this was the last line that is answered.
    fn line(
        &mut self,
        number: u32,
        line: &[u8],
        out: &mut Vec<u8>,
    ) -> Result<Option<Status>, NoMemory>
        requires { stands self.old number }
        ensures stands { IfOk result (λ last. last ≡ None → stands self.new (number + 1)) }
        ensures exact { IfOk result (AnswersLine (answers self.old) (answers self.new) number line.now out.old.items out.new.items) };

    /// Appends the answer to what is no line that can be taken: the end of the file, a line past its
    /// limit, or one that is too long.
    fn close(&self, number: u32, piece: Piece, out: &mut Vec<u8>) -> Result<Status, NoMemory>
        requires { piece ≢ Piece.Line }
        ensures exact { IfOk result (IsClosed (answers self.now) number piece out.old.items out.new.items) };
}

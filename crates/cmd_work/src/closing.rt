//! How a command ends where its script has no further line that can be taken.
ghost use Rattle.std.specs.Prelude.{◌≡◌, ◌++◌, IfOk, OnErr, OnOk};
ghost use Rattle.cmd_work.specs.Closing.{closing_text, closing_status};

use crate::status::Status;
use base::NoMemory;
use base_io::Piece;
use base_script::{ScriptKind, push_script_fault};

/// Appends the answer to the end of a script, which is nothing; to a line past the limit on scripts; or to a line that
/// is too long. After a fault `out` is unchanged.
pub fn push_closing(out: &mut Vec<u8>, number: u32, piece: Piece) -> Result<Status, NoMemory>
    ensures text { OnOk result (out.new.items ≡ out.old.items ++ closing_text number piece) }
    ensures status { IfOk result (λ status. status ≡ closing_status piece) }
    ensures kept { OnErr result (out.new.items ≡ out.old.items) }
{
    match piece {
        Piece::End | Piece::Line => Ok(Status::Done),
        Piece::Past => {
            push_script_fault(out, number, ScriptKind::Limit)?;
            Ok(Status::ScriptRefused)
        }
        Piece::Long => {
            push_script_fault(out, number, ScriptKind::Syntax)?;
            Ok(Status::ScriptRefused)
        }
    }
}

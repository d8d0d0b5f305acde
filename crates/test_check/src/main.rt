//! Runs `check`, or another command, on texts that the standard input tells by how they differ from others, and prints
//! each answer.
//!
//! A block begins with `text NAME` or `case NAME TITLE` and stops at `end`. The lines of a `text` are a text of that
//! name. Each line of a `case` changes a copy of one: `6 LINE` puts a line in the place of line 6, `+6 LINE` puts one
//! in front of it, and `-6` takes line 6 away. There `[4:ab#]` stands for `ab1ab2ab3ab4`, `~` for the end of a line, and
//! `^` for a carriage return. The line `words A 4` of a `case` adds these words to those of the command, and the line `command
//! format` stands for `format` in place of `check`. Each line `script LINE` adds a line to a second file, which the words then
//! name.
#![tactic(auto)]

mod case;
mod script;

use script::Script;
use std::io;

fn main(rt: HostRuntime) -> io::Result<()> {
    let mut script = Script::new(rt.alloc());
    for line in rt.lines(rt.alloc()) {
        if let Some(answer) = script.take(rt.alloc(), line?.as_str())? {
            print!(rt; "{answer}")?;
        }
    }
    Ok(())
}

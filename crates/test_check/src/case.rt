//! A text that is changed line by line, and what a command answers on it.

use base_io::{MemoryFile, MemoryShelf, MemorySink};
use cli::run;
use std::alloc::{AllocError, Global};

/// How many bytes an answer has at the most.
const ROOM: usize = 4096;

/// The text in which `[4:ab#]` stands for `ab1ab2ab3ab4`, `~` for the end of a line, and `^` for a
/// carriage return.
fn expanded(alloc: Global, line: &str) -> Result<String, AllocError> {
    let mut out = String::new(alloc);
    for part in line.split('[') {
        match part.split_once(']') {
            Some((repeated, rest)) => {
                push_repeated(alloc, &mut out, repeated)?;
                out.push_str(rest)?;
            }
            None => out.push_str(part)?,
        }
    }
    let ended = out.replace(alloc, "~", "\n")?;
    ended.replace(alloc, "^", "\r")
}

/// Appends what `4:ab#` stands for.
fn push_repeated(alloc: Global, out: &mut String, repeated: &str) -> Result<(), AllocError> {
    let Some((count, part)) = repeated.split_once(':') else {
        return Ok(());
    };
    for i in 0..count.parse().unwrap_or(0_u32) {
        let number = format!(in alloc; "{}", i + 1)?;
        out.push_str(part.replace(alloc, "#", number.as_str())?.as_str())?;
    }
    Ok(())
}

/// The place of the line with this number, from 1.
fn place_of(number: &str) -> usize {
    number.parse().unwrap_or(1_usize).saturating_sub(1)
}

/// Changes the lines of a text.
pub fn change(alloc: Global, lines: &mut Vec<String>, how: &str) -> Result<(), AllocError> {
    let (place, line) = how.split_once(' ').unwrap_or((how, ""));
    let line = expanded(alloc, line)?;
    if let Some(number) = place.strip_prefix('-') {
        let at = place_of(number);
        if at < lines.len() {
            lines.remove(at);
        }
    } else if let Some(number) = place.strip_prefix('+') {
        let at = place_of(number).min(lines.len());
        lines.insert(at, line)?;
    } else if let Some(old) = lines.get_mut(place_of(place)) {
        *old = line;
    }
    Ok(())
}

/// The bytes of a text of these lines.
fn bytes_of(alloc: Global, lines: &[String]) -> Result<Vec<u8>, AllocError> {
    let mut bytes = Vec::new(alloc);
    for line in lines {
        bytes.extend_from_slice(line.as_bytes())?;
        bytes.push(b'\n')?;
    }
    Ok(bytes)
}

/// A command, and the words behind the name of its file: the name of a second file whose lines are
/// `script`, where it has any, and then `words`.
#[derive(Drop)]
pub struct Command {
    pub name: String,
    pub script: Vec<String>,
    pub words: Vec<String>,
}

/// The words of a command.
fn words_of(alloc: Global, command: &Command) -> Result<Vec<String>, AllocError> {
    let mut words = vec![in alloc; command.name.clone()?, "f".to_string(alloc)?]?;
    if !command.script.is_empty() {
        words.push("s".to_string(alloc)?)?;
    }
    for word in command.words.as_slice() {
        words.push(word.clone()?)?;
    }
    Ok(words)
}

/// A file of these lines.
fn file_of(alloc: Global, name: &str, lines: &[String]) -> Result<MemoryFile, AllocError> {
    let name = name.to_string(alloc)?;
    let bytes = bytes_of(alloc, lines)?;
    Ok(MemoryFile { name, bytes })
}

/// What the command writes on a text of these lines, and then its status.
pub fn answer(alloc: Global, command: &Command, lines: &[String]) -> Result<String, AllocError> {
    let first = file_of(alloc, "f", lines)?;
    let second = file_of(alloc, "s", command.script.as_slice())?;
    let files = vec![in alloc; first, second]?;
    let mut shelf = MemoryShelf::new(files, ROOM, Vec::new(alloc));
    let Ok(mut sink) = MemorySink::new(alloc, ROOM, ROOM, Vec::new(alloc)) else {
        return Err(AllocError);
    };
    let words = words_of(alloc, command)?;
    let status = run(alloc, words.as_slice(), &mut shelf, &mut sink);
    let written = String::from_utf8_lossy(alloc, sink.bytes())?;
    format!(in alloc; "{written}status {}\n", status.number())
}

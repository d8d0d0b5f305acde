//! The blocks of the standard input.

use crate::case::{Command, answer, change};
use std::alloc::{AllocError, Global};

/// A text that cases begin with.
#[derive(Drop)]
struct Base {
    name: String,
    lines: Vec<String>,
}

/// Which block the present line stands in.
#[derive(Clone, Copy)]
enum Block {
    Outside,
    Text,
    Case,
}

/// The texts so far, and the title, the command and the lines of the present case.
#[derive(Drop)]
pub struct Script {
    bases: Vec<Base>,
    block: Block,
    title: String,
    command: Command,
    lines: Vec<String>,
}

impl Script {
    pub fn new(alloc: Global) -> Script {
        Script {
            bases: Vec::new(alloc),
            block: Block::Outside,
            title: String::new(alloc),
            command: Command {
                name: String::new(alloc),
                script: Vec::new(alloc),
                words: Vec::new(alloc),
            },
            lines: Vec::new(alloc),
        }
    }

    /// Takes a line. Where it ends a case, this is the answer.
    pub fn take(&mut self, alloc: Global, line: &str) -> Result<Option<String>, AllocError> {
        match self.block {
            Block::Outside => self.begin(alloc, line)?,
            Block::Text if line != "end" => self.add(alloc, line)?,
            Block::Case if line != "end" => self.differ(alloc, line)?,
            Block::Text => self.block = Block::Outside,
            Block::Case => {
                self.block = Block::Outside;
                return Ok(Some(self.answer(alloc)?));
            }
        }
        Ok(None)
    }

    fn begin(&mut self, alloc: Global, line: &str) -> Result<(), AllocError> {
        if let Some(name) = line.strip_prefix("text ") {
            self.bases.push(Base {
                name: name.to_string(alloc)?,
                lines: Vec::new(alloc),
            })?;
            self.block = Block::Text;
        } else if let Some(rest) = line.strip_prefix("case ") {
            let (name, title) = rest.split_once(' ').unwrap_or((rest, ""));
            self.title = title.to_string(alloc)?;
            self.command = Command {
                name: "check".to_string(alloc)?,
                script: Vec::new(alloc),
                words: Vec::new(alloc),
            };
            self.lines = self.copy_of(alloc, name)?;
            self.block = Block::Case;
        }
        Ok(())
    }

    /// The lines of the text of that name.
    fn copy_of(&self, alloc: Global, name: &str) -> Result<Vec<String>, AllocError> {
        let mut lines = Vec::new(alloc);
        for base in self.bases.as_slice() {
            if base.name.as_str() == name {
                for line in base.lines.as_slice() {
                    lines.push(line.as_str().to_string(alloc)?)?;
                }
            }
        }
        Ok(lines)
    }

    fn add(&mut self, alloc: Global, line: &str) -> Result<(), AllocError> {
        if let Some(base) = self.bases.last_mut() {
            base.lines.push(line.to_string(alloc)?)?;
        }
        Ok(())
    }

    /// Takes a line of a case: its command, its last words, a line of a second file, or a change of its text.
    fn differ(&mut self, alloc: Global, line: &str) -> Result<(), AllocError> {
        if let Some(word) = line.strip_prefix("command ") {
            self.command.name = word.to_string(alloc)?;
        } else if let Some(words) = line.strip_prefix("words ") {
            for word in words.split(' ') {
                self.command.words.push(word.to_string(alloc)?)?;
            }
        } else if let Some(script) = line.strip_prefix("script ") {
            self.command.script.push(script.to_string(alloc)?)?;
        } else {
            change(alloc, &mut self.lines, line)?;
        }
        Ok(())
    }

    fn answer(&self, alloc: Global) -> Result<String, AllocError> {
        let answer = answer(alloc, &self.command, self.lines.as_slice())?;
        format!(in alloc; "{}\n{answer}\n", self.title)
    }
}

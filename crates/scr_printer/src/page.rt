//! A line that is being written.
ghost use Rattle.std.specs.Prelude.{◌≡◌, ◌++◌, pos, IfOk, OnOk};
ghost use Rattle.scr_tokens.specs.declared.word.Word.TheVariants as w;
ghost use Rattle.scr_printer.specs.Spelling.{gap};
ghost use Rattle.scr_printer.specs.Pages as spec;

use crate::line::{Behind, keyword_text, sign_text};
use base::{NoMemory, push_number};
use itoa::Buffer;
use scr_tokens::{Keyword, Sign};
use std::alloc::Global;
use std::marker::Model;

/// The text of a line so far, and what its next word has before it.
#[derive(Drop)]
pub(crate) struct Line {
    text: Vec<u8>,
    behind: Behind,
}

impl Model for Line {
    ghost use Rattle.scr_printer.specs.Pages.{Page, page_of};

    ghost Value = { Page };

    ghost view = { λ p. page_of p.text.items p.behind };
}

impl Line {
    /// Before the first word.
    pub(crate) fn new(alloc: Global) -> Line
        ensures { result ≡ spec.blank }
    {
        Line {
            text: Vec::new(alloc),
            behind: Behind::Opening,
        }
    }

    /// The text so far.
    pub(crate) fn as_slice(&self) -> &[u8]
        ensures { result.now ≡ self.now.text }
    {
        self.text.as_slice()
    }

    fn put_gap(&mut self, joined: bool) -> Result<(), NoMemory>
        ensures { OnOk result (self.new ≡ spec.page_of (self.old.text ++ gap joined) self.old.behind) }
    {
        if !joined {
            self.text.push(b' ')?;
        }
        Ok(())
    }

    fn put_bytes(&mut self, joined: bool, bytes: &[u8], behind: Behind) -> Result<(), NoMemory>
        ensures { OnOk result (self.new ≡ spec.page_of (self.old.text ++ (gap joined ++ bytes.now)) behind) }
    {
        self.put_gap(joined)?;
        self.text.extend_from_slice(bytes)?;
        self.behind = behind;
        Ok(())
    }

    /// Writes a name.
    pub(crate) fn put_name(&mut self, name: &[u8]) -> Result<(), NoMemory>
        ensures { OnOk result (self.new ≡ spec.put self.old (w.Name name.now)) }
    {
        self.put_bytes(self.behind.joins_word(), name, Behind::Operand)
    }

    /// Writes a primed name.
    pub(crate) fn put_primed(&mut self, name: &[u8]) -> Result<(), NoMemory>
        ensures { OnOk result (self.new ≡ spec.put self.old (w.Primed name.now)) }
    {
        self.put_bytes(self.behind.joins_word(), name, Behind::Operand)?;
        self.text.push(b'\'')?;
        Ok(())
    }

    /// Writes a number.
    pub(crate) fn put_number(&mut self, n: i64) -> Result<(), NoMemory>
        ensures { OnOk result (self.new ≡ spec.put self.old (w.Number n)) }
    {
        self.put_gap(self.behind.joins_word())?;
        push_number(&mut self.text, n)?;
        self.behind = Behind::Operand;
        Ok(())
    }

    /// Writes a number that is not negative.
    pub(crate) fn put_natural(&mut self, n: u64) -> Result<(), NoMemory>
        ensures { OnOk result (self.new ≡ spec.put self.old (w.Number (pos n))) }
    {
        let mut digits = Buffer::new();
        self.put_bytes(
            self.behind.joins_word(),
            digits.format(n).as_bytes(),
            Behind::Operand,
        )
    }

    /// Writes a reserved word.
    pub(crate) fn put_keyword(&mut self, keyword: Keyword) -> Result<(), NoMemory>
        ensures { OnOk result (self.new ≡ spec.put self.old (w.Reserved keyword)) }
    {
        let behind = Behind::past_keyword(keyword);
        self.put_bytes(self.behind.joins_word(), keyword_text(keyword), behind)
    }

    /// Writes a sign.
    pub(crate) fn put_sign(&mut self, sign: Sign) -> Result<(), NoMemory>
        ensures { OnOk result (self.new ≡ spec.put self.old (w.Sign sign)) }
    {
        let behind = self.behind.past_sign(sign);
        self.put_bytes(self.behind.joins_sign(sign), sign_text(sign), behind)
    }
}

//! What `format` answers for a file.
use base::NoMemory;
use base_io::{Shelf, Sink};
use cmd_checked::{Spelling, spell_file};
use cmd_work::{Command, Loaded, OneFile, Status, Stop, only_word, perform_one};
use scr_parse::TEXT_LIMIT;
use scr_roundtrip::canonical_text;
use std::alloc::Global;

/// The command `format`.
#[derive(Drop)]
pub struct Format;

impl OneFile for Format {
    ghost use Rattle.cmd_format.specs.Formats.{Formats};
    ghost use Rattle.scr_parse.specs.declared.text.TheConstants.{TEXT_LIMIT};

    ghost answers = { λ _. Formats };

    ghost most_bytes = { λ _. TEXT_LIMIT };

    fn most_bytes(&self) -> usize {
        TEXT_LIMIT
    }

    fn answer(&self, alloc: Global, file: Loaded) -> Result<(Vec<u8>, Status), NoMemory> {
        match spell_file(alloc, &file)? {
            Spelling::Right(spec) => Ok((canonical_text(alloc, &spec)?, Status::Done)),
            Spelling::Refused(line) => Ok((line, Status::SpecRefused)),
        }
    }
}

impl Command for Format {
    ghost use Rattle.cmd_format.specs.Offered.{asked_of};

    ghost takes = { asked_of };

    fn perform<S: Shelf, K: Sink>(
        alloc: Global,
        words: &[String],
        shelf: &mut S,
        out: &mut K,
    ) -> Option<Result<Status, Stop>> {
        let name = only_word("format", words)?;
        Some(perform_one(&Format, alloc, name, shelf, out))
    }

    fn is_right() {}
}

//! What `check` answers for a file.
ghost use Rattle.std.specs.Prelude.{◌≤◌};
ghost use Rattle.dd_store.specs.declared.store.TheConstants.{SPLIT_LIMIT};

use base::NoMemory;
use base_io::{Shelf, Sink};
use cmd_checked::{Checking, check_file, one_checked, passed_report};
use cmd_work::{Command, Loaded, OneFile, Status, Stop, perform_one};
use scr_parse::TEXT_LIMIT;
use std::alloc::Global;

/// The command `check`, with the limit on the distinct splits of each table.
#[derive(Drop)]
pub struct Check {
    pub limit: u32,
    pub ghost limited: { limit ≤ SPLIT_LIMIT },
}

impl OneFile for Check {
    ghost use Rattle.cmd_check.specs.Checks.{Checks};
    ghost use Rattle.scr_parse.specs.declared.text.TheConstants.{TEXT_LIMIT};

    ghost answers = { λ job. Checks job.limit };

    ghost most_bytes = { λ _. TEXT_LIMIT };

    fn most_bytes(&self) -> usize {
        TEXT_LIMIT
    }

    fn answer(&self, alloc: Global, file: Loaded) -> Result<(Vec<u8>, Status), NoMemory> {
        match check_file(alloc, &file, self.limit)? {
            Checking::Passed(checked) => Ok((passed_report(alloc, &checked)?, Status::Done)),
            Checking::Finished(report, status) => Ok((report, status)),
        }
    }
}

impl Command for Check {
    ghost use Rattle.cmd_check.specs.Offered.{asked_of};

    ghost takes = { asked_of };

    fn perform<S: Shelf, K: Sink>(
        alloc: Global,
        words: &[String],
        shelf: &mut S,
        out: &mut K,
    ) -> Option<Result<Status, Stop>> {
        let asked = one_checked("check", words)?;
        let command = Check { limit: asked.limit };
        Some(perform_one(&command, alloc, asked.name, shelf, out))
    }

    fn is_right() {}
}

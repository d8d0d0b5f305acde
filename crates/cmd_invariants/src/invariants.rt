//! What `invariants` answers for a file.
ghost use Rattle.std.specs.Prelude.{◌≤◌};
ghost use Rattle.dd_store.specs.declared.store.TheConstants.{SPLIT_LIMIT};

use crate::classes::derive_all;
use base::NoMemory;
use base_io::{Shelf, Sink};
use cmd_checked::{Checking, check_file, one_checked};
use cmd_work::{Command, Loaded, OneFile, Status, Stop, perform_one};
use scr_parse::TEXT_LIMIT;
use std::alloc::Global;

/// The command `invariants`, with the limit on the distinct splits of each table and of each test.
#[derive(Drop)]
pub struct Invariants {
    pub limit: u32,
    pub ghost limited: { limit ≤ SPLIT_LIMIT },
}

impl OneFile for Invariants {
    ghost use Rattle.cmd_invariants.specs.Derives.{DerivesFile};
    ghost use Rattle.scr_parse.specs.declared.text.TheConstants.{TEXT_LIMIT};

    ghost answers = { λ job. DerivesFile job.limit };

    ghost most_bytes = { λ _. TEXT_LIMIT };

    fn most_bytes(&self) -> usize {
        TEXT_LIMIT
    }

    fn answer(&self, alloc: Global, file: Loaded) -> Result<(Vec<u8>, Status), NoMemory> {
        match check_file(alloc, &file, self.limit)? {
            Checking::Passed(checked) => derive_all(alloc, &checked, self.limit),
            Checking::Finished(report, status) => Ok((report, status)),
        }
    }
}

impl Command for Invariants {
    ghost use Rattle.cmd_invariants.specs.Offered.{asked_of};

    ghost takes = { asked_of };

    fn perform<S: Shelf, K: Sink>(
        alloc: Global,
        words: &[String],
        shelf: &mut S,
        out: &mut K,
    ) -> Option<Result<Status, Stop>> {
        let asked = one_checked("invariants", words)?;
        let command = Invariants { limit: asked.limit };
        Some(perform_one(&command, alloc, asked.name, shelf, out))
    }

    fn is_right() {}
}

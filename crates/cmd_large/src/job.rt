//! What `large` answers.
ghost use Rattle.std.specs.Prelude.{◌≤◌};
ghost use Rattle.cmd_generate.specs.declared.chain.TheConstants.{LAST_LATCH};

use crate::summary::large;
use base::NoMemory;
use base_io::{Shelf, Sink};
use cmd_generate::last_latch;
use cmd_work::{Command, NoFile, Status, Stop, perform_none};
use std::alloc::Global;

/// The command `large`, with the number of the last latch.
#[derive(Drop)]
pub struct Large {
    pub last: u32,
    pub ghost limited: { last ≤ LAST_LATCH },
}

impl NoFile for Large {
    ghost use Rattle.cmd_large.specs.Summaries.{LargeAnswers};

    ghost answers = { λ job. LargeAnswers job.last };

    fn answer(&self, alloc: Global) -> Result<(Vec<u8>, Status), NoMemory> {
        large(alloc, self.last)
    }
}

impl Command for Large {
    ghost use Rattle.cmd_large.specs.Offered.{asked_of};

    ghost takes = { asked_of };

    fn perform<S: Shelf, K: Sink>(
        alloc: Global,
        words: &[String],
        shelf: &mut S,
        out: &mut K,
    ) -> Option<Result<Status, Stop>> {
        let last = last_latch("large", words)?;
        Some(perform_none(&Large { last }, alloc, shelf, out))
    }

    fn is_right() {}
}

//! What `generate` answers.
ghost use Rattle.std.specs.Prelude.{◌≤◌};
ghost use Rattle.cmd_generate.specs.declared.chain.TheConstants.{LAST_LATCH};

use crate::chain::generate_chain;
use crate::words::last_latch;
use base::NoMemory;
use base_io::{Shelf, Sink};
use cmd_work::{Command, NoFile, Status, Stop, perform_none};
use std::alloc::Global;

/// The command `generate`, with the number of the last latch.
#[derive(Drop)]
pub struct Generate {
    pub last: u32,
    pub ghost limited: { last ≤ LAST_LATCH },
}

impl NoFile for Generate {
    ghost use Rattle.cmd_generate.specs.Offered.{Generates};

    ghost answers = { λ job. Generates job.last };

    fn answer(&self, alloc: Global) -> Result<(Vec<u8>, Status), NoMemory> {
        Ok((generate_chain(alloc, self.last)?, Status::Done))
    }
}

impl Command for Generate {
    ghost use Rattle.cmd_generate.specs.Offered.{asked_of};

    ghost takes = { asked_of };

    fn perform<S: Shelf, K: Sink>(
        alloc: Global,
        words: &[String],
        shelf: &mut S,
        out: &mut K,
    ) -> Option<Result<Status, Stop>> {
        let last = last_latch("generate", words)?;
        Some(perform_none(&Generate { last }, alloc, shelf, out))
    }

    fn is_right() {}
}

//! The summary of a text.
ghost use Rattle.std.specs.Prelude.{◌≤◌, IfOk, IsTrue};
ghost use Rattle.cmd_generate.specs.declared.chain.TheConstants.{LAST_LATCH};
ghost use Rattle.cmd_work.specs.Ends.{is_own};
ghost use Rattle.cmd_large.specs.Summaries.{TextSummary, LargeAnswers};

use crate::spec::summarize_spec;
use base::NoMemory;
use cmd_checked::{Spelling, spell_text};
use cmd_generate::generate_chain;
use cmd_work::Status;
use std::alloc::Global;

/// The summary of a text.
fn summarize(alloc: Global, stages: u32, text: &[u8]) -> Result<(Vec<u8>, Status), NoMemory>
    ensures { IfOk result (λ r. TextSummary stages text.now r.0.items r.1) }
{
    match spell_text(alloc, text)? {
        Spelling::Right(spec) => summarize_spec(alloc, stages, spec),
        Spelling::Refused(line) => Ok((line, Status::SpecRefused)),
    }
}

/// The summary of the chain whose last latch has the number `n`, and how the command ends with it.
pub(crate) fn large(alloc: Global, n: u32) -> Result<(Vec<u8>, Status), NoMemory>
    requires { n ≤ LAST_LATCH }
    ensures exact { IfOk result (λ r. LargeAnswers n r.0.items r.1) }
    ensures status { IfOk result (λ r. IsTrue (is_own r.1)) }
{
    let text = generate_chain(alloc, n)?;
    summarize(alloc, n + 1, text.as_slice())
}

//! Candidates.
ghost use Rattle.std.specs.Prelude.{◌≡◌, IfOk};

use crate::copy::copy_condition;
use base::NoMemory;
use scr_spec::Cond;
use std::alloc::Global;

/// A condition that may be true whenever the class has the mode with this code.
#[derive(Drop)]
pub struct Candidate {
    pub mode: i64,
    pub cond: Cond,
}

impl Candidate {
    /// A copy of the candidate.
    pub fn copy(&self, alloc: Global) -> Result<Candidate, NoMemory>
        ensures { IfOk result (λ copy. copy ≡ self.now) }
    {
        Ok(Candidate {
            mode: self.mode,
            cond: copy_condition(alloc, &self.cond)?,
        })
    }
}

//! Calls that fail where they are told to.
ghost use Rattle.std.specs.Prelude.{◌≡◌, ◌<◌, ◌^◌, ◌↔◌, IsTrue, IsErr, IsOk, Contains, OnErr, OnOk};
ghost use Rattle.base_io.specs.Outside.{next_count};
ghost use Rattle.base_io.specs.Memory.{IsPast};

use crate::Failed;

/// The numbers of the calls that fail, and the counts of calls and of faults.
#[derive(Drop)]
pub(crate) struct FaultPlan {
    failing: Vec<u32>,
    calls: u64,
    faults: u64,
}

// Whether the call with this number is to fail.
fn is_failing(failing: &[u32], call: u64) -> bool
    ensures listed { IsTrue result ↔ Contains failing.now call }
    ensures small { IsTrue result → call < 2 ^ 32 }
{
    match u32::try_from(call) {
        Ok(number) => failing.contains(&number),
        Err(_) => false,
    }
}

impl FaultPlan {
    /// A plan before the first call, which has the number 1.
    pub(crate) fn new(failing: Vec<u32>) -> Self
        ensures failing { result.failing.items ≡ failing.items }
        ensures calls { result.calls ≡ 0 }
        ensures faults { result.faults ≡ 0 }
    {
        FaultPlan {
            failing,
            calls: 0,
            faults: 0,
        }
    }

    /// Counts a fault.
    pub(crate) fn fail(&mut self) -> Failed
        ensures { self.new ≡ record self.old { faults = next_count self.old.faults } }
    {
        self.faults = self.faults.saturating_add(1);
        Failed
    }

    /// Counts a call, and a fault where the call is to fail.
    pub(crate) fn call(&mut self) -> Result<(), Failed>
        ensures fails { IsErr result ↔ Contains self.old.failing.items (next_count self.old.calls) }
        ensures ok { OnOk result (self.new ≡ record self.old { calls = next_count self.old.calls }) }
        ensures err { OnErr result (self.new ≡ record self.old {
          calls = next_count self.old.calls;
          faults = next_count self.old.faults;
        }) }
        ensures past { IsPast self.old.calls self.old.failing.items
            → IsPast self.new.calls self.new.failing.items }
        ensures succeeds { IsPast self.old.calls self.old.failing.items → IsOk result }
    {
        self.calls = self.calls.saturating_add(1);
        if is_failing(&self.failing, self.calls) {
            return Err(self.fail());
        }
        Ok(())
    }
}

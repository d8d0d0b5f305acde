//! The verdict on an assertion.
ghost use Rattle.std.specs.Prelude.{◌≡◌};
ghost use Rattle.prove_asserts.specs.Settings.{is_open};

use prove_decide::Witness;

/// The assertion holds; it is false at first; the least codes of a change that may break it; or a
/// test's listing has more distinct splits than the limit.
#[derive(Drop)]
pub enum AssertVerdict {
    Yes,
    FalseInitial,
    Unproved(Witness),
    Undecided,
}

impl AssertVerdict {
    /// Whether no test so far has decided.
    pub(crate) fn is_open(&self) -> bool
        ensures { result ≡ is_open self.now }
    {
        match self {
            AssertVerdict::Yes => true,
            AssertVerdict::FalseInitial | AssertVerdict::Unproved(_) | AssertVerdict::Undecided => {
                false
            }
        }
    }
}

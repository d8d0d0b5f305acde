//! The codes that a level may have.
ghost use Rattle.std.specs.Prelude.{◌≡◌};
ghost use Rattle.dd_formula.specs.Domains as spec;

/// The codes from `lo` to `hi`.
#[derive(Clone, Copy, PartialEq, Eq)]
pub struct Domain {
    pub lo: i64,
    pub hi: i64,
}

impl Domain {
    /// Whether the code is from `lo` to `hi`.
    pub fn contains(&self, code: i64) -> bool
        ensures { result ≡ spec.is_within self.now code }
    {
        self.lo <= code && code <= self.hi
    }

    /// The greatest absolute value of `lo` and `hi`, and so of all codes between them.
    pub fn bound(&self) -> u64
        ensures { result ≡ spec.domain_bound self.now }
    {
        self.lo.unsigned_abs().max(self.hi.unsigned_abs())
    }
}

//! A shelf and a sink, as generic code sees them.
ghost use Rattle.std.specs.Prelude.{◌≡◌, ◌≤◌, ◌<◌, List, ℕ, Option, length, IsOk, OnOk, OnErr, IfOk};
ghost use Rattle.std.specs.Io.{ReadsAtMost};
ghost use Rattle.std.specs.Io.KnownBytes.{ReadConsumes, WriteAppends, IsAtEnd};
ghost use Rattle.base_io.specs.Outside.{HasRisen, Contents, Holds, Begins};

/// A call on an outside object failed.
#[derive(Clone, Copy, Debug, PartialEq, Eq)]
pub struct Failed;

/// Files by name, of which one is read at a time, from its start.
pub trait Shelf {
    /// What it holds by name, where it tells that. No call changes it.
    ghost contents: { Self → Contents };

    /// What is left of the file that was begun, where it tells that.
    ghost left: { Self → Option (List ℕ) };

    /// How often it has failed. An implementation keeps this in a `u64`, which stays at its last value.
    ghost faults: { Self → ℕ };

    /// No later `begin` of a name that it holds and no later `read` fails.
    ghost steady: { Self → Type 0 };

    /// Turns to the file of this name.
    fn begin(&mut self, name: &str) -> Result<(), Failed>
        ensures begun { OnOk result (Begins (contents self.old) name.now (left self.new)) }
        ensures nothing_left { OnErr result (IsAtEnd (left self.new)) }
        ensures cause { OnErr result (HasRisen (faults self.old) (faults self.new)) }
        ensures later { faults self.old ≤ faults self.new }
        ensures same_contents { contents self.new ≡ contents self.old }
        ensures steady_on { steady self.old → steady self.new }
        ensures succeeds { steady self.old → Holds (contents self.old) name.now → IsOk result };

    /// Moves bytes from the front of what is left to the front of the buffer.
    /// It moves none only where nothing is left or the buffer is empty.
    fn read(&mut self, buf: &mut [u8]) -> Result<usize, Failed>
        ensures bound { ReadsAtMost result buf.new }
        ensures bytes { ReadConsumes (left self.old) (left self.new) result buf.new }
        ensures cause { OnErr result (HasRisen (faults self.old) (faults self.new)) }
        ensures later { faults self.old ≤ faults self.new }
        ensures same_contents { contents self.new ≡ contents self.old }
        ensures steady_on { steady self.old → steady self.new }
        ensures succeeds { steady self.old → IsOk result };
}

/// A place for bytes.
pub trait Sink {
    /// The bytes written, where it tells them.
    ghost written: { Self → Option (List ℕ) };

    /// How often it has failed. An implementation keeps this in a `u64`, which stays at its last value.
    ghost faults: { Self → ℕ };

    /// Appends the first bytes of the piece, one or more. The answer is their number.
    fn write(&mut self, piece: &[u8]) -> Result<usize, Failed>
        requires { 0 < length piece.now }
        ensures some { IfOk result (λ n. 0 < n) }
        ensures bound { IfOk result (λ n. n ≤ length piece.now) }
        ensures bytes { WriteAppends (written self.old) (written self.new) result piece.now }
        ensures cause { OnErr result (HasRisen (faults self.old) (faults self.new)) }
        ensures later { faults self.old ≤ faults self.new };
}

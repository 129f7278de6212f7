ghost use Rattle.std.specs.Prelude.{◌≡◌, ◌≤◌, List, ℕ, Option, OnErr};
ghost use Rattle.std.specs.Io.{ReadsAtMost, WritesAtMost};
ghost use Rattle.std.specs.Io.KnownBytes.{ReadConsumes, WriteAppends};
ghost use Rattle.io_ends.specs.Causes.{HasRisen, TakesSome, given_by};

use thiserror::Error;

/// A fault of what lies outside the program.
#[derive(Clone, Copy, Debug, PartialEq, Eq, Error)]
#[error("the outside failed")]
pub struct Failed;

/// Where bytes come from.
pub trait Source {
    /// The bytes that are left, where the source tells them.
    ghost left: { Self → Option (List ℕ) };

    /// How many faults there were; the number never falls.
    ghost faults: { Self → ℕ };

    /// The number of faults that is counted last, where there is one.
    ghost last: { Option ℕ };

    /// How many bytes its last call gave.
    ghost gave: { Self → ℕ };

    /// Puts the next bytes in front of `into` and answers how many; 0 for a non-empty `into` is the
    /// end. A failed call takes no byte, and may be tried again.
    fn read(&mut self, into: &mut [u8]) -> Result<usize, Failed>
        ensures bound { ReadsAtMost result into.new }
        ensures bytes { ReadConsumes (left self.old) (left self.new) result into.new }
        ensures gave { gave self.new ≡ given_by result }
        ensures count { faults self.old ≤ faults self.new }
        ensures fault { OnErr result (HasRisen last (faults self.old) (faults self.new)) };
}

/// Where bytes go.
pub trait Sink {
    /// The bytes that were written, where the sink tells them.
    ghost written: { Self → Option (List ℕ) };

    /// How many faults there were; the number never falls.
    ghost faults: { Self → ℕ };

    /// The number of faults that is counted last, where there is one.
    ghost last: { Option ℕ };

    /// TakesSome the first bytes of a non-empty piece, at least one, and answers how many. A failed
    /// call takes none.
    fn write(&mut self, from: &[u8]) -> Result<usize, Failed>
        ensures bound { WritesAtMost result from.now }
        ensures some { TakesSome from.now result }
        ensures bytes { WriteAppends (written self.old) (written self.new) result from.now }
        ensures count { faults self.old ≤ faults self.new }
        ensures fault { OnErr result (HasRisen last (faults self.old) (faults self.new)) };
}

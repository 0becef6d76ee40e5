ghost use Rattle.std.specs.Prelude.{◌≡◌, ◌<◌, List, ℕ, Option, length, IfOk};
ghost use Rattle.std.specs.Io.{ReadsAtMost};
ghost use Rattle.std.specs.Io.KnownBytes.{ReadConsumes};
ghost use Rattle.tp_outside.specs.Causes.{HasCause, read_failed};

use thiserror::Error;

/// A read failed.
#[derive(Clone, Copy, Debug, PartialEq, Eq, Error)]
#[error("failed")]
pub struct Failed;

/// What bytes are read from.
pub trait Source {
    /// The bytes that are left to be read, where the source tells them.
    ghost left: { Self → Option (List ℕ) };

    /// The last read found the end of the input. It says nothing where an impl leaves it out. Over any source only a read shows it.
    ghost ended: { Self → Type 0 } = { λ _. Unit {0} };

    /// How often a read of it has failed. It never falls.
    ghost faults: { Self → ℕ };

    /// Reads into the front of the buffer, and answers how many bytes.
    /// No byte for a buffer that isn't empty is the end of the input.
    fn read(&mut self, buf: &mut [u8]) -> Result<usize, Failed>
        ensures bound { ReadsAtMost result buf.new }

        // The bytes are the first of those that are left, none only where none is left, and none is lost by a failure.
        ensures bytes { ReadConsumes (left self.old) (left self.new) result buf.new }
        ensures end { IfOk result (λ n. n ≡ 0 → 0 < length buf.new → ended self.new) }
        ensures cause { HasCause (faults self.old) (faults self.new) result read_failed };
}

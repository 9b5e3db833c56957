//! What gives bytes and what takes them.
ghost use Rattle.std.specs.Prelude.{◌≡◌, ℕ, ◌<◌, ◌≤◌, false, List, length, Option, None, IfOk};
ghost use Rattle.std.specs.Io.{ReadsAtMost};
ghost use Rattle.std.specs.Io.KnownBytes.{ReadConsumes, WriteAppends};
ghost use Rattle.pl_io.specs.Faults.{HasCause};

use crate::errors::Failed;

/// Gives bytes, in pieces of any size.
pub trait Source {
    // The bytes that reads will give from here on, where the source tells them.
    ghost left: { Self → Option (List ℕ) };

    // How many reads have failed.
    ghost faults: { Self → ℕ };

    /// Puts bytes at the front of the buffer and answers how many: 0 only at the end of the input.
    /// A failed read takes nothing from the source.
    fn read(&mut self, buf: &mut [u8]) -> Result<usize, Failed>
        requires { 0 < length buf.old }
        ensures bound { ReadsAtMost result buf.new }
        ensures bytes { ReadConsumes (left self.old) (left self.new) result buf.new }
        ensures cause { HasCause (faults self.old) (faults self.new) result };
}

/// Takes bytes, in pieces of any size.
pub trait Sink {
    // The bytes that the sink holds, where it tells them.
    ghost held: { Self → Option (List ℕ) };

    // How many writes have failed.
    ghost faults: { Self → ℕ };

    /// Whether what it takes goes anywhere. For a sink that loses all that it takes no text need be made.
    fn keeps(&self) -> bool
        ensures { result ≡ false → held self.now ≡ None }
    {
        true
    }

    /// Takes bytes from the front of the piece and answers how many, at least 1.
    /// A failed write takes none.
    fn write(&mut self, piece: &[u8]) -> Result<usize, Failed>
        requires { 0 < length piece.now }
        ensures bound { IfOk result (λ n. (0 < n) × (n ≤ length piece.now)) }
        ensures bytes { WriteAppends (held self.old) (held self.new) result piece.now }
        ensures untold { held self.old ≡ None → held self.new ≡ None }
        ensures cause { HasCause (faults self.old) (faults self.new) result };
}

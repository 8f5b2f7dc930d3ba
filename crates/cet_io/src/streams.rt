//! What bytes are read from and written to.

ghost use Rattle.std.specs.Prelude.{◌≡◌, ℕ, List, None, Option, length};
ghost use Rattle.cet_io.specs.Stream.{CountsFaults, HasCause, Reads, Steady, Tally, Writes, tallied};

use std::fmt;

/// A read or a write has failed.
#[derive(Clone, Copy, Debug, PartialEq, Eq)]
pub struct Failed;

impl fmt::Display for Failed {
    fn fmt<W: fmt::Write>(&self, f: &mut fmt::Formatter<W>) -> fmt::Result {
        write!(f, "a read or a write has failed")
    }
}

impl std::error::Error for Failed {}

/// What bytes are read from.
pub trait Source {
    /// The bytes left, where the source tells them.
    ghost left: { Self → Option (List ℕ) };

    /// How many faults there were, up to 2^64 - 1.
    ghost faults: { Self → ℕ };

    /// How many bytes its reads have given, and how many reads found the end, each up to 2^64 - 1, where
    /// the source counts them. Its faults are then the reads that failed.
    ghost tally: { Self → Option Tally } = { λ _. None };

    /// Reads into the front of the buffer, and answers the number of bytes. 0 for a buffer that isn't
    /// empty is the end of the input.
    fn read(&mut self, buf: &mut [u8]) -> Result<usize, Failed>
        ensures bytes { Reads (left self.old) (left self.new) buf.new result }
        ensures cause { HasCause (faults self.old) (faults self.new) result }
        ensures counts { tally self.new ≡ tallied (tally self.old) (length buf.new) result }
        ensures steady { CountsFaults (tally self.old) (faults self.old) (faults self.new) result };
}

/// What bytes are written to.
pub trait Sink {
    /// The bytes written, where the sink tells them.
    ghost written: { Self → Option (List ℕ) };

    /// How many faults there were, up to 2^64 - 1.
    ghost faults: { Self → ℕ };

    /// Writes the first bytes of the piece, and answers their number, which is at least 1 for a piece
    /// that isn't empty. Where it doesn't fail the count of faults stays as it was.
    fn write(&mut self, piece: &[u8]) -> Result<usize, Failed>
        ensures bytes { Writes (written self.old) (written self.new) piece.now result }
        ensures cause { HasCause (faults self.old) (faults self.new) result }
        ensures steady { Steady (faults self.old) (faults self.new) result };
}

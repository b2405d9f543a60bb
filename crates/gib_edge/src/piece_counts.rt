//! What a sink counts of the pieces that it is given.

ghost use Rattle.std.specs.Prelude.{◌≡◌, ◌≢◌};
ghost use Rattle.gib_edge.specs.Causes.{raised};

use crate::outside::PIECE_BYTES;

/// What a sink counts of the pieces that it is given. No count passes `u64::MAX`.
#[derive(Drop)]
pub struct PieceCounts {
    /// How many pieces there were.
    pub puts: u64,
    /// How many of them were of `PIECE_BYTES` bytes.
    pub whole: u64,
    /// The length of the last one in bytes, 0 before the first.
    pub last: usize,
}

impl PieceCounts {
    /// There was no piece yet.
    pub fn new() -> PieceCounts
        ensures puts { result.puts ≡ 0 }
        ensures whole { result.whole ≡ 0 }
        ensures last { result.last ≡ 0 }
    {
        PieceCounts {
            puts: 0,
            whole: 0,
            last: 0,
        }
    }

    /// Counts one more piece of so many bytes.
    pub fn add(&mut self, bytes: usize)
        ensures puts { self.new.puts ≡ raised self.old.puts 1 }
        ensures whole { bytes ≡ 4096 → self.new.whole ≡ raised self.old.whole 1 }
        ensures other { bytes ≢ 4096 → self.new.whole ≡ self.old.whole }
        ensures last { self.new.last ≡ bytes }
    {
        self.puts = self.puts.saturating_add(1);
        if bytes == PIECE_BYTES {
            self.whole = self.whole.saturating_add(1);
        }
        self.last = bytes;
    }
}

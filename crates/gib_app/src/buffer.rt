//! A sink that keeps what it takes.

ghost use Rattle.std.specs.Prelude.{◌≡◌, []};

use gib_edge::outside::{Failed, Sink};
use gib_edge::piece_counts::PieceCounts;
use std::alloc::Global;

/// A sink that keeps what it takes. Want of memory alone makes it fail.
#[derive(Drop)]
pub struct Buffer {
    bytes: Vec<u8>,
    pieces: PieceCounts,
    faults: u64,
}

impl Buffer {
    /// Nothing is taken yet.
    pub fn new(alloc: Global) -> Buffer
        ensures { result.bytes.items ≡ [] }
    {
        Buffer {
            bytes: Vec::new(alloc),
            pieces: PieceCounts::new(),
            faults: 0,
        }
    }

    /// All that was taken.
    pub fn into_bytes(self) -> Vec<u8>
        ensures { result.items ≡ self.bytes.items }
    {
        self.bytes
    }
}

impl Sink for Buffer {
    ghost use Rattle.gib_app.specs.Imaging.{buffered};

    ghost view = { buffered };

    fn put(&mut self, bytes: &[u8]) -> Result<(), Failed> {
        self.pieces.add(bytes.len());
        match self.bytes.extend_from_slice(bytes) {
            Ok(()) => Ok(()),
            Err(_) => {
                self.faults = self.faults.saturating_add(1);
                Err(Failed)
            }
        }
    }
}

//! The standard streams.

ghost use Rattle.std.specs.Prelude.{◌≡◌, ℕ, List, OnOk, OnErr, length};
ghost use Rattle.gib_edge.specs.Causes.{Appends, AppendsPart, HasCause, HasPut, raised};

use crate::outside::{Failed, Sink};
use crate::piece_counts::PieceCounts;
use crate::streams::write_whole;
use std::io::Write;

/// Standard output or standard error, which tell nothing of their bytes.
/// Over a writer that tells what it holds, the sink tells the same.
#[derive(Drop)]
pub struct StdSink<W: Write> {
    stream: W,
    faults: u64,
    pieces: PieceCounts,
}

impl<W: Write> StdSink<W> {
    /// A sink over `rt.stdout()` or `rt.stderr()`.
    pub fn new(stream: W) -> Self
        ensures taken { (⟦<StdSink<W> as Sink>⟧.view result).taken ≡ W.contents stream }
        ensures faults { (⟦<StdSink<W> as Sink>⟧.view result).faults ≡ 0 }
        ensures puts { (⟦<StdSink<W> as Sink>⟧.view result).puts ≡ 0 }
        ensures whole { (⟦<StdSink<W> as Sink>⟧.view result).whole ≡ 0 }
        ensures last { (⟦<StdSink<W> as Sink>⟧.view result).last ≡ 0 }
    {
        StdSink {
            stream,
            faults: 0,
            pieces: PieceCounts::new(),
        }
    }
}

impl<W: Write> Sink for StdSink<W> {
    ghost view = { λ sink. record { taken = W.contents sink.stream; faults = sink.faults; puts = sink.pieces.puts; whole = sink.pieces.whole; last = sink.pieces.last } };

    fn put(&mut self, bytes: &[u8]) -> Result<(), Failed>
        ensures ok { OnOk result (Appends (W.contents self.old.stream) (W.contents self.new.stream) bytes.now) }
        ensures part { OnErr result (AppendsPart (W.contents self.old.stream) (W.contents self.new.stream) bytes.now) }
        ensures cause { HasCause self.old.faults self.new.faults result }
        ensures called { HasPut (⟦<StdSink<W> as Sink>⟧.view self.old) (⟦<StdSink<W> as Sink>⟧.view self.new) (length bytes.now) }
        ensures counted { OnErr result (self.new.faults ≡ raised self.old.faults 1) }
    {
        self.pieces.add(bytes.len());
        let result = write_whole(&mut self.stream, bytes);
        if result.is_err() {
            self.faults = self.faults.saturating_add(1);
        }
        result
    }
}

//! A sink in memory, which fails when it is told to.

ghost use Rattle.std.specs.Prelude.{◌≡◌, ◌+◌, ◌≤◌, ◌++◌, ℕ, [], List, length, take, Some, None, IfOk, vec_capacity, vec_len, OnOk, OnErr, IsOk, IsErr, IfSome, ◌<◌};
ghost use Rattle.gib_edge.specs.{Causes.{HasCause, Appends, AppendsPart, raised}, Fails.{part_at}};

use crate::Memory;
use crate::outside::{Failed, Sink};
use crate::piece_counts::PieceCounts;
use std::alloc::Global;

/// A sink that keeps what it takes.
#[derive(Drop)]
pub struct MemSink {
    bytes: Vec<u8>,
    // how many bytes it still has room for
    left: usize,
    fails: Vec<(u64, u64)>,
    pieces: PieceCounts,
    faults: u64,
    ghost room: { vec_len bytes + left ≤ vec_capacity bytes },
}

impl MemSink {
    ghost use Rattle.gib_edge.specs.InMemory.{taken_by, failed_puts, IsNewSink};

    /// A sink with room for `room` bytes. For each pair in `fails` it fails at the call of the first number
    /// (from 0), after taking as many bytes of the piece as the second says.
    pub fn make(alloc: Global, room: u64, fails: Vec<(u64, u64)>) -> Result<MemSink, Memory>
        ensures { IfOk result (IsNewSink room fails.items) }
    {
        let left = room as usize;
        Ok(MemSink {
            bytes: Vec::with_capacity(alloc, left)?,
            left,
            fails,
            pieces: PieceCounts::new(),
            faults: 0,
        })
    }

    /// All bytes that it took.
    pub fn bytes(&self) -> &[u8]
        ensures { result.now ≡ taken_by self.now }
    {
        &self.bytes
    }

    /// How often it has failed.
    pub fn faults(&self) -> u64
        ensures { result ≡ failed_puts self.now }
    {
        self.faults
    }

    // Takes bytes for which there is room.
    fn append(&mut self, piece: &[u8])
        requires { length piece.now ≤ self.old.left }
        ensures bytes { self.new.bytes.items ≡ self.old.bytes.items ++ piece.now }
        ensures left { self.new.left + length piece.now ≡ self.old.left }
        ensures fails { self.new.fails ≡ self.old.fails }
        ensures pieces { self.new.pieces ≡ self.old.pieces }
        ensures faults { self.new.faults ≡ self.old.faults }
    {
        let _ = self.bytes.extend_from_slice(piece);
        self.left -= piece.len();
    }
}

impl Sink for MemSink {
    ghost use Rattle.gib_edge.specs.{Causes.{HasPut}, InMemory.{taken_by, room_left, failed_puts, part_due, sink_view}};

    ghost view = { sink_view };

    // A piece that passes the room is refused whole. Else only the listed puts fail, after their part.
    fn put(&mut self, bytes: &[u8]) -> Result<(), Failed>
        ensures ok { OnOk result (Appends (Some (taken_by self.old)) (Some (taken_by self.new)) bytes.now) }
        ensures part { OnErr result (AppendsPart (Some (taken_by self.old)) (Some (taken_by self.new)) bytes.now) }
        ensures cause { HasCause (failed_puts self.old) (failed_puts self.new) result }
        ensures called { HasPut (sink_view self.old) (sink_view self.new) (length bytes.now) }
        ensures full { room_left self.old < length bytes.now → IsErr result × (taken_by self.new ≡ taken_by self.old) }
        ensures due { length bytes.now ≤ room_left self.old → IfSome (part_due self.old) (λ count. IsErr result × (taken_by self.new ≡ taken_by self.old ++ take count bytes.now)) }
        ensures sure { length bytes.now ≤ room_left self.old → part_due self.old ≡ None → IsOk result }
        ensures room { length (taken_by self.new) + room_left self.new ≡ length (taken_by self.old) + room_left self.old }
        ensures counted { OnErr result (failed_puts self.new ≡ raised (failed_puts self.old) 1) }
        ensures fails { self.new.fails ≡ self.old.fails }
    {
        let call = self.pieces.puts;
        self.pieces.add(bytes.len());
        if bytes.len() <= self.left {
            match part_of(&self.fails, call) {
                Some(count) => self.append(prefix(bytes, count)),
                None => {
                    self.append(bytes);
                    return Ok(());
                }
            }
        }
        self.faults = self.faults.saturating_add(1);
        Err(Failed)
    }
}

/// The front of a piece.
pub(crate) fn prefix(bytes: &[u8], count: u64) -> &[u8]
    ensures { result.now ≡ take count bytes.now }
{
    if count < bytes.len() as u64 {
        &bytes[..count as usize]
    } else {
        bytes
    }
}

// After how many bytes a call fails.
fn part_of(fails: &[(u64, u64)], call: u64) -> Option<u64>
    ensures { result ≡ part_at fails.now call }
{
    for (at, count) in fails {
        if *at == call {
            return Some(*count);
        }
    }
    None
}

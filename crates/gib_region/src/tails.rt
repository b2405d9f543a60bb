//! Rests of chunks that are kept for later regions.

ghost use Rattle.std.specs.Prelude.{◌≡◌, ◌<◌, ◌≤◌, ◌^◌, ◌+◌, ◌*◌, ◌++◌, ◌∷◌, [], ℕ, List, length, take, IsTrue, ◌↔◌, IfOk, OnErr, IfSome, IfNone};
ghost use Rattle.gib_region.specs.Region.{finished, Begins, IsFull, rest};

use crate::cursor::{Cursor, Full, rest_of_chunk};
use gib_mem::{CHUNK, Mem};
use std::marker::Model;

/// How many tails may be kept.
const TAILS: usize = 64;

/// How many bytes a tail has at least: the longest head, and a redirect.
const TAIL: u64 = 74;

/// At most 64 rests of chunks, each by its first address, the latest last. Each has 74 bytes at least.
#[derive(Drop)]
pub struct Tails {
    at: [u64; TAILS],
    count: usize,
}

impl Model for Tails {
    ghost use Rattle.std.specs.Prelude.{ℕ, List, take, ◌≤◌};
    ghost use Rattle.std.specs.List.{All};
    ghost use Rattle.gib_region.specs.Region.{rest};

    ghost Value = { List ℕ };

    ghost view = { λ t. take t.count t.at };

    ghost invariant = { λ t. t.count ≤ 64 × All (λ a. 74 ≤ rest a) (take t.count t.at) };
}

impl Tails {
    /// No tails.
    pub fn new() -> Tails
        ensures { result ≡ [] }
    {
        Tails {
            at: [0; TAILS],
            count: 0,
        }
    }

    /// Whether no tail is kept.
    pub fn is_empty(&self) -> bool
        ensures { IsTrue result ↔ (self.now ≡ []) }
    {
        self.count == 0
    }

    /// Takes the latest tail.
    pub fn take(&mut self) -> Option<u64>
        ensures some { IfSome result (λ t. self.old ≡ self.new ++ t ∷ []) }
        ensures long { IfSome result (λ t. 74 ≤ rest t) }
        ensures none { IfNone result (self.old ≡ [] × self.new ≡ []) }
    {
        if self.count == 0 {
            return None;
        }
        self.count -= 1;
        Some(self.at[self.count])
    }

    /// Keeps the rest of a chunk, where it is long enough and fewer than 64 are kept.
    pub fn keep(&mut self, at: u64)
        ensures { self.new ≡ finished self.old at }
    {
        if rest_of_chunk(at) >= TAIL && self.count < TAILS {
            self.at[self.count] = at;
            self.count += 1;
        }
    }
}

/// Begins a region: at the latest tail, and where none is kept at the start of a new chunk.
///
/// # Errors
///
/// `Full` exactly where no tail is kept and no chunk is left. Nothing was put then.
pub fn begin<M: Mem>(mem: &mut M, tails: &mut Tails) -> Result<Cursor, Full>
    ensures begins { IfOk result (λ c. Begins (M.view mem.old) tails.old (M.view mem.new) tails.new c.at) }
    ensures full { OnErr result (IsFull (M.view mem.old) (M.view mem.new)) }
    ensures none { OnErr result (tails.old ≡ [] × tails.new ≡ []) }
{
    match tails.take() {
        Some(at) => Ok(Cursor::at_place(at)),
        None => match mem.draw() {
            Some(chunk) => Ok(Cursor::at_place(CHUNK * chunk as u64)),
            None => Err(Full),
        },
    }
}

/// Ends a region. What is left of its chunk is kept where it has 74 bytes at least and fewer than 64 tails are kept.
pub fn finish(cursor: Cursor, tails: &mut Tails)
    ensures { tails.new ≡ finished tails.old cursor.at }
{
    tails.keep(cursor.place());
}

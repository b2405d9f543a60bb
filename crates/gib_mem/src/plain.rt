//! Memory of one owner.

ghost use Rattle.std.specs.Prelude.{◌≡◌, ◌<◌, ◌≤◌, ◌^◌, ◌*◌, ◌+◌, ◌++◌, ℕ, true, length, replicate, slice_get, Some, None, IfOk};
ghost use Rattle.std.specs.Vec.{vec_len, vec_capacity};
ghost use Rattle.gib_mem.specs.{Plain.{IsPlain, plain_memory, nothing}, Memory.{Memory, IsThere}};

use crate::{CHUNK, Mem};
use std::alloc::{AllocError, Global};

/// The bytes of the chunks that are drawn, each with whether it was put: two bytes of the machine for each. Room for
/// all chunks is reserved when it is made, and none of it is touched before its chunk is drawn.
#[derive(Drop)]
pub struct PlainMem {
    bytes: Vec<Option<u8>>,
    drawn: u32,
    limit: u32,
    ghost plain: { IsPlain bytes.items drawn limit },
    ghost room: { 4096 * limit ≤ vec_capacity bytes },
}

impl PlainMem {
    /// Memory of so many chunks, none of which is drawn.
    ///
    /// # Errors
    ///
    /// Want of memory.
    pub fn make(alloc: Global, chunks: u32) -> Result<PlainMem, AllocError>
        ensures { IfOk result (λ m. ⟦<PlainMem as Mem>⟧.view m ≡ nothing chunks) }
    {
        let bytes = Vec::with_capacity(alloc, chunks as usize * CHUNK as usize)?;
        Ok(PlainMem {
            bytes,
            drawn: 0,
            limit: chunks,
        })
    }

    /// Every address of a drawn chunk is fresh or known.
    pub fn owns_all(&self)
        ensures { (q : ℕ) → q < 4096 * (⟦<PlainMem as Mem>⟧.view self.now).drawn → IsThere ((⟦<PlainMem as Mem>⟧.view self.now).cells q) }
    {
        let _all = &self.bytes;
    }
}

impl Mem for PlainMem {
    ghost view = { λ m. plain_memory m.bytes.items m.drawn m.limit };

    fn draw(&mut self) -> Option<u32> {
        if self.drawn == self.limit {
            return None;
        }
        let chunk = self.drawn;
        push_unput(&mut self.bytes, CHUNK);
        self.drawn = chunk + 1;
        Some(chunk)
    }

    fn put(&mut self, at: u64, byte: u8) {
        self.bytes[at as usize] = Some(byte);
    }

    fn get(&mut self, at: u64) -> u8 {
        match self.bytes[at as usize] {
            Some(byte) => byte,
            None => unreachable!(),
        }
    }

    fn look(&mut self, at: u64) -> u8 {
        match self.bytes[at as usize] {
            Some(known) => known,
            None => 0,
        }
    }

    fn chunks(&mut self) -> u32 {
        self.drawn
    }

    ghost bounded = { λ m. Rattle.gib_mem.specs.Plain.plain_bounded m.bytes.items m.drawn m.limit m.plain };
}

// Appends so many bytes that are not put. It takes no memory, since there is room for them.
fn push_unput(bytes: &mut Vec<Option<u8>>, count: u64)
    requires room { vec_len bytes.old + count ≤ vec_capacity bytes.old }
    ensures items { bytes.new.items ≡ bytes.old.items ++ replicate count None }
    ensures capacity { vec_capacity bytes.new ≡ vec_capacity bytes.old }
{
    let mut pushed = 0;
    'unput: while pushed < count {
        bytes.push_reserved(None);
        pushed += 1;
    }
}

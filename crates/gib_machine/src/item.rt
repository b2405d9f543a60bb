//! The bytes of an item that are still to be put.

ghost use Rattle.std.specs.Prelude.{◌≡◌, ◌<◌, ◌≤◌, ◌+◌, ◌-◌, ◌++◌, ℕ, suc, [], ◌∷◌, length, take, drop, ◌↔◌, IsTrue};
ghost use Rattle.std.specs.Int.{w64, to_le_bytes};
ghost use Rattle.gib_mem.specs.Memory.{Owned, after_puts};
ghost use Rattle.gib_machine.specs.{Items.{Bytes, bytes_of}, State.{left_in}};

use gib_mem::{Mem, WORD_BYTES};
use std::marker::Model;

/// At most 128 bytes, of which some are put.
#[derive(Drop)]
pub struct Item {
    bytes: [u8; 128],
    from: usize,
    to: usize,
}

impl Model for Item {
    ghost use Rattle.std.specs.Prelude.{◌≤◌};
    ghost use Rattle.gib_machine.specs.Items.{Bytes, bytes_of};

    ghost Value = { Bytes };

    ghost view = { λ i. bytes_of i.bytes i.from i.to };

    ghost invariant = { λ i. (i.from ≤ i.to) × (i.to ≤ 128) };
}

impl Item {
    /// Nothing.
    pub fn new() -> Item
        ensures { result ≡ record { left = []; room = 128 } }
    {
        Item {
            bytes: [0; 128],
            from: 0,
            to: 0,
        }
    }

    /// Nothing is left.
    #[tactic(auto, using(crate::proofs::Fronts::nothing_left, crate::proofs::Fronts::some_left))]
    pub fn is_empty(&self) -> bool
        ensures { IsTrue result ↔ (self.now.left ≡ []) }
    {
        self.from == self.to
    }

    /// Drops all bytes.
    pub fn clear(&mut self)
        ensures { self.new ≡ record { left = []; room = 128 } }
    {
        self.from = 0;
        self.to = 0;
    }

    /// A byte behind the others.
    pub fn push(&mut self, byte: u8)
        requires { 0 < self.old.room }
        ensures { self.new ≡ record { left = self.old.left ++ byte ∷ []; room = self.old.room - 1 } }
    {
        self.bytes[self.to] = byte;
        self.to += 1;
    }

    /// The eight bytes of a word behind the others.
    pub fn push_word(&mut self, word: u64)
        requires { 8 ≤ self.old.room }
        ensures { self.new ≡ record { left = self.old.left ++ to_le_bytes w64 word; room = self.old.room - 8 } }
    {
        let bytes = word.to_le_bytes();
        let mut rest: &[u8] = &bytes;
        'bytes: while let [byte, after @ ..] = rest {
            self.push(*byte);
            rest = after;
        }
    }

    /// Puts those of the bytes that lie in the word of an address, and drops them.
    pub fn put_front<M: Mem>(&mut self, mem: &mut M, at: u64)
        requires some { 0 < length self.old.left }
        requires free { Owned (M.view mem.old).cells at (length (take (suc (left_in at)) self.old.left)) }
        ensures left { self.new.left ≡ drop (suc (left_in at)) self.old.left }
        ensures put { M.view mem.new ≡ after_puts (M.view mem.old) at (take (suc (left_in at)) self.old.left) }
    {
        let in_word = (WORD_BYTES - at % WORD_BYTES) as usize;
        let end = if self.to - self.from < in_word {
            self.to
        } else {
            self.from + in_word
        };
        mem.put_run(at, &self.bytes[self.from..end]);
        self.from = end;
    }
}

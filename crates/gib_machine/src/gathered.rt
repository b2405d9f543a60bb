//! A number that is read word by word.

ghost use Rattle.std.specs.Prelude.{◌≡◌, ◌≤◌, ◌<◌, ◌-◌, ◌^◌, ℕ, suc, min};
ghost use Rattle.gib_mem.specs.Memory.{AreKnown, Reads};
ghost use Rattle.gib_machine.specs.State.{left_in, word_end, with_part};

use gib_mem::{Mem, WORD_BYTES};

/// The number that the lowest bytes of a number are, how many more are due, and where the next one stands.
#[derive(Clone, Copy)]
pub struct Gathered {
    pub at: u64,
    pub number: u64,
    pub due: u64,
}

impl Gathered {
    /// No byte of a number that begins there.
    pub fn empty(at: u64) -> Gathered
        ensures { result ≡ record { at = at; number = 0; due = 8 } }
    {
        Gathered {
            at,
            number: 0,
            due: WORD_BYTES,
        }
    }

    /// With the bytes that lie in the word of the next one.
    pub fn gets<M: Mem>(self, mem: &mut M) -> Gathered
        requires small { self.at < 2 ^ 44 }
        requires some { 0 < self.due }
        requires few { self.due ≤ 8 }
        requires known { AreKnown (M.view mem.old).cells self.at (suc (min (self.due - 1) (left_in self.at))) }
        ensures same { M.view mem.new ≡ M.view mem.old }
        ensures got { (x : ℕ) × Reads (M.view mem.old).cells self.at (suc (min (self.due - 1) (left_in self.at))) x × (result ≡ record { at = word_end self.at; number = with_part self.number (self.due - 1) x; due = self.due - 1 - left_in self.at }) }
        ensures fewer { result.due < self.due }
    {
        let left = WORD_BYTES - self.at % WORD_BYTES;
        let count = if self.due < left { self.due } else { left };
        let part = mem.get_run(self.at, count as u8);
        Gathered {
            at: self.at + left,
            number: self
                .number
                .wrapping_add(part << (8 * (WORD_BYTES - self.due))),
            due: self.due - count,
        }
    }
}

//! Instructions on the parts of a result: where a packed one is put, how scalar ones are given and taken. They have no memory action.

ghost use Rattle.std.specs.Prelude.{◌≡◌, ◌<◌, ◌+◌, ◌-◌, ◌^◌, ℕ, List, get_or};
ghost use Rattle.gib_code.specs.Instruction.{target_slots};
ghost use Rattle.gib_machine.specs.{State.{words, pull, sink, sets}, Machine.{ordered}, Sides.{sets_all}, Stepping.{with_tails}};
ghost use Rattle.gib_machine.specs.Machine as m;
ghost use Rattle.gib_machine.specs.declared.turn.Turn.TheVariants as turns;

use crate::frames::set_targets;
use crate::state::Machine;
use crate::turn::Turn;
use gib_code::{Operand, Targets};

/// How many of so many regions are newer than the one of this number.
pub(crate) fn newer(part: u8, count: u8) -> u8
    ensures { result ≡ count - 1 - part }
{
    count.saturating_sub(1).saturating_sub(part)
}

impl Machine {
    /// The region of a packed part becomes the innermost one.
    pub(crate) fn exec_into(&mut self, part: u8, count: u8) -> Turn
        requires next { self.old.ip + 1 < 2 ^ 32 }
        ensures state { self.new ≡ ordered self.old (pull (count - 1 - part) self.old.regions) }
        ensures turn { result ≡ turns.Went }
    {
        self.openings.pull(newer(part, count));
        self.went();
        Turn::Went
    }

    /// The region of a packed part goes back to its place.
    pub(crate) fn exec_out(&mut self, part: u8, count: u8) -> Turn
        requires next { self.old.ip + 1 < 2 ^ 32 }
        ensures state { self.new ≡ ordered self.old (sink (count - 1 - part) self.old.regions) }
        ensures turn { result ≡ turns.Went }
    {
        self.openings.sink(newer(part, count));
        self.went();
        Turn::Went
    }

    /// A call with a result of several parts ends, and its scalar parts are the part words.
    pub(crate) fn exec_give_parts(&mut self, scalars: &[Operand])
        ensures { (ts : List ℕ) → with_tails self.new ts ≡ m.gives_parts (with_tails self.old ts) (words self.old.words scalars.now) }
    {
        let parts = self.frames.parts(scalars);
        self.parts = parts;
        self.exec_return();
    }

    /// A slot is set to a scalar part of the call just returned.
    #[tactic(auto, using(crate::proofs::Windows::no_word))]
    pub(crate) fn exec_part(&mut self, to: u32, part: u8) -> Turn
        requires next { self.old.ip + 1 < 2 ^ 32 }
        ensures state { self.new ≡ sets self.old to (get_or self.old.parts part 0) }
        ensures turn { result ≡ turns.Went }
    {
        let place = part as usize;
        let number = if place < self.parts.len() {
            self.parts[place]
        } else {
            0
        };
        self.sets(to, number);
        Turn::Went
    }

    /// The instruction is done, and has set several slots.
    pub(crate) fn sets_all(&mut self, targets: Targets, words: &[u64; 8])
        requires next { self.old.ip + 1 < 2 ^ 32 }
        ensures { self.new ≡ sets_all self.old (target_slots targets) words.now }
    {
        set_targets(&mut self.frames, targets, words);
        self.went();
    }
}

//! Instructions on the words of the frame: they have no memory action.

ghost use Rattle.std.specs.Prelude.{◌≡◌, ◌<◌, ◌+◌, ◌%◌, ◌==◌, ◌^◌, ℕ, List, IsTrue, if◌then◌else◌};
ghost use Rattle.gib_machine.specs.{State.{slot, word, sets, went, went_to}, Stepping.{with_tails}};
ghost use Rattle.gib_machine.specs.State as st;
ghost use Rattle.gib_machine.specs.Machine as m;
ghost use Rattle.gib_machine.specs.declared.turn.Turn.TheVariants as turns;

use crate::state::Machine;
use crate::turn::Turn;
use gib_code::Operand;
use gib_types::{Operator, Reason};

/// What is done with two words, as numbers in two's complement.
pub(crate) fn operated(operator: Operator, left: u64, right: u64) -> u64
    requires { IsTrue (m.traps operator right) → ⊥ }
    ensures { result ≡ m.operated operator left right }
{
    let left = left.cast_signed();
    let right = right.cast_signed();
    match operator {
        Operator::Add => left.wrapping_add(right).cast_unsigned(),
        Operator::Subtract => left.wrapping_sub(right).cast_unsigned(),
        Operator::Multiply => left.wrapping_mul(right).cast_unsigned(),
        Operator::Equal => (left == right) as u64,
        Operator::Less => (left < right) as u64,
        Operator::Quotient => left.wrapping_div(right).cast_unsigned(),
        Operator::Remainder => left.wrapping_rem(right).cast_unsigned(),
    }
}

/// Whether an operation divides, and by this word, which is 0.
pub(crate) fn traps(operator: Operator, right: u64) -> bool
    ensures { result ≡ m.traps operator right }
{
    match operator {
        Operator::Quotient | Operator::Remainder => right.cast_signed() == 0,
        _ => false,
    }
}

impl Machine {
    pub(crate) fn exec_move(&mut self, to: u32, from: Operand) -> Turn
        requires next { self.old.ip + 1 < 2 ^ 32 }
        ensures state { self.new ≡ sets self.old to (word self.old.words from) }
        ensures turn { result ≡ turns.Went }
    {
        let number = self.frames.word(from);
        self.sets(to, number);
        Turn::Went
    }

    /// The slot is set; at a division by 0 the task unwinds.
    pub(crate) fn exec_operate(&mut self, to: u32, operator: Operator, left: u64, right: u64)
        requires next { self.old.ip + 1 < 2 ^ 32 }
        ensures { (ts : List ℕ) → with_tails self.new ts ≡ m.operates (with_tails self.old ts) to operator left right }
    {
        if traps(operator, right) {
            self.unwinds(Reason::Trap);
        } else {
            let number = operated(operator, left, right);
            self.sets(to, number);
        }
    }

    pub(crate) fn exec_jump(&mut self, label: u32) -> Turn
        ensures state { self.new ≡ went_to self.old label }
        ensures turn { result ≡ turns.Went }
    {
        self.went_to(label);
        Turn::Went
    }

    pub(crate) fn exec_unless(&mut self, test: Operand, label: u32) -> Turn
        requires next { self.old.ip + 1 < 2 ^ 32 }
        ensures state { self.new ≡ (if word self.old.words test == 0 then went_to self.old label else went self.old) }
        ensures turn { result ≡ turns.Went }
    {
        if self.frames.word(test) == 0 {
            self.went_to(label);
        } else {
            self.went();
        }
        Turn::Went
    }

    pub(crate) fn exec_first(&mut self, to: u32, tree: u32, place: u8) -> Turn
        requires next { self.old.ip + 1 < 2 ^ 32 }
        ensures state { self.new ≡ sets self.old to ((slot self.old.words tree + place) % 2 ^ 64) }
        ensures turn { result ≡ turns.Went }
    {
        let number = self.frames.slot(tree).wrapping_add(place as u64);
        self.sets(to, number);
        Turn::Went
    }

    pub(crate) fn exec_here(&mut self, to: u32) -> Turn
        requires next { self.old.ip + 1 < 2 ^ 32 }
        ensures state { self.new ≡ sets self.old to (st.cursor self.old.regions) }
        ensures turn { result ≡ turns.Went }
    {
        let at = self.openings.cursor();
        self.sets(to, at);
        Turn::Went
    }
}

//! Instructions on where the value of a variable ends: they have no memory action.

ghost use Rattle.std.specs.Prelude.{◌≡◌, ◌<◌, ◌+◌, ◌%◌, ◌^◌, ℕ, get_or};
ghost use Rattle.gib_machine.specs.State.{slot, end_at, sets, tells};
ghost use Rattle.gib_machine.specs.declared.turn.Turn.TheVariants as turns;

use crate::state::Machine;
use crate::turn::Turn;

impl Machine {
    /// The end that the call just returned gave for a parameter is told to a variable.
    pub(crate) fn exec_got(&mut self, to: u32, parameter: u32) -> Turn
        requires next { self.old.ip + 1 < 2 ^ 32 }
        ensures state { self.new ≡ tells self.old to (get_or self.old.gave parameter 0) }
        ensures turn { result ≡ turns.Went }
    {
        let last = self.frames.gave(parameter);
        self.tells(to, last);
        Turn::Went
    }

    /// The end of a variable is told to another one.
    pub(crate) fn exec_over_end(&mut self, to: u32, from: u32) -> Turn
        requires next { self.old.ip + 1 < 2 ^ 32 }
        ensures state { self.new ≡ tells self.old to (end_at self.old.words from) }
        ensures turn { result ≡ turns.Went }
    {
        let last = self.frames.end(from);
        self.tells(to, last);
        Turn::Went
    }

    /// The end of a head of so many bytes is told to the variable in whose slot it stands.
    pub(crate) fn exec_leaf_end(&mut self, to: u32, size: u8) -> Turn
        requires next { self.old.ip + 1 < 2 ^ 32 }
        ensures state { self.new ≡ tells self.old to ((slot self.old.words to + size) % 2 ^ 64) }
        ensures turn { result ≡ turns.Went }
    {
        let last = self.frames.slot(to).wrapping_add(size as u64);
        self.tells(to, last);
        Turn::Went
    }

    /// A slot is set to the end of a variable.
    pub(crate) fn exec_end_of(&mut self, to: u32, from: u32) -> Turn
        requires next { self.old.ip + 1 < 2 ^ 32 }
        ensures state { self.new ≡ sets self.old to (end_at self.old.words from) }
        ensures turn { result ≡ turns.Went }
    {
        let last = self.frames.end(from);
        self.sets(to, last);
        Turn::Went
    }
}

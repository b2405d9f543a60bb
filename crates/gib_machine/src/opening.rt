//! Instructions that open and finish regions.

ghost use Rattle.std.specs.Prelude.{◌≡◌, ◌<◌, ◌+◌, ◌^◌, ℕ};
ghost use Rattle.gib_machine.specs.{State.{sets}, Machine.{opens, closed}, Stepping.{Made, with_tails}};
ghost use Rattle.gib_machine.specs.declared.turn.Turn.TheVariants as turns;

use crate::state::{Doing, End, Machine};
use crate::turn::Turn;
use gib_mem::Mem;
use gib_region::{Tails, begin};
use gib_types::Reason;

impl Machine {
    /// Opens a region, and sets the slot to its start.
    #[tactic(auto, using(crate::proofs::Latest::begun, crate::proofs::Latest::full, crate::proofs::Latest::deep))]
    pub(crate) fn exec_begin<M: Mem>(&mut self, to: u32, mem: &mut M, tails: &mut Tails) -> Turn
        requires next { self.old.ip + 1 < 2 ^ 32 }
        ensures { Made (opens (with_tails self.old tails.old) self.old.room (λ t a. sets t to a)) (with_tails self.old tails.old) (with_tails self.new tails.new) (M.view mem.old) (M.view mem.new) result }
    {
        if self.openings.is_full() {
            self.doing = Doing::Over(End::NoValue(Reason::Deep));
            return Turn::Went;
        }
        match begin(mem, tails) {
            Err(_) => Turn::Full,
            Ok(cursor) => {
                let at = cursor.place();
                self.openings.push_region(at);
                self.sets(to, at);
                Turn::Went
            }
        }
    }

    /// Opens the region of the whole result.
    #[tactic(auto, using(crate::proofs::Latest::begun, crate::proofs::Latest::full, crate::proofs::Latest::deep))]
    pub(crate) fn begins_whole<M: Mem>(&mut self, mem: &mut M, tails: &mut Tails) -> Turn
        ensures { Made (opens (with_tails self.old tails.old) self.old.room (λ t a. t)) (with_tails self.old tails.old) (with_tails self.new tails.new) (M.view mem.old) (M.view mem.new) result }
    {
        if self.openings.is_full() {
            self.doing = Doing::Over(End::NoValue(Reason::Deep));
            return Turn::Went;
        }
        match begin(mem, tails) {
            Err(_) => Turn::Full,
            Ok(cursor) => {
                self.openings.push_region(cursor.place());
                self.doing = Doing::Ready;
                Turn::Went
            }
        }
    }

    /// Finishes the innermost region: the rest of its chunk is kept where it is long enough.
    pub(crate) fn exec_done(&mut self, tails: &mut Tails) -> Turn
        requires next { self.old.ip + 1 < 2 ^ 32 }
        ensures state { with_tails self.new tails.new ≡ closed (with_tails self.old tails.old) self.old.regions }
        ensures turn { result ≡ turns.Went }
    {
        if !self.openings.is_empty() {
            tails.keep(self.openings.cursor());
            self.openings.pop_region();
        }
        self.went();
        Turn::Went
    }
}

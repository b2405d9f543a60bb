//! A task of a weave: its machine, its tails, its right sides, and whether it runs.

ghost use Rattle.std.specs.Prelude.{◌≡◌, ◌<◌, [], ◌∷◌, length, drop, slice_get, IsTrue, ◌↔◌, IfOk, IfSome, IfNone};
ghost use Rattle.gib_code.specs.Program.{Runs};
ghost use Rattle.gib_machine.specs.{State.{AtFork, AtJoin, Ended, widest}, Machine.{next}, Sides.{Waiting, side_start, takes, joins}};
ghost use Rattle.gib_machine.specs.Stepping.{CanStep, Made, stand_of, with_tails};
ghost use Rattle.gib_weave.specs.Applied.{IsBegun, IsForked, IsOldest, newest_of};
ghost use Rattle.gib_weave.specs.Weave.{Running, Finished, Joined, HasWaiting, IsEnd, IsFinished, NewestWaits, Status, Stolen, Runs as Begun, ended_task, no_task};

use crate::sides::{Newest, Sides};
use gib_base::Memory;
use gib_code::{Answer, Code};
use gib_machine::{Machine, Stand, Turn};
use gib_mem::Mem;
use gib_region::Tails;
use std::alloc::Global;
use std::marker::Model;
use thiserror::Error;

/// Why an event is refused.
#[derive(Clone, Copy, Debug, PartialEq, Eq, Error)]
pub enum WeaveFault {
    /// Want of memory.
    #[error("out of memory")]
    Memory,
    /// The event is not enabled.
    #[error("the event is not enabled")]
    NotNow,
    /// The task draws, and all chunks are drawn.
    #[error("all chunks are drawn")]
    Full,
}

/// Whether a task runs.
#[derive(Clone, Copy, PartialEq, Eq)]
pub enum Stage {
    Running,
    /// It ended, and is not joined.
    Finished(Answer),
    Joined,
}

/// A task. A machine for its code has room for each of its right sides that waits. Once it has ended its machine is gone.
#[derive(Drop)]
pub struct Task {
    pub(crate) machine: Machine,
    pub(crate) tails: Tails,
    pub(crate) sides: Sides,
    pub(crate) stage: Stage,
}

impl Model for Task {
    ghost use Rattle.gib_machine.specs.Stepping.{with_tails};
    ghost use Rattle.gib_weave.specs.Weave as w;
    ghost use Rattle.gib_weave.specs.Applied.{stage_of, AreNarrow};

    ghost Value = { w.Task };

    ghost view = { λ t. record { state = with_tails t.machine t.tails; sides = t.sides; stage = stage_of t.stage } };

    ghost invariant = { λ t. AreNarrow t.machine.width t.sides };
}

impl Task {
    /// A task without right sides.
    pub fn new(alloc: Global, machine: Machine, tails: Tails) -> Task
        ensures { result ≡ record { state = with_tails machine tails; sides = []; stage = Running } }
    {
        Task {
            machine,
            tails,
            sides: Sides::new(alloc),
            stage: Stage::Running,
        }
    }

    /// Whether it runs.
    pub fn is_running(&self) -> bool
        ensures { IsTrue result ↔ (self.now.stage ≡ Running) }
    {
        match self.stage {
            Stage::Running => true,
            Stage::Finished(_) => false,
            Stage::Joined => false,
        }
    }

    /// The answer of a task that has ended and is not joined.
    pub fn finished(&self) -> Option<Answer>
        ensures some { IfSome result (λ a. self.now.stage ≡ Finished a) }
        ensures none { IfNone result (IsFinished self.now.stage → ⊥) }
    {
        match self.stage {
            Stage::Finished(answer) => Some(answer),
            Stage::Running => None,
            Stage::Joined => None,
        }
    }

    /// Where its machine stands.
    pub fn stand(&self, code: &Code) -> Stand
        ensures { result ≡ stand_of (next code.now self.now.state) }
    {
        self.machine.stand(code)
    }

    /// Whether it stands at a fork.
    #[tactic(auto, using(crate::proofs::Applying::at_fork))]
    pub fn is_at_fork(&self, code: &Code) -> bool
        ensures { IsTrue result ↔ (next code.now self.now.state ≡ AtFork) }
    {
        match self.stand(code) {
            Stand::Fork => true,
            Stand::Goes => false,
            Stand::Join => false,
            Stand::End => false,
        }
    }

    /// Whether it stands at a join.
    #[tactic(auto, using(crate::proofs::Applying::at_join))]
    pub fn is_at_join(&self, code: &Code) -> bool
        ensures { IsTrue result ↔ (next code.now self.now.state ≡ AtJoin) }
    {
        match self.stand(code) {
            Stand::Join => true,
            Stand::Goes => false,
            Stand::Fork => false,
            Stand::End => false,
        }
    }

    /// What it has ended with; None where it has not.
    #[tactic(auto, using(crate::proofs::Applying::not_end))]
    pub fn end(&self, code: &Code) -> Option<Answer>
        ensures some { IfSome result (λ a. next code.now self.now.state ≡ Ended a) }
        ensures none { IfNone result (IsEnd (next code.now self.now.state) → ⊥) }
    {
        self.machine.answer(code)
    }

    /// Whether its newest right side waits.
    pub fn side_waits(&self) -> bool
        ensures { IsTrue result ↔ NewestWaits self.now.sides }
    {
        self.sides.waits()
    }

    /// How far its newest right side is; None where there is none.
    pub fn newest_side(&self) -> Option<Newest>
        ensures some { IfSome result (λ newest. (st : Status) × (self.now.sides ≡ st ∷ drop 1 self.now.sides) × (newest ≡ newest_of st)) }
        ensures none { IfNone result (self.now.sides ≡ []) }
    {
        self.sides.newest()
    }

    /// The task of its newest right side; None where that waits, or there is none.
    pub fn side_begun(&self) -> Option<u32>
        ensures some { IfSome result (λ n. self.now.sides ≡ Begun n ∷ drop 1 self.now.sides) }
        ensures none { IfNone result (IsBegun self.now.sides → ⊥) }
    {
        self.sides.begun()
    }

    /// Whether a right side waits.
    pub fn has_waiting(&self) -> bool
        ensures { IsTrue result ↔ HasWaiting self.now.sides }
    {
        self.sides.has_waiting()
    }

    /// The machine of its oldest right side that waits.
    ///
    /// # Errors
    ///
    /// Want of memory.
    pub fn oldest(&self, alloc: Global, code: &Code) -> Result<Machine, Memory>
        requires waits { HasWaiting self.now.sides }
        requires width { self.now.state.width ≡ widest code.now.functions }
        ensures { IfOk result (λ m. (x : Waiting) × IsOldest self.now.sides x × (m ≡ side_start code.now x)) }
    {
        Machine::of_side(alloc, code, self.sides.oldest())
    }

    /// Its oldest right side that waits is now the task of this number.
    pub fn begin_oldest(&mut self, number: u32)
        requires { HasWaiting self.old.sides }
        ensures begun { (x : Waiting) → IsOldest self.old.sides x → Stolen number self.old.sides x self.new.sides }
        ensures kept { self.new ≡ record self.old { sides = self.new.sides } }
    {
        self.sides.begin_oldest(number);
    }

    /// One micro-step of its machine.
    #[tactic(auto, using(crate::proofs::Narrow::step_narrow))]
    pub fn step<M: Mem>(&mut self, code: &Code, mem: &mut M) -> Turn
        requires { CanStep code.now self.old.state (M.view mem.old) }
        ensures made { Made (next code.now self.old.state) self.old.state self.new.state (M.view mem.old) (M.view mem.new) result }
        ensures kept { self.new ≡ record self.old { state = self.new.state } }
    {
        self.machine.step(code, mem, &mut self.tails)
    }

    /// Its left side starts at the fork where it stands, and the right side waits.
    ///
    /// # Errors
    ///
    /// Want of memory; the task stays.
    pub fn fork(&mut self, alloc: Global, code: &Code) -> Result<(), WeaveFault>
        requires runs { Runs code.now }
        requires fork { next code.now self.old.state ≡ AtFork }
        ensures { IsForked self.old (slice_get code.now.instructions self.old.state.ip) self.new result }
    {
        match self.machine.side(alloc, code) {
            Err(_) => Err(WeaveFault::Memory),
            Ok(side) => {
                match self.sides.push(side) {
                    Err(_) => Err(WeaveFault::Memory),
                    Ok(()) => {
                        self.machine.left(code);
                        Ok(())
                    }
                }
            }
        }
    }

    /// Takes its newest right side back, which waits.
    pub fn take(&mut self, code: &Code)
        requires runs { Runs code.now }
        requires join { next code.now self.old.state ≡ AtJoin }
        requires side { 0 < length self.old.sides }
        ensures { self.new ≡ record { state = takes self.old.state; sides = drop 1 self.old.sides; stage = self.old.stage } }
    {
        self.machine.take(code);
        self.sides.pop();
    }

    /// Takes the answer of its newest right side, which is a task that ended.
    pub fn join(&mut self, answer: Answer)
        requires { 0 < length self.old.sides }
        ensures { self.new ≡ record { state = joins self.old.state answer; sides = drop 1 self.old.sides; stage = self.old.stage } }
    {
        self.machine.join(answer);
        self.sides.pop();
    }

    /// It has ended with this answer, and drops its machine.
    pub fn finish(&mut self, alloc: Global, answer: Answer)
        ensures { self.new ≡ ended_task answer }
    {
        self.machine = Machine::gone(alloc);
        self.tails = Tails::new();
        self.sides.clear();
        self.stage = Stage::Finished(answer);
    }

    /// It is joined.
    pub fn leave(&mut self, alloc: Global)
        ensures { self.new ≡ no_task }
    {
        self.machine = Machine::gone(alloc);
        self.tails = Tails::new();
        self.sides.clear();
        self.stage = Stage::Joined;
    }
}

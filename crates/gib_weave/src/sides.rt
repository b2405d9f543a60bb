//! The right sides of a task that it neither joined nor took.

ghost use Rattle.std.specs.Prelude.{◌≡◌, ◌<◌, [], ◌∷◌, length, drop, OnOk, OnErr, IfSome, IfNone, IsTrue, ◌↔◌};
ghost use Rattle.gib_machine.specs.{Sides.{Waiting}, Starting.{waiting_of}};
ghost use Rattle.gib_weave.specs.{Applied.{IsBegun, IsOldest, status_of, newest_of}, Weave.{HasWaiting, NewestWaits, Runs, Status, Stolen, Waits}};

use gib_base::Memory;
use gib_code::Side;
use std::alloc::Global;
use std::marker::Model;

/// A right side that its task neither joined nor took.
#[derive(Drop)]
pub enum RightSide {
    /// Nobody began it.
    Waiting(Side),
    /// It is the task of this number.
    Begun(u32),
}

/// How far a right side is.
#[derive(Clone, Copy, PartialEq, Eq)]
pub enum Newest {
    /// Nobody began it.
    Waiting,
    /// It is the task of this number.
    Begun(u32),
}

/// The right sides of a task, seen with the newest first. Those that wait are the newest, since the oldest one is begun first.
#[derive(Drop)]
pub struct Sides {
    /// The oldest first.
    items: Vec<RightSide>,
    /// How many are begun.
    begun: usize,
}

impl Model for Sides {
    ghost use Rattle.std.specs.Prelude.{List};
    ghost use Rattle.gib_weave.specs.{Weave.{Status}, Applied.{newest_first, AreBegunFirst}};

    ghost Value = { List Status };

    ghost view = { λ s. newest_first s.items.items };

    ghost invariant = { λ s. AreBegunFirst s.begun s.items.items };
}

/// How far the side is.
fn newest_of(side: &RightSide) -> Newest
    ensures { result ≡ newest_of (status_of side.now) }
{
    match side {
        RightSide::Waiting(_) => Newest::Waiting,
        RightSide::Begun(task) => Newest::Begun(*task),
    }
}

impl Sides {
    /// No sides.
    pub fn new(alloc: Global) -> Sides
        ensures { result ≡ [] }
    {
        Sides {
            items: Vec::new(alloc),
            begun: 0,
        }
    }

    /// One more, which waits.
    ///
    /// # Errors
    ///
    /// Want of memory; the sides stay.
    #[tactic(auto, using(crate::proofs::Newest::one_more, crate::proofs::Newest::begun_with_one_more))]
    pub fn push(&mut self, side: Side) -> Result<(), Memory>
        ensures pushed { OnOk result (self.new ≡ Waits (waiting_of side) ∷ self.old) }
        ensures same { OnErr result (self.new ≡ self.old) }
    {
        self.items.push(RightSide::Waiting(side))?;
        Ok(())
    }

    /// How far the newest one is; None where there is none.
    #[tactic(auto, using(crate::proofs::Newest::newest_is, crate::proofs::Newest::none_is))]
    pub fn newest(&self) -> Option<Newest>
        ensures some { IfSome result (λ newest. (st : Status) × (self.now ≡ st ∷ drop 1 self.now) × (newest ≡ newest_of st)) }
        ensures none { IfNone result (self.now ≡ []) }
    {
        if self.items.len() == 0 {
            return None;
        }
        Some(newest_of(&self.items[self.items.len() - 1]))
    }

    /// Whether the newest one waits.
    pub fn waits(&self) -> bool
        ensures { IsTrue result ↔ NewestWaits self.now }
    {
        match self.newest() {
            Some(Newest::Waiting) => true,
            Some(Newest::Begun(_)) => false,
            None => false,
        }
    }

    /// The task of the newest one; None where it waits, or there is none.
    pub fn begun(&self) -> Option<u32>
        ensures some { IfSome result (λ n. self.now ≡ Runs n ∷ drop 1 self.now) }
        ensures none { IfNone result (IsBegun self.now → ⊥) }
    {
        match self.newest() {
            Some(Newest::Begun(task)) => Some(task),
            Some(Newest::Waiting) => None,
            None => None,
        }
    }

    /// Whether one waits.
    #[tactic(auto, using(crate::proofs::Newest::waits_behind, crate::proofs::Newest::begun_before))]
    pub fn has_waiting(&self) -> bool
        ensures { IsTrue result ↔ HasWaiting self.now }
    {
        self.begun < self.items.len()
    }

    /// The oldest one that waits.
    #[tactic(auto, using(crate::proofs::Newest::oldest_is, crate::proofs::Newest::oldest_waits, crate::proofs::Newest::begun_before))]
    pub fn oldest(&self) -> &Side
        requires { HasWaiting self.now }
        ensures { IsOldest self.now (waiting_of result.now) }
    {
        match &self.items[self.begun] {
            RightSide::Waiting(side) => side,
            RightSide::Begun(_) => unreachable!(),
        }
    }

    /// The oldest one that waits is now the task of this number.
    #[tactic(auto, using(crate::proofs::Newest::oldest_begins, crate::proofs::Newest::begun_more, crate::proofs::Newest::begun_before))]
    pub fn begin_oldest(&mut self, task: u32)
        requires { HasWaiting self.old }
        ensures { (x : Waiting) → IsOldest self.old x → Stolen task self.old x self.new }
    {
        self.items[self.begun] = RightSide::Begun(task);
        self.begun += 1;
    }

    /// Drops the newest one.
    #[tactic(auto, using(crate::proofs::Newest::popped, crate::proofs::Newest::waiting_popped, crate::proofs::Newest::begun_popped))]
    pub fn pop(&mut self)
        requires { 0 < length self.old }
        ensures { self.new ≡ drop 1 self.old }
    {
        let _ = self.items.pop();
        if self.begun > self.items.len() {
            self.begun = self.items.len();
        }
    }

    /// Drops all.
    pub fn clear(&mut self)
        ensures { self.new ≡ [] }
    {
        self.items.clear();
        self.begun = 0;
    }
}

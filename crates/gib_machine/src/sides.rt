//! What becomes of a right side at a fork and at a join. Whoever runs the tasks decides it.

ghost use Rattle.std.specs.Prelude.{◌≡◌, ◌<◌, ◌≤◌, ◌+◌, ◌-◌, ◌^◌, ℕ, List, drop, length, None, Some, IfOk, IfSome, IfNone, slice_get, get_or};
ghost use Rattle.gib_machine.specs.{State.{AtFork, AtJoin}, Machine.{next, unwound}, Sides.{fork_of, right_of, left_starts, takes, joins, unwinding}};
ghost use Rattle.gib_machine.specs.{Frames.{FitsFrame}, Starting.{forking_of, waiting_of}, Stepping.{with_tails}};
ghost use Rattle.gib_machine.specs.Sides as m;
ghost use Rattle.gib_code.specs.{Instruction.{target_slots}, Program.{Runs}};

use crate::starting::fork_in;
use crate::state::{Doing, Machine};
use gib_base::Memory;
use gib_code::{Answer, Code, Fork, Kind, Side, Targets};
use gib_types::Reason;
use std::alloc::Global;

/// The label before the one where a `par` is left.
fn back_of(joint: u32) -> u32
    ensures before { result ≡ joint - 1 }
    ensures next { result + 1 < 2 ^ 32 }
{
    if joint > 0 { joint - 1 } else { 0 }
}

/// The first of the slots that a right side sets; 0 where there is none.
fn first_of(targets: Targets) -> u32
    ensures { result ≡ get_or (target_slots targets) 0 0 }
{
    if targets.count > 0 { targets.first } else { 0 }
}

impl Machine {
    /// The fork at the running label; None where none stands there.
    #[tactic(auto, using(crate::proofs::Steps::at_place, crate::proofs::Steps::no_place))]
    fn fork_here(&self, code: &Code) -> Option<Fork>
        ensures some { IfSome result (λ f. fork_of (slice_get code.now.instructions self.now.ip) ≡ Some (forking_of f)) }
        ensures none { IfNone result (fork_of (slice_get code.now.instructions self.now.ip) ≡ None) }
    {
        let instructions = code.instructions();
        let place = self.ip as usize;
        if place >= instructions.len() {
            return None;
        }
        fork_in(&instructions[place])
    }

    /// The right side of the fork at which the machine stands, for whoever begins it: it has the words and ends of the frame, its calls,
    /// and a level less. A machine for the same code has room for it.
    ///
    /// # Errors
    ///
    /// Want of memory.
    #[tactic(auto, using(crate::proofs::Stands::fork_is_there, crate::proofs::Stands::fork_has_level))]
    pub fn side(&self, alloc: Global, code: &Code) -> Result<Side, Memory>
        requires fork { (tails : List ℕ) × (next code.now (with_tails self.now tails) ≡ AtFork) }
        ensures side { IfOk result (λ side. (tails : List ℕ) → waiting_of side ≡ right_of (with_tails self.now tails) (slice_get code.now.instructions self.now.ip)) }
        ensures fits { IfOk result (λ side. FitsFrame self.now.width (waiting_of side).words) }
    {
        match self.fork_here(code) {
            None => unreachable!(),
            Some(fork) => {
                let words = self.frames.words(alloc)?;
                let ends = self.frames.ends(alloc)?;
                Ok(Side {
                    start: fork.right,
                    words,
                    ends,
                    depth: self.frames.depth(),
                    level: self.level - 1,
                    kind: fork.kind,
                    targets: fork.targets,
                    result: fork.result,
                })
            }
        }
    }

    /// The left side of the fork at which the machine stands begins, with a level less. Its right side is left to others.
    #[tactic(auto, using(crate::proofs::Stands::fork_is_there, crate::proofs::Stands::fork_has_level, crate::proofs::Stands::fork_has_next))]
    pub fn left(&mut self, code: &Code)
        requires runs { Runs code.now }
        requires fork { (tails : List ℕ) × (next code.now (with_tails self.old tails) ≡ AtFork) }
        ensures { (tails : List ℕ) → with_tails self.new tails ≡ left_starts (with_tails self.old tails) (slice_get code.now.instructions self.old.ip) }
    {
        match self.fork_here(code) {
            None => unreachable!(),
            Some(fork) => self.enters(true, self.level - 1, &fork),
        }
    }

    /// At a join whose right side nobody began, it begins in place; where the left side has no value it is dropped, and the
    /// unwinding goes on, with the left side's reason, at the join of the next `par` whose left side runs here.
    #[tactic(auto, using(crate::proofs::Stands::join_has_next, crate::proofs::Unwinds::take_unwinds))]
    pub fn take(&mut self, code: &Code)
        requires runs { Runs code.now }
        requires join { (tails : List ℕ) × (next code.now (with_tails self.old tails) ≡ AtJoin) }
        ensures { (tails : List ℕ) → with_tails self.new tails ≡ takes (with_tails self.old tails) }
    {
        if self.openings.newest().is_none() {
            return;
        }
        match self.unwinding() {
            Some(why) => self.drops_par(why),
            None => {
                self.openings.run_right();
                self.went();
            }
        }
    }

    /// Drops the newest `par`, whose left side has no value, and goes on to the next one.
    fn drops_par(&mut self, why: Reason)
        requires { 0 < length self.old.pars }
        ensures { (tails : List ℕ) → with_tails self.new tails ≡ unwound why (with_tails self.old tails) (drop 1 self.old.pars) }
    {
        self.openings.drop_par();
        self.unwinds(why);
    }

    /// Why a left side has no value, where the machine unwinds.
    pub fn unwinding(&self) -> Option<Reason>
        ensures { result ≡ unwinding self.now.doing }
    {
        match self.doing {
            Doing::Unwinding(why) => Some(why),
            _ => None,
        }
    }

    /// At a join whose right side's task ended, its answer is taken behind the `par`; where the left side has no value it is
    /// dropped, whatever it is, and the unwinding goes on with the left side's reason.
    #[tactic(auto, using(crate::proofs::Unwinds::join_unwinds))]
    pub fn join(&mut self, answer: Answer)
        ensures { (tails : List ℕ) → with_tails self.new tails ≡ joins (with_tails self.old tails) answer }
    {
        match self.openings.newest() {
            None => {}
            Some(forked) => {
                match self.unwinding() {
                    Some(left) => self.drops_par(left),
                    None => {
                        self.openings.pop_par();
                        self.level = forked.level;
                        self.ip = back_of(forked.joint);
                        self.doing = Doing::Ready;
                        self.answered(forked.kind, forked.targets, answer);
                    }
                }
            }
        }
    }

    /// The right side's variables get its answer: a field's tree is pointed to at the cursor.
    fn answered(&mut self, kind: Kind, targets: Targets, answer: Answer)
        requires next { self.old.ip + 1 < 2 ^ 32 }
        ensures { (tails : List ℕ) → with_tails self.new tails ≡ m.answered (with_tails self.old tails) kind (target_slots targets) answer }
    {
        let first = first_of(targets);
        match answer {
            Answer::Whole(value) => self.sets(first, value.cast_unsigned()),
            Answer::Truth(value) => self.sets(first, value as u64),
            Answer::At(target) => self.stands_at(kind, first, target),
            Answer::Parts(words) => self.sets_all(targets, &words),
            Answer::NoValue(why) => self.unwinds(why),
        }
    }

    /// The right side's tree stands at an address.
    fn stands_at(&mut self, kind: Kind, variable: u32, target: u64)
        requires next { self.old.ip + 1 < 2 ^ 32 }
        ensures { self.new ≡ m.at_place self.old kind variable target }
    {
        match kind {
            Kind::Here => {
                self.doing = Doing::Joining {
                    to: variable,
                    target,
                };
            }
            Kind::Region => self.sets(variable, target),
            Kind::Scalar => self.sets(variable, target),
            Kind::Several => self.sets(variable, target),
        }
    }
}

//! Forks, joins and the ends of right sides: they have no memory action.

ghost use Rattle.std.specs.Prelude.{◌≡◌, ◌<◌, ◌+◌, ◌-◌, ◌^◌, ℕ, length, map};
ghost use Rattle.gib_mem.specs.Memory.{Memory};
ghost use Rattle.gib_machine.specs.{State.{slot}, Machine.{enters, forks_at, joins_at, backs_at, ends_with}, Stepping.{Makes}};
ghost use Rattle.gib_code.specs.Instruction.{target_slots};

use crate::regions::Forked;
use crate::state::{Doing, End, Machine};
use crate::turn::Turn;
use gib_code::{AnswerType, Fork};
use gib_types::Reason;

/// The label before one.
pub(crate) fn before(label: u32) -> u32
    ensures { result ≡ label - 1 }
{
    if label > 0 { label - 1 } else { 0 }
}

impl Machine {
    /// Enters a `par` whose left side begins at this level, where there is room for it.
    pub(crate) fn enters(&mut self, left: bool, level: u32, fork: &Fork)
        requires next { self.old.ip + 1 < 2 ^ 32 }
        ensures { self.new ≡ enters self.old left level fork.now.right fork.now.joint fork.now.kind (target_slots fork.now.targets) self.old.room }
    {
        if self.openings.is_full() {
            self.doing = Doing::Over(End::NoValue(Reason::Deep));
        } else {
            self.openings.push_par(Forked {
                left,
                join: before(fork.right),
                joint: fork.joint,
                kind: fork.kind,
                targets: fork.targets,
                level: self.level,
            });
            self.level = level;
            self.went();
        }
    }

    /// Stands at a fork where a level is left; else the `par` is in place.
    pub(crate) fn exec_fork(&mut self, fork: &Fork) -> Turn
        requires next { self.old.ip + 1 < 2 ^ 32 }
        ensures { (v : Memory) → Makes (λ s. forks_at s fork.now.right fork.now.joint fork.now.kind (target_slots fork.now.targets) s.level) self.old self.new v v result }
    {
        if self.level > 0 {
            return Turn::AtFork;
        }
        self.enters(false, 0, fork);
        Turn::Went
    }

    /// Stands at the join of a `par` whose left side runs here; in place the right side follows.
    pub(crate) fn exec_join(&mut self) -> Turn
        requires next { self.old.ip + 1 < 2 ^ 32 }
        ensures { (v : Memory) → Makes (λ s. joins_at s s.pars) self.old self.new v v result }
    {
        if let Some(forked) = self.openings.newest() {
            if forked.left {
                return Turn::AtJoin;
            }
        }
        self.went();
        Turn::Went
    }

    /// Leaves the newest `par`, whose right side ran here; a right side that is a task of its own ends.
    pub(crate) fn exec_back(&mut self) -> Turn
        requires next { self.old.ip + 1 < 2 ^ 32 }
        ensures { (v : Memory) → Makes (λ s. backs_at s s.pars) self.old self.new v v result }
    {
        match self.openings.newest() {
            Some(forked) => {
                self.level = forked.level;
                self.openings.pop_par();
                self.went();
            }
            None => {
                if self.side.count == 0 {
                    self.went();
                } else {
                    self.ends_side();
                }
            }
        }
        Turn::Went
    }

    /// A right side that is a task of its own ends with its variables.
    #[tactic(auto, using(crate::proofs::Eights::side_ended_one, crate::proofs::Eights::side_ended_parts))]
    fn ends_side(&mut self)
        requires { 0 < length self.old.side }
        ensures { self.new ≡ ends_with self.old self.old.result (map (slot self.old.words) self.old.side) }
    {
        match self.result {
            AnswerType::One(_) => {
                let word = self.frames.slot(self.side.first);
                self.answers(word);
            }
            AnswerType::Parts => {
                let parts = self.frames.parts_at(self.side);
                self.parts = parts;
                self.doing = Doing::Over(End::Parts);
            }
        }
    }
}

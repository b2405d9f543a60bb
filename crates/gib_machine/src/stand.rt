//! Where a machine stands, without a step.

ghost use Rattle.std.specs.Prelude.{◌≡◌, ℕ, List, Some, slice_get, IfSome, IfNone};
ghost use Rattle.gib_code.specs.declared.answer.Answer.TheVariants as answers;
ghost use Rattle.gib_types.specs.declared.reason.Reason.TheVariants as reasons;
ghost use Rattle.gib_code.specs.{Instruction.{instruction_of}, Program.{CodeTree}};
ghost use Rattle.gib_machine.specs.{State.{Ended, Over, Ready}, Machine.{begin, next}, Stepping.{stand_of, with_tails}};

use crate::state::{Doing, End, Machine};
use gib_code::{Answer, Code, Instr};
use gib_types::Reason;

/// Where a machine stands.
#[derive(Clone, Copy, PartialEq, Eq)]
pub enum Stand {
    /// It can make a step.
    Goes,
    /// At a fork, with a level left.
    Fork,
    /// At the join of a `par` whose left side runs here.
    Join,
    /// At its end.
    End,
}

impl Machine {
    /// Where the machine stands, whatever the tails of its task.
    #[tactic(auto, using(crate::proofs::Stands::whole_opens, crate::proofs::Stands::joining_points))]
    pub fn stand(&self, code: &Code) -> Stand
        ensures { (tails : List ℕ) → result ≡ stand_of (next code.now (with_tails self.now tails)) }
    {
        match self.doing {
            Doing::Ready => self.stand_here(code),
            Doing::Over(_) => Stand::End,
            Doing::Unwinding(_) => Stand::Join,
            _ => Stand::Goes,
        }
    }

    /// What the machine has ended with; None where it has not ended.
    #[tactic(auto, using(crate::proofs::Stands::ended_with, crate::proofs::Stands::not_ended))]
    pub fn answer(&self, code: &Code) -> Option<Answer>
        ensures some { IfSome result (λ a. (tails : List ℕ) → next code.now (with_tails self.now tails) ≡ Ended a) }
        ensures none { IfNone result ((tails : List ℕ) (a : Answer) → next code.now (with_tails self.now tails) ≡ Ended a → ⊥) }
    {
        match self.stand(code) {
            Stand::End => Some(self.end()),
            Stand::Goes => None,
            Stand::Fork => None,
            Stand::Join => None,
        }
    }

    /// What the machine has ended with, where it has.
    pub fn ended_with(&self, code: &Code) -> Answer
        requires { (tails : List ℕ) × (a : Answer) × (next code.now (with_tails self.now tails) ≡ Ended a) }
        ensures { (tails : List ℕ) → next code.now (with_tails self.now tails) ≡ Ended result }
    {
        match self.answer(code) {
            None => unreachable!(),
            Some(answer) => answer,
        }
    }

    /// What a machine that has ended did so with; behind the code, that depth ran out.
    fn end(&self) -> Answer
        ensures over { (a : Answer) → self.now.doing ≡ Over a → result ≡ a }
        ensures rests { self.now.doing ≡ Ready → result ≡ answers.NoValue reasons.Deep }
    {
        match self.doing {
            Doing::Over(End::Whole(value)) => Answer::Whole(value),
            Doing::Over(End::Truth(value)) => Answer::Truth(value),
            Doing::Over(End::At(place)) => Answer::At(place),
            Doing::Over(End::Parts) => Answer::Parts(self.parts),
            Doing::Over(End::NoValue(why)) => Answer::NoValue(why),
            _ => Answer::NoValue(Reason::Deep),
        }
    }

    /// Where the machine stands at the instruction at hand.
    #[tactic(auto, using(crate::proofs::Steps::at_place, crate::proofs::Steps::no_place))]
    fn stand_here(&self, code: &Code) -> Stand
        ensures { (tails : List ℕ) → result ≡ stand_of (begin code.now (with_tails self.now tails) (slice_get code.now.instructions self.now.ip)) }
    {
        let instructions = code.instructions();
        let place = self.ip as usize;
        if place >= instructions.len() {
            return Stand::End;
        }
        self.stand_at(&instructions[place])
    }

    /// Where the machine stands at an instruction.
    #[tactic(auto, using(crate::proofs::Stands::others_go))]
    fn stand_at(&self, instr: &Instr) -> Stand
        ensures { (code : CodeTree) (tails : List ℕ) → result ≡ stand_of (begin code (with_tails self.now tails) (Some (instruction_of instr.now))) }
    {
        match instr {
            Instr::Fork(_) => {
                if self.level > 0 {
                    return Stand::Fork;
                }
                Stand::Goes
            }
            Instr::Join => {
                if let Some(forked) = self.openings.newest() {
                    if forked.left {
                        return Stand::Join;
                    }
                }
                Stand::Goes
            }
            _ => Stand::Goes,
        }
    }
}

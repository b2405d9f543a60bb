//! Calls and their ends: they have no memory action.

ghost use Rattle.std.specs.Prelude.{◌≡◌, ◌<◌, ◌+◌, ◌^◌, ℕ, List, IfSome};
ghost use Rattle.gib_machine.specs.{State.{Over, doing, word, words, widest}, Machine.{word_answer, called, returned, gives, unwound, slots_at}};
ghost use Rattle.gib_machine.specs.Stepping.{with_tails};
ghost use Rattle.gib_machine.specs.Machine as m;
ghost use Rattle.gib_machine.specs.declared.turn.Turn.TheVariants as turns;

use crate::state::{Doing, End, Machine};
use crate::turn::Turn;
use gib_code::{AnswerType, Code, Operand};
use gib_types::{Reason, Ty};

/// Where a function starts; 0 for no function.
#[tactic(auto, using(crate::proofs::Steps::start_here, crate::proofs::Steps::start_past))]
pub(crate) fn start_of(code: &Code, function: u32) -> u32
    ensures { result ≡ m.start_at code.now.functions function }
{
    let functions = code.functions();
    let place = function as usize;
    if place < functions.len() {
        functions[place].start
    } else {
        0
    }
}

/// How many slots a frame of a function has; 0 for no function.
#[tactic(auto, using(crate::proofs::Steps::slots_here, crate::proofs::Steps::slots_past))]
pub(crate) fn slots_of(code: &Code, function: u32) -> u32
    ensures { result ≡ slots_at code.now.functions function }
{
    let functions = code.functions();
    let place = function as usize;
    if place < functions.len() {
        functions[place].slots
    } else {
        0
    }
}

/// How a function begins: with a switch by its first slot, or in another way.
#[derive(Clone, Copy)]
pub enum Entrance {
    Other,
    /// To `one` for the constructor `first`, to `other` for the one behind it.
    Switch { first: u8, one: u32, other: u32 },
    /// For the one constructor of a type.
    SwitchOne { constructor: u8, label: u32 },
}

/// How a call of a scalar function with one argument ends at once, so that no frame is made for it.
#[derive(Clone, Copy)]
pub enum Quick {
    /// It is not known to.
    Never,
    /// Where the argument's head is of the constructor, by the number at a place of it; `told` is the size of a head whose end is told.
    Leaf {
        constructor: u8,
        place: u8,
        told: Option<u8>,
    },
    /// Where the argument is less than the number, by the argument.
    Below {
        number: u64,
    },
}

/// Where a function starts, how many slots a frame of it has, how it begins, and how it ends at once.
#[derive(Clone, Copy)]
pub struct Callee {
    pub start: u32,
    pub slots: u32,
    pub entrance: Entrance,
    pub quick: Quick,
}

impl Machine {
    /// The task ends with a word, by the type of its answer. No code ends so where several parts are due.
    pub(crate) fn answers(&mut self, word: u64)
        ensures { self.new ≡ doing self.old (Over (word_answer self.old.result word)) }
    {
        match self.result {
            AnswerType::One(Ty::Whole) => self.doing = Doing::Over(End::Whole(word.cast_signed())),
            AnswerType::One(Ty::Truth) => self.doing = Doing::Over(End::Truth(word != 0)),
            AnswerType::One(Ty::Tree(_)) => self.doing = Doing::Over(End::At(word)),
            AnswerType::Parts => self.doing = Doing::Over(End::NoValue(Reason::Deep)),
        }
    }

    /// Goes on at the join of the newest `par` whose left side runs, or ends: the task has no value.
    #[tactic(auto, using(crate::proofs::Unwinds::unwound_none, crate::proofs::Unwinds::unwound_some))]
    pub(crate) fn unwinds(&mut self, why: Reason)
        ensures { (ts : List ℕ) → with_tails self.new ts ≡ unwound why (with_tails self.old ts) self.old.pars }
    {
        match self.openings.unwind() {
            None => self.doing = Doing::Over(End::NoValue(why)),
            Some(join) => {
                self.ip = join;
                self.doing = Doing::Unwinding(why);
            }
        }
    }

    /// A call. `M` is the memory and `A` the word that is answered, or nothing. Neither is used: by their names each instruction has a call of its own,
    /// which is compiled into the step.
    #[tactic(auto, using(crate::proofs::Steps::slots_widest))]
    pub(crate) fn exec_call<M, A>(
        &mut self,
        code: &Code,
        function: u32,
        arguments: &[Operand],
        answer: Option<u32>,
    )
        requires next { self.old.ip + 1 < 2 ^ 32 }
        requires made { self.old.width ≡ widest code.now.functions }
        ensures { (ts : List ℕ) → with_tails self.new ts ≡ called code.now (with_tails self.old ts) function (words self.old.words arguments.now) answer self.old.depth }
    {
        if self.frames.is_full() {
            self.unwinds(Reason::Deep);
        } else {
            let start = start_of(code, function);
            let slots = slots_of(code, function);
            let back = self.ip + 1;
            self.went_to(start);
            self.frames.enter::<M, A>(slots, arguments, back, answer);
        }
    }

    pub(crate) fn exec_return(&mut self) -> Turn
        ensures state { self.new ≡ returned self.old self.old.frames }
        ensures turn { result ≡ turns.Went }
    {
        if self.frames.is_first() {
            self.doing = Doing::Over(End::At(self.openings.start()));
        } else {
            let (back, _) = self.frames.leave();
            self.went_to(back);
        }
        Turn::Went
    }

    pub(crate) fn exec_give(&mut self, from: Operand) -> Turn
        ensures state { self.new ≡ gives self.old self.old.frames (word self.old.words from) }
        ensures turn { result ≡ turns.Went }
    {
        let word = self.frames.word(from);
        if self.frames.is_first() {
            self.answers(word);
        } else {
            let (back, answer) = self.frames.leave();
            self.went_to(back);
            if let Some(to) = answer {
                self.frames.set(to, word);
            }
        }
        Turn::Went
    }
}

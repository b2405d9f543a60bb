//! What a frame was made for, and the rule of the slot in which its answer lies.

ghost use Rattle.gib_frame.specs.Slot.{OneSlot, Sat, Took, Gave};

use atomic_table::{Play, TableRule};
use gib_arena::Pass;
use gib_code::{Answer, Side};
use gib_core::Lowered;
use std::snapshot::Snapshot;

/// What a frame was made for: the code, the side that is run, and the pass that was split for it. It has no bytes.
#[derive(Drop)]
pub struct Due {
    pub lowered: Snapshot<Lowered>,
    pub side: Snapshot<Side>,
    pub pass: Snapshot<Pass>,
}

/// How a task ended.
#[derive(Clone, Copy, PartialEq, Eq)]
pub enum Ending {
    /// Its side has this answer.
    Answer(Answer),
    /// All chunks were drawn.
    Full,
    /// Who stole it had no room for it: its side is still to be run, by whoever waits. Never, where the thief's machine was made for the
    /// same run.
    NotRun,
}

/// What comes to a frame: how its task ended, and the pass of that task.
#[derive(Drop)]
pub struct Given {
    pub ending: Ending,
    pub pass: Pass,
}

/// The rule of the one slot in which an answer lies.
pub struct OneAnswer;

impl TableRule<Option<Given>, Due, Due> for OneAnswer {
    ghost holds = { OneSlot };

    ghost first = { λ due. due };
}

/// A thread comes to the slot.
pub struct Sit;

impl Play<Option<Given>, Due> for Sit {
    ghost then = { Sat };
}

/// A thread takes the slot, where it is as the thread expects it.
pub struct Take;

impl Play<Option<Given>, Due> for Take {
    ghost then = { Took };
}

/// A thread gives the slot back.
pub struct Give;

impl Play<Option<Given>, Due> for Give {
    ghost then = { Gave };
}

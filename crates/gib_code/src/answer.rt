//! What a run answers, and where the right side of a `par` begins.

use crate::instruction::{AnswerType, Kind, Targets};
use gib_types::Reason;
use std::alloc::Global;

/// What a run ends with.
#[derive(Clone, Copy, PartialEq, Eq)]
pub enum Answer {
    /// A number.
    Whole(i64),
    /// A truth value.
    Truth(bool),
    /// The address at which a packed value begins.
    At(u64),
    /// Several parts in declared order: the words of scalars and the addresses at which packed values begin; 0 behind them.
    Parts([u64; 8]),
    /// None.
    NoValue(Reason),
}

/// A right side that waits for a machine.
#[derive(Drop)]
pub struct Side {
    /// The label of its first instruction.
    pub start: u32,
    /// The slots of the frame that it begins with.
    pub words: Vec<u64>,
    /// The ends of their values, as many; 0 where one is not known.
    pub ends: Vec<u64>,
    /// How many calls it may still nest.
    pub depth: u32,
    /// How many forks it may still nest.
    pub level: u32,
    /// Where its value is put.
    pub kind: Kind,
    /// The slots that its value sets.
    pub targets: Targets,
    /// The type of its value.
    pub result: AnswerType,
}

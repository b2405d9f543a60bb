//! The events of a weave.

/// What may happen next, each to the task of a number.
#[derive(Clone, Copy, PartialEq, Eq)]
pub enum Event {
    /// It makes a micro-step.
    Step(u32),
    /// Its left side starts, and its right side waits.
    Fork(u32),
    /// Its oldest right side that waits becomes a task of its own.
    Steal(u32),
    /// It takes its newest right side back, which waits.
    Take(u32),
    /// It has ended, and its answer is set.
    Finish(u32),
    /// It takes the answer of its newest right side's task.
    Join(u32),
}

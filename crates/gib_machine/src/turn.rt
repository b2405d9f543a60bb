//! What a micro-step did.

/// What a micro-step did.
#[derive(Clone, Copy, PartialEq, Eq)]
pub enum Turn {
    /// One memory action, or none where the instruction has none.
    Went,
    /// Nothing: the machine stands at a fork.
    AtFork,
    /// Nothing: the machine stands at a join.
    AtJoin,
    /// Nothing: the machine has ended. What with is not told here, since an answer is long, and each step tells its turn.
    Ended,
    /// Nothing: it draws, and all chunks are drawn.
    Full,
}

//! How a run reaches the fields of a value.

/// How the packed fields behind the first one of a constructor are reached, in all arms of a program.
#[derive(Clone, Copy, PartialEq, Eq)]
pub enum FieldAccess {
    /// At the end of the field before, where a call tells that; else by an offset that the head stores.
    Ends,
    /// By a walk over the field before.
    Skips,
}

//! What stands for a value.

/// A scalar itself, or the address at which a constructor stands in region memory.
#[derive(Clone, Copy, PartialEq, Eq)]
pub enum Root {
    Whole(i64),
    Truth(bool),
    At(u64),
}

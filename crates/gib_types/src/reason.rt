//! Why a program has no value.

/// Why an evaluation, of whatever kind, ends without a value.
#[derive(Clone, Copy, PartialEq, Eq)]
pub enum Reason {
    /// A call had no depth left.
    Deep,
    /// A division by 0.
    Trap,
}

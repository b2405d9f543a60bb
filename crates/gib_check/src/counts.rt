//! How many variables and expressions of a function were met.

/// Counts of one function so far: its variables, the parameters among them, and its expressions.
#[derive(Clone, Copy, PartialEq, Eq)]
pub struct Counts {
    pub variables: u32,
    pub expressions: u32,
}

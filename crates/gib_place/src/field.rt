//! Packed fields that point to values.

use gib_core::{Atom, Variable};
use gib_types::Ty;

/// A packed field that points to a value, which may be built in its place instead.
#[derive(Clone, Copy)]
pub struct Field {
    pub variable: Variable,
    pub ty: Ty,
    /// The value that it points to.
    pub target: Atom,
}

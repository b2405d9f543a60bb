//! What walks over terms keep of variables.

use crate::atom::{Atom, Variable};
use gib_base::Name;
use gib_types::{ConId, Ty};

/// What a name of the source became: an atom, with its type.
#[derive(Clone, Copy)]
pub struct Slot {
    pub name: Name,
    pub atom: Atom,
    pub ty: Ty,
}

/// A variable that was bound, with its type.
#[derive(Clone, Copy)]
pub struct Bound {
    pub variable: Variable,
    pub ty: Ty,
}

/// What a packed field of an arm, from the second one on, stands behind: the field directly before it, in
/// a head of the constructor.
#[derive(Clone, Copy)]
pub struct Behind {
    pub constructor: ConId,
    pub before: Variable,
}

/// A variable in scope: whether it is reached, and where it is a field what it stands behind.
#[derive(Clone, Copy)]
pub struct Known {
    pub variable: Variable,
    pub reached: bool,
    pub behind: Option<Behind>,
}

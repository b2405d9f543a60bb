//! What the walk reads.

ghost use Rattle.std.specs.Prelude.{◌≡◌};
ghost use Rattle.gib_core.specs.Reaching.{in_par as in_sides};

use gib_core::{AccessMode, EndedSet, Terms};
use gib_types::TypeTable;
use std::alloc::Global;

/// The terms whose fields are reached, the types that they are of, how the fields are reached, and the parameters that are
/// ended.
#[derive(Clone, Copy)]
pub struct Source<'a> {
    pub alloc: Global,
    pub mode: AccessMode,
    pub types: &'a TypeTable,
    pub terms: &'a Terms,
    pub ended: &'a EndedSet,
}

/// How fields are reached in the sides of a `par`, which tell no ends.
pub fn in_par(mode: AccessMode) -> AccessMode
    ensures { result ≡ in_sides mode }
{
    match mode {
        AccessMode::Skips => AccessMode::Skips,
        AccessMode::Offsets => AccessMode::Offsets,
        AccessMode::Ends => AccessMode::Offsets,
    }
}

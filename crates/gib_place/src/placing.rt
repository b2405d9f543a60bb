//! What the walk that places fields reads, and what it keeps.

ghost use Rattle.std.specs.Prelude.{◌≡◌, []};

use gib_core::{Clock, Tally, Terms};
use std::alloc::Global;

/// The terms whose fields are placed, and how often their body uses its variables.
#[derive(Clone, Copy)]
pub struct Placing<'a> {
    pub alloc: Global,
    pub once: &'a Tally,
    pub terms: &'a Terms,
}

/// The terms so far, and when variables were bound.
#[derive(Drop)]
pub struct Scratch {
    pub terms: Terms,
    pub times: Clock,
}

impl Scratch {
    /// No terms, and nothing was bound.
    pub fn new(alloc: Global) -> Scratch
        ensures { result.terms ≡ [] }
    {
        Scratch {
            terms: Terms::new(alloc),
            times: Clock::new(alloc),
        }
    }
}

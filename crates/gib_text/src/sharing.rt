//! What all parts of a text share.

ghost use Rattle.std.specs.Prelude.{◌≡◌};

use gib_arena::Arena;
use gib_base::Texts;
use gib_print::Printing;
use gib_types::Layouts;
use std::alloc::Global;

/// What all parts of a text share.
#[derive(Clone, Copy)]
pub(crate) struct Sharing<'a> {
    pub(crate) arena: &'a Arena,
    pub(crate) printing: Printing<'a>,
    /// How many workers make it.
    pub(crate) workers: u32,
}

impl<'a> Sharing<'a> {
    /// What parts share that have this.
    pub(crate) fn of(
        alloc: Global,
        arena: &'a Arena,
        layouts: &'a Layouts,
        names: &'a Texts,
        workers: u32,
    ) -> Sharing<'a>
        ensures arena { result.arena.now ≡ arena.now }
        ensures layouts { result.printing.layouts.now ≡ layouts.now }
        ensures names { result.printing.names.now ≡ names.now }
    {
        let printing = Printing {
            alloc,
            layouts,
            names,
        };
        Sharing {
            arena,
            printing,
            workers,
        }
    }
}

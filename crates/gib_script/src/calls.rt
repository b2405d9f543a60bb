//! Calls of a shelf and of a sink, each as one step of a script.

ghost use Rattle.gib_script.specs.Script.{IsRead, IsPut};

use gib_edge::outside::{Failed, Shelf, ShelfFault, Sink, put_all};
use std::alloc::Global;

/// The bytes of a file, or the first `most` of them.
pub fn read_file<S: Shelf>(
    alloc: Global,
    shelf: &mut S,
    name: &str,
    most: u64,
) -> Result<Vec<u8>, ShelfFault>
    ensures { IsRead name.now most (S.view shelf.old) (S.view shelf.new) result }
{
    match shelf.read(alloc, name, most) {
        Ok(bytes) => Ok(bytes),
        Err(ShelfFault::Failed) => Err(ShelfFault::Failed),
        Err(ShelfFault::Memory) => Err(ShelfFault::Memory),
    }
}

/// Puts these bytes, or a front of them and fails.
pub fn put_bytes<O: Sink>(out: &mut O, bytes: &[u8]) -> Result<(), Failed>
    ensures { IsPut bytes.now (O.view out.old) (O.view out.new) result }
{
    match put_all(out, bytes) {
        Ok(()) => Ok(()),
        Err(fault) => Err(fault),
    }
}

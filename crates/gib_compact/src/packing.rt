//! What all parts of a packing share.

ghost use Rattle.std.specs.Prelude.{◌≡◌, ◌≤◌, ◌+◌, ◌++◌, length, IfOk};
ghost use Rattle.gib_file.specs.Framed.{header2};

use gib_arena::Arena;
use gib_base::Memory;
use gib_types::Layouts;
use std::alloc::Global;

/// How many bytes a file may have.
pub(crate) const MOST_BYTES: u64 = 16_777_216;

/// How many bytes a header has.
pub(crate) const HEADER_BYTES: u64 = 24;

/// What all parts of a packing share.
#[derive(Clone, Copy)]
pub(crate) struct Packing<'a> {
    pub(crate) alloc: Global,
    pub(crate) arena: &'a Arena,
    pub(crate) layouts: &'a Layouts,
    /// How many bytes the payload may have.
    pub(crate) most: u64,
}

impl<'a> Packing<'a> {
    /// These fields as one: a closure takes them apart and puts them together again.
    pub(crate) fn of(
        alloc: Global,
        arena: &'a Arena,
        layouts: &'a Layouts,
        most: u64,
    ) -> Packing<'a>
        ensures arena { result.arena.now ≡ arena.now }
        ensures layouts { result.layouts.now ≡ layouts.now }
        ensures most { result.most ≡ most }
    {
        Packing {
            alloc,
            arena,
            layouts,
            most,
        }
    }
}

/// The file's header and its description, in front of a payload of so many bytes, for which there is room.
pub(crate) fn head(alloc: Global, description: &[u8], payload: u64) -> Result<Vec<u8>, Memory>
    requires { length description.now + payload ≤ MOST_BYTES }
    ensures { IfOk result (λ out. out.items ≡ header2 (length description.entry.now) payload ++ description.entry.now) }
{
    let len = description.len() as u64;
    let mut out = Vec::with_capacity(alloc, (HEADER_BYTES + len + payload) as usize)?;
    out.extend_from_slice(b"GIBP\x02\0\0\0")?;
    out.extend_from_slice(&payload.to_le_bytes())?;
    out.extend_from_slice(&len.to_le_bytes())?;
    out.extend_from_slice(description)?;
    Ok(out)
}

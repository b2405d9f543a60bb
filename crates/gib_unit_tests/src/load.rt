//! Memory where loading ends for want of chunks; what is loaded whole stands in `examples/rows`, by images.

ghost use Rattle.std.specs.Prelude.{◌≡◌, true, IfOk};

use crate::bytes::{packed, repeated};
use crate::sample::mixed;
use gib_base::Memory;
use gib_file::{Survey, read_header, survey};
use gib_load::{LoadFault, load};
use gib_mem::{Mem, PlainMem};
use gib_packed::Root;
use gib_region::Tails;
use gib_types::{Layouts, Ty, TyId, TypeTable};
use std::alloc::{AllocError, Global};
use std::test::*;

/// The survey of a packed file.
fn surveyed<'a>(
    alloc: Global,
    types: &'a TypeTable,
    ty: Ty,
    file: &'a [u8],
) -> Result<Survey<'a>, Fail>
    ensures { IfOk result (λ survey. survey.table ≡ types.now) }
{
    let header = read_header(file).map_err(|_| "header")?;
    let survey = survey(alloc, types, ty, header).map_err(|_| "payload")?;
    Ok(survey)
}

/// What loading the value of a payload into a memory answers.
fn load_payload(
    alloc: Global,
    ty: Ty,
    payload: &[u8],
    mem: &mut PlainMem,
) -> Result<Result<Root, LoadFault>, Fail>
    requires alone { (⟦<PlainMem as Mem>⟧.view mem.old).alone ≡ true }
    requires undrawn { (⟦<PlainMem as Mem>⟧.view mem.old).drawn ≡ 0 }
{
    let types = mixed(alloc)?;
    let layouts = Layouts::make(alloc, &types, &[])?;
    let file = packed(alloc, payload)?;
    let survey = surveyed(alloc, &types, ty, &file)?;
    Ok(load(alloc, &layouts, survey, mem, &mut Tails::new()))
}

/// The bytes of drawn chunks, at most so many.
fn look(alloc: Global, mem: &mut PlainMem, count: u64) -> Result<Vec<u8>, Memory> {
    let mut bytes = Vec::new(alloc);
    for at in 0..count {
        if at < 4096 * mem.chunks() as u64 {
            mem.owns_all();
            bytes.push(mem.look(at))?;
        }
    }
    Ok(bytes)
}

/// Whether loading a payload ends for want of chunks, of which there are so many, and leaves these bytes in their front.
fn ends_full(
    alloc: Global,
    ty: Ty,
    payload: &[u8],
    chunks: u32,
    want: &[u8],
) -> Result<bool, Fail> {
    let mut mem = PlainMem::make(alloc, chunks)?;
    let answer = load_payload(alloc, ty, payload, &mut mem)?;
    let bytes = look(alloc, &mut mem, 5_000)?;
    Ok(answer == Err(LoadFault::Full) && bytes.as_slice() == want)
}

/// As many cells of a list as a chunk takes, and these bytes.
fn cells(alloc: Global, end: &[u8]) -> Result<Vec<u8>, AllocError> {
    repeated(alloc, b"\x05\x07\0\0\0\0\0\0\0", 454, end)
}

#[test]
fn loading_ends_where_all_chunks_are_drawn(rt: HostRuntime) -> Result<(), Fail> {
    let list = cells(rt.alloc(), b"\x05\x07\0\0\0\0\0\0\0\x04")?;
    let want = cells(rt.alloc(), b"\0\0\0\0\0\0\0\0\0\0")?;
    assert!(rt; ends_full(rt.alloc(), Ty::Tree(TyId(3)), &list, 1, &want)?);
    assert!(rt; ends_full(rt.alloc(), Ty::Tree(TyId(2)), b"\x03\x01", 0, b"")?);
    Ok(())
}

//! Regions in memory of one owner.

ghost use Rattle.std.specs.Prelude.{◌≡◌, length};

use gib_base::Memory;
use gib_mem::{Mem, PlainMem};
use gib_region::{Full, Tails, begin, fill, finish, point, reserve};
use std::alloc::Global;
use std::test::*;

// Places an item and an indirection to it in a region of its own: the item's place, the indirection's, and where the
// region ends.
fn place_two<M: Mem>(mem: &mut M, bytes: &[u8]) -> Result<(u64, u64, u64), Full>
    requires { length bytes.now ≡ 65 }
{
    let mut tails = Tails::new();
    let mut cursor = match begin(mem, &mut tails) {
        Ok(cursor) => cursor,
        Err(full) => return Err(full),
    };
    let item = match reserve(&mut cursor, mem, 65) {
        Ok(at) => at,
        Err(full) => return Err(full),
    };
    fill(mem, item, bytes);
    let to_item = match point(&mut cursor, mem, item) {
        Ok(at) => at,
        Err(full) => return Err(full),
    };
    let end = cursor.place();
    finish(cursor, &mut tails);
    Ok((item, to_item, end))
}

/// The bytes of the second item, or zeros where no chunk is drawn.
fn second(mem: &mut PlainMem) -> [u8; 9] {
    let mut bytes = [0u8; 9];
    for i in 0..9 {
        let at = 65 + i as u64;
        if at < 4096 * mem.chunks() as u64 {
            mem.owns_all();
            bytes[i] = mem.look(at);
        }
    }
    bytes
}

/// Where two items stand in a memory of so many chunks, and the bytes of the second one.
fn placed(alloc: Global, chunks: u32) -> Result<(Result<(u64, u64, u64), Full>, [u8; 9]), Memory> {
    let mut mem = PlainMem::make(alloc, chunks)?;
    let places = place_two(&mut mem, &[7; 65]);
    Ok((places, second(&mut mem)))
}

#[test]
fn items_stand_one_behind_another(rt: HostRuntime) -> Result<(), Fail> {
    let alloc = rt.alloc();
    assert!(rt; placed(alloc, 1)? == (Ok((0, 65, 74)), *b"\xfe\0\0\0\0\0\0\0\0"));
    assert!(rt; placed(alloc, 0)? == (Err(Full), [0; 9]));
    Ok(())
}

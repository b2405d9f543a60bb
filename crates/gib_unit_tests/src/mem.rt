//! Memory of one owner, each call once.

use gib_base::Memory;
use gib_mem::{Mem, PlainMem};
use std::alloc::Global;
use std::test::*;

// Draws a chunk, puts a byte at its last address but one, and reads there and behind: the chunk's number, the byte as
// it is got and as it is looked at, and what is looked at behind it.
fn draw_and_put<M: Mem>(mem: &mut M, byte: u8) -> Option<(u32, u8, u8, u8)> {
    match mem.draw() {
        None => None,
        Some(chunk) => {
            let at = 4096 * chunk as u64 + 4094;
            mem.put(at, byte);
            Some((chunk, mem.get(at), mem.look(at), mem.look(at + 1)))
        }
    }
}

/// Whether two chunks are drawn and written, and no third one.
fn draws_two(alloc: Global) -> Result<bool, Memory> {
    let mut mem = PlainMem::make(alloc, 2)?;
    let first = draw_and_put(&mut mem, 7);
    let second = draw_and_put(&mut mem, 8);
    let third = draw_and_put(&mut mem, 9);
    let drawn = (first, second, third);
    Ok(drawn == (Some((0, 7, 7, 0)), Some((1, 8, 8, 0)), None) && mem.chunks() == 2)
}

/// Whether a memory of no chunks has none.
fn draws_none(alloc: Global) -> Result<bool, Memory> {
    let mut mem = PlainMem::make(alloc, 0)?;
    Ok(mem.chunks() == 0 && mem.draw() == None)
}

#[test]
fn chunks_are_drawn_and_bytes_kept(rt: HostRuntime) -> Result<(), Fail> {
    assert!(rt; draws_two(rt.alloc())?);
    assert!(rt; draws_none(rt.alloc())?);
    // A byte of memory takes two.
    assert!(rt; std::mem::size_of::<Option<u8>>() == 2);
    Ok(())
}

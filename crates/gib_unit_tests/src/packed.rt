//! Readers over bytes that were put by hand.

ghost use Rattle.std.specs.Prelude.{◌≡◌, ◌≤◌, ℕ, length, IfOk};
ghost use Rattle.gib_mem.specs.Memory.{Holds, Owned};
ghost use Rattle.gib_packed.specs.Example.{bytes as example_bytes, laid, IsPlace};

use crate::example::make_types;
use gib_base::Memory;
use gib_mem::{Mem, PlainMem};
use gib_packed::read::*;
use gib_types::Layouts;
use std::alloc::Global;
use std::test::*;

// Puts these bytes from address 0 on.
fn fill<M: Mem>(mem: &mut M, bytes: &[u8])
    requires few { length bytes.now ≤ 4096 }
    requires owned { Owned (M.view mem.old).cells 0 4096 }
    ensures { Holds (M.view mem.new).cells 0 bytes.now }
{
    let mut i = 0;
    'bytes: while i < bytes.len() {
        mem.put(i as u64, bytes[i]);
        i += 1;
    }
}

// Memory of one chunk, in which these bytes were put.
fn filled(alloc: Global, bytes: &[u8]) -> Result<PlainMem, Fail>
    requires { length bytes.now ≤ 4096 }
    ensures { IfOk result (λ mem. Holds (⟦<PlainMem as Mem>⟧.view mem).cells 0 bytes.now) }
{
    let mut mem = PlainMem::make(alloc, 1)?;
    if mem.draw().is_none() {
        return Err("no chunk".into());
    }
    fill(&mut mem, bytes);
    Ok(mem)
}

// The bytes of the example.
fn example(alloc: Global) -> Result<PlainMem, Fail>
    ensures { IfOk result (λ mem. Holds (⟦<PlainMem as Mem>⟧.view mem).cells 0 example_bytes) }
{
    let bytes = [
        255, 28, 0, 0, 0, 0, 0, 0, 0, 254, 0, 0, 0, 0, 0, 0, 0, 0, 2, 1, 254, 255, 255, 255, 255,
        255, 255, 255, 1, 2, 1, 0, 0, 0, 0, 0, 0, 0, 254, 9, 0, 0, 0, 0, 0, 0, 0,
    ];
    let mem = filled(alloc, &bytes)?;
    Ok(mem)
}

// The tag at a place of the example, where redirects lead, where the head stands, and where the value ends.
fn read_at<M: Mem>(mem: &mut M, layouts: &Layouts, at: u64) -> (u8, u64, u64, u64)
    requires bytes { Holds (M.view mem.old).cells 0 example_bytes }
    requires laid { layouts.now ≡ laid }
    requires place { IsPlace at }
{
    let tag = tag_at(mem, at);
    let place = pass_redirects(mem, at);
    let head = follow(mem, at);
    let end = skip(mem, layouts, at);
    (tag, place, head, end)
}

// The scalars of the example's heads, and an address.
fn read_scalars<M: Mem>(mem: &mut M) -> (bool, i64, i64, u64)
    requires { Holds (M.view mem.old).cells 0 example_bytes }
{
    let truth = truth_at(mem, 19);
    let below = whole_at(mem, 20);
    let above = whole_at(mem, 29);
    let address = word_at(mem, 39);
    (truth, below, above, address)
}

// How the example is laid out.
fn layouts(alloc: Global) -> Result<Layouts, Memory>
    ensures { IfOk result (λ layouts. layouts ≡ laid) }
{
    let types = make_types(alloc)?;
    let layouts = Layouts::make(alloc, &types, &[])?;
    Ok(layouts)
}

// What `read_at` gives in a memory of its own.
fn reads(alloc: Global, at: u64) -> Result<(u8, u64, u64, u64), Fail>
    requires { IsPlace at }
{
    let layouts = layouts(alloc)?;
    let mut mem = example(alloc)?;
    let read = read_at(&mut mem, &layouts, at);
    Ok(read)
}

#[test]
fn heads_redirects_and_indirections_are_read(rt: HostRuntime) -> Result<(), Fail> {
    let alloc = rt.alloc();
    assert!(rt; reads(alloc, 0)? == (255, 28, 28, 38));
    assert!(rt; reads(alloc, 9)? == (254, 9, 28, 18));
    assert!(rt; reads(alloc, 18)? == (2, 18, 18, 47));
    assert!(rt; reads(alloc, 28)? == (1, 28, 28, 38));
    assert!(rt; reads(alloc, 37)? == (0, 37, 37, 38));
    assert!(rt; reads(alloc, 38)? == (254, 38, 28, 47));
    Ok(())
}

#[test]
fn scalars_are_read(rt: HostRuntime) -> Result<(), Fail> {
    let mut mem = example(rt.alloc())?;
    assert!(rt; read_scalars(&mut mem) == (true, -2, 258, 9));
    Ok(())
}

//! Values that were put by hand are printed, and images of them written; images that are read stand in `examples/rows`.

ghost use Rattle.std.specs.Prelude.{◌≡◌, ◌≤◌, ◌^◌, ◌+◌, [], length, true, IsTrue, IfOk, OnOk};
ghost use Rattle.gib_mem.specs.{Memory.{Owned, after_puts}, Plain.{nothing}};
ghost use Rattle.gib_packed.specs.Example.{table as example_table, laid};
ghost use Rattle.gib_base.specs.Texts.{plain_texts};
ghost use Rattle.gib_print.specs.Example.{names as example_names};

use crate::bytes::push_times;
use crate::example::make_types;
use gib_base::{Memory, NameFault, Names, Texts};
use gib_edge::mem_sink::MemSink;
use gib_mem::{Mem, PlainMem};
use gib_packed::Root;
use gib_print::{PrintFault, image, print_at};
use gib_types::{Layouts, TypeTable};
use std::alloc::Global;
use std::test::*;

// At 0 a redirect to 28, at 9 an indirection to 0, at 18 (Node True (Cons 258 Nil) -2 (Cons 258 Nil)) with its first
// packed field at 28 and an indirection to 9 as its second one at 38.
const EXAMPLE: &[u8] =
    b"\xff\x1c\0\0\0\0\0\0\0\xfe\0\0\0\0\0\0\0\0\x02\x01\xfe\xff\xff\xff\xff\xff\xff\xff\x01\x02\x01\0\0\0\0\0\0\x00\xfe\x09\0\0\0\0\0\0\0";

// Names the type and its constructors.
fn intern_all(alloc: Global, names: &mut Names) -> Result<(), NameFault>
    requires { names.old ≡ [] }
    ensures { OnOk result (names.new ≡ example_names) }
{
    names.intern(alloc, b"T")?;
    names.intern(alloc, b"Nil")?;
    names.intern(alloc, b"Cons")?;
    names.intern(alloc, b"Node")?;
    Ok(())
}

fn make_names(alloc: Global) -> Result<Texts, NameFault>
    ensures { IfOk result (λ names. names ≡ plain_texts example_names) }
{
    let mut names = Names::make(alloc)?;
    intern_all(alloc, &mut names)?;
    Ok(Texts::new(alloc, names))
}

// Whether both chunks of a memory were drawn.
fn draw_both<M: Mem>(mem: &mut M) -> bool
    requires { M.view mem.old ≡ nothing 2 }
    ensures { IsTrue result → Owned (M.view mem.new).cells 0 8192 }
{
    if mem.draw().is_none() {
        return false;
    }
    mem.draw().is_some()
}

// Puts these bytes from an address on.
fn put<M: Mem>(mem: &mut M, at: u64, bytes: &[u8])
    requires small { at + length bytes.now ≤ 2 ^ 44 }
    requires owned { Owned (M.view mem.old).cells at (length bytes.now) }
    ensures { M.view mem.new ≡ after_puts (M.view mem.old) at bytes.now }
{
    'bytes: for i in 0..bytes.len() {
        mem.put(at + i as u64, bytes[i]);
    }
}

// Puts values with redirects and indirections among them, and prints one and two scalars.
fn print_values<M: Mem>(
    alloc: Global,
    mem: &mut M,
    types: &TypeTable,
    names: &Texts,
    layouts: &Layouts,
    sink: &mut MemSink,
) -> Result<(), PrintFault>
    requires types { types.now ≡ example_table }
    requires owned { Owned (M.view mem.old).cells 0 8192 }
    requires names { names.now.short ≡ example_names }
    requires laid { layouts.now ≡ laid }
{
    put(mem, 0, EXAMPLE);
    print_at(alloc, mem, types, names, layouts, Root::At(18), sink)?;
    print_at(alloc, mem, types, names, layouts, Root::Whole(-7), sink)?;
    print_at(alloc, mem, types, names, layouts, Root::Truth(true), sink)
}

// A memory whose two chunks are drawn.
fn drawn(alloc: Global) -> Result<PlainMem, Fail>
    ensures { IfOk result (λ mem. Owned (⟦<PlainMem as Mem>⟧.view mem).cells 0 8192) }
{
    let mut mem = PlainMem::make(alloc, 2)?;
    if !draw_both(&mut mem) {
        return Err("chunks".into());
    }
    Ok(mem)
}

// How the example is laid out.
fn layouts(alloc: Global, types: &TypeTable) -> Result<Layouts, Memory>
    requires { types.now ≡ example_table }
    ensures { IfOk result (λ layouts. layouts ≡ laid) }
{
    let layouts = Layouts::make(alloc, types, &[])?;
    Ok(layouts)
}

const PRINTED: &[u8] = b"(Node True (Cons 258 Nil) -2 (Cons 258 Nil))\n-7\nTrue\n";

/// What is printed of the values, where the names are found.
fn prints(alloc: Global, names: &Texts) -> Result<bool, Fail>
    requires { names.now.short ≡ example_names }
{
    let types = make_types(alloc)?;
    let layouts = layouts(alloc, &types)?;
    let mut mem = drawn(alloc)?;
    let mut sink = MemSink::make(alloc, 8192, Vec::new(alloc))?;
    let answer = print_values(alloc, &mut mem, &types, names, &layouts, &mut sink);
    Ok(answer == Ok(()) && sink.bytes() == PRINTED)
}

#[test]
fn values_are_printed_each_with_a_line_feed(rt: HostRuntime) -> Result<(), Fail> {
    let Ok(names) = make_names(rt.alloc()) else {
        return Err("names".into());
    };
    assert!(rt; prints(rt.alloc(), &names)?);
    Ok(())
}

// The image of two chunks in which the example stands from 0 on, with this root.
fn image_with(alloc: Global, root: Root) -> Result<Vec<u8>, Fail> {
    let mut mem = drawn(alloc)?;
    put(&mut mem, 0, EXAMPLE);
    mem.owns_all();
    let bytes = image(alloc, &mut mem, root)?;
    Ok(bytes)
}

// Whether the image begins with this header, has the example behind it, and zeros to the end of both chunks.
fn is_image(alloc: Global, root: Root, header: &[u8; 24]) -> Result<bool, Fail> {
    let mut want = Vec::from_slice(alloc, header)?;
    want.extend_from_slice(EXAMPLE)?;
    push_times(&mut want, b"\0", 8145)?;
    let image = image_with(alloc, root)?;
    Ok(image == want)
}

/// Roots, and the headers of their images.
const HEADERS: [(Root, &[u8; 24]); 3] = [
    (
        Root::At(18),
        b"GIBI\x01\x02\0\0\x12\0\0\0\0\0\0\0\x02\0\0\0\0\0\0\0",
    ),
    (
        Root::Whole(-7),
        b"GIBI\x01\0\0\0\xf9\xff\xff\xff\xff\xff\xff\xff\x02\0\0\0\0\0\0\0",
    ),
    (
        Root::Truth(true),
        b"GIBI\x01\x01\0\0\x01\0\0\0\0\0\0\0\x02\0\0\0\0\0\0\0",
    ),
];

#[test]
fn an_image_has_its_header_and_all_drawn_chunks(rt: HostRuntime) -> Result<(), Fail> {
    for (root, header) in &HEADERS {
        assert!(rt; is_image(rt.alloc(), *root, header)?);
    }
    Ok(())
}

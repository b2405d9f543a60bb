//! Texts of values of a program's types, read, packed and written. The values are those of a second
//! implementation.

ghost use Rattle.gib_syntax.specs.Parts.{program_of};
ghost use Rattle.gib_types.specs.Tree.{IsTyped};
ghost use Rattle.gib_value.specs.Text.{AreHeld};
ghost use Rattle.gib_app.specs.Stops.{IsReady};

use crate::programs::compile;
use gib_app::compile::Compiled;
use gib_base::{Memory, Texts};
use gib_file::pack;
use gib_types::{Ty, TyId, TypeTable};
use gib_unit_tests::bytes::{packed, push_times};
use gib_value::{TextFault, Value, read_text, write_text};
use std::alloc::{AllocError, Global};
use std::test::Fail;

const SOURCE: &str =
    "data Tree = Leaf Int | Node Tree Tree ; data P = P Tree Int | Q Bool | R ; data Chain = End | Link Bool Chain ; data Mark = Red | Blue ; main (t : Tree) : Tree = t ;";

const TREE: Ty = Ty::Tree(TyId(0));

const P: Ty = Ty::Tree(TyId(1));

const CHAIN: Ty = Ty::Tree(TyId(2));

const MARK: Ty = Ty::Tree(TyId(3));

/// The text of a copy of a value.
fn write_copy(
    alloc: Global,
    value: &Value,
    types: &TypeTable,
    names: &Texts,
) -> Result<Vec<u8>, Memory>
    requires typed { IsTyped types.now value.now }
    requires names { AreHeld types.now names.now.short }
{
    let copy = value.copy(alloc)?;
    write_text(alloc, types, names, &copy)
}

/// The packed file of the value of a text, and the text of a copy of it.
fn there_and_back(
    alloc: Global,
    compiled: &Compiled,
    ty: Ty,
    text: &[u8],
) -> Result<(Vec<u8>, Vec<u8>), TextFault>
    requires { IsReady (program_of compiled.now.typed) compiled.now.names }
{
    let types = compiled.typed.types();
    let value = read_text(alloc, types, &compiled.names, ty, text)?;
    let file = pack(alloc, types, &compiled.names, &value, 1)?;
    let written = write_copy(alloc, &value, types, &compiled.names)?;
    Ok((file, written))
}

/// Whether the value of a text is packed to this payload, and written as the text that was read.
fn comes_back(alloc: Global, ty: Ty, text: &[u8], payload: &[u8]) -> Result<bool, AllocError> {
    let file = packed(alloc, payload)?;
    let Some(compiled) = compile(alloc, SOURCE) else {
        return Ok(false);
    };
    match there_and_back(alloc, &compiled, ty, text) {
        Ok((made, written)) => Ok(made.as_slice() == file.as_slice() && written.as_slice() == text),
        Err(_) => Ok(false),
    }
}

/// Whether a text is refused with this place.
fn is_refused(alloc: Global, ty: Ty, text: &str, place: u64) -> bool {
    let Some(compiled) = compile(alloc, SOURCE) else {
        return false;
    };
    match there_and_back(alloc, &compiled, ty, text.as_bytes()) {
        Ok(_) => false,
        Err(fault) => fault == TextFault::At(place),
    }
}

/// Texts of values, and the payloads that these are packed to.
const TEXTS: [(Ty, &str, &[u8]); 15] = [
    (
        TREE,
        "(Node (Leaf 1) (Leaf 2))",
        &[1, 0, 1, 0, 0, 0, 0, 0, 0, 0, 0, 2, 0, 0, 0, 0, 0, 0, 0],
    ),
    (
        P,
        "(P (Leaf 5) 7)",
        &[2, 7, 0, 0, 0, 0, 0, 0, 0, 0, 5, 0, 0, 0, 0, 0, 0, 0],
    ),
    (P, "(Q True)", &[3, 1]),
    (P, "R", &[4]),
    (
        Ty::Whole,
        "-9223372036854775808",
        &[0, 0, 0, 0, 0, 0, 0, 128],
    ),
    (Ty::Truth, "False", &[0]),
    (TREE, "(Leaf 1)", &[0, 1, 0, 0, 0, 0, 0, 0, 0]),
    (
        TREE,
        "(Leaf -9223372036854775808)",
        &[0, 0, 0, 0, 0, 0, 0, 0, 128],
    ),
    (
        TREE,
        "(Leaf 9223372036854775807)",
        &[0, 255, 255, 255, 255, 255, 255, 255, 127],
    ),
    (Ty::Whole, "0", &[0, 0, 0, 0, 0, 0, 0, 0]),
    (Ty::Whole, "-7", &[249, 255, 255, 255, 255, 255, 255, 255]),
    (Ty::Truth, "True", &[1]),
    (CHAIN, "End", &[5]),
    (CHAIN, "(Link True (Link False End))", &[6, 1, 6, 0, 5]),
    (MARK, "Blue", &[8]),
];

#[test]
fn texts_come_back(rt: HostRuntime) -> Result<(), Fail> {
    for (ty, text, payload) in &TEXTS {
        assert!(rt;
            comes_back(rt.alloc(), *ty, text.as_bytes(), payload)?,
            "{text}"
        );
    }
    Ok(())
}

/// Texts that are of no value, with the places of their faults.
const REFUSED: [(Ty, &str, u64); 34] = [
    (TREE, "(Node (Leaf 1))", 14),
    (TREE, "(Node (Leaf 1) (Leaf 2)", 23),
    (TREE, "(Leaf 9223372036854775808)", 6),
    (P, "(Leaf 5)", 1),
    (P, "(P 7 (Leaf 5))", 3),
    (P, "(R)", 1),
    (P, "(Q True) ", 8),
    (Ty::Truth, "(Q True)", 0),
    (TREE, "(Leaf 01)", 6),
    (TREE, "(Leaf -0)", 6),
    (TREE, "(Leaf -)", 6),
    (TREE, "(Leaf -9223372036854775809)", 6),
    (TREE, "(Leaf  1)", 6),
    (TREE, "(Leaf1)", 1),
    (TREE, "(Leaf 1", 7),
    (TREE, "(Leaf 1))", 8),
    (TREE, "(Leaf 12a)", 8),
    (TREE, "Leaf 1", 0),
    (TREE, "( Leaf 1)", 1),
    (TREE, "(Node (Leaf 1)(Leaf 2))", 14),
    (TREE, "(End)", 1),
    (TREE, "#", 0),
    (CHAIN, "(End)", 1),
    (CHAIN, "(Link true End)", 6),
    (CHAIN, "(Link True1 End)", 6),
    (CHAIN, "Link", 0),
    (CHAIN, "End\n", 3),
    (CHAIN, "Ende", 0),
    (MARK, "(Red)", 0),
    (MARK, "red", 0),
    (Ty::Whole, "", 0),
    (Ty::Whole, "+1", 0),
    (Ty::Whole, "1 ", 1),
    (Ty::Truth, "(True)", 0),
];

#[test]
fn other_texts_are_refused(rt: HostRuntime) -> Result<(), Fail> {
    for (ty, text, place) in &REFUSED {
        assert!(rt; is_refused(rt.alloc(), *ty, text, *place), "{text}");
    }
    Ok(())
}

/// The text of a chain of so many links.
fn chain(alloc: Global, links: usize) -> Result<Vec<u8>, AllocError> {
    let mut text = Vec::new(alloc);
    push_times(&mut text, b"(Link True ", links)?;
    text.extend_from_slice(b"End")?;
    push_times(&mut text, b")", links)?;
    Ok(text)
}

/// The payload that it is packed to.
fn packed_chain(alloc: Global, links: usize) -> Result<Vec<u8>, AllocError> {
    let mut payload = Vec::new(alloc);
    push_times(&mut payload, b"\x06\x01", links)?;
    payload.push(5)?;
    Ok(payload)
}

#[test]
fn a_million_deep(rt: HostRuntime) -> Result<(), Fail> {
    let text = chain(rt.alloc(), 1_000_000)?;
    let payload = packed_chain(rt.alloc(), 1_000_000)?;
    assert!(rt; comes_back(rt.alloc(), CHAIN, &text, &payload)?);
    Ok(())
}

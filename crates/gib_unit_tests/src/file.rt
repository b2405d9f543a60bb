//! Values of packed files, with how many constructors they have; what is refused stands in `examples/rows`.

ghost use Rattle.std.specs.Prelude.{IfOk};
ghost use Rattle.gib_types.specs.Tree.{IsTyped};

use crate::bytes::{packed, repeated};
use crate::sample::mixed;
use gib_base::{Names, Texts};
use gib_file::{pack, read_header, survey, unpack};
use gib_types::{Ty, TyId, TypeTable};
use gib_value::Value;
use std::alloc::{AllocError, Global};
use std::test::*;

fn value_of(alloc: Global, types: &TypeTable, ty: Ty, file: &[u8]) -> Result<(u64, Value), Fail>
    ensures { IfOk result (λ found. IsTyped types.now found.1) }
{
    let payload = read_header(file).map_err(|_| "header")?;
    let survey = survey(alloc, types, ty, payload).map_err(|_| "payload")?;
    let constructors = survey.constructors();
    Ok((constructors, unpack(alloc, survey)?))
}

/// The packed file of a value.
fn packed_again(alloc: Global, types: &TypeTable, value: &Value) -> Result<Vec<u8>, Fail>
    requires { IsTyped types.now value.now }
{
    let names = Texts::new(alloc, Names::make(alloc)?);
    let file = pack(alloc, types, &names, value, 1)?;
    Ok(file)
}

/// Whether a file has a value of so many constructors, which is packed to it again.
fn comes_back(
    alloc: Global,
    types: &TypeTable,
    ty: Ty,
    file: &[u8],
    count: u64,
) -> Result<bool, Fail> {
    let (constructors, value) = value_of(alloc, types, ty, file)?;
    let again = packed_again(alloc, types, &value)?;
    Ok(constructors == count && again.as_slice() == file)
}

/// The same of a payload.
fn is_read(alloc: Global, ty: Ty, payload: &[u8], count: u64) -> Result<bool, Fail> {
    let types = mixed(alloc)?;
    let file = packed(alloc, payload)?;
    comes_back(alloc, &types, ty, &file, count)
}

const PAYLOADS: [(Ty, &[u8], u64); 6] = [
    // (Node (Leaf 1) (Leaf 2))
    (
        Ty::Tree(TyId(0)),
        b"\x01\x00\x01\0\0\0\0\0\0\0\x00\x02\0\0\0\0\0\0\0",
        3,
    ),
    // (P (Leaf 5) 7)
    (
        Ty::Tree(TyId(1)),
        b"\x02\x07\0\0\0\0\0\0\0\x00\x05\0\0\0\0\0\0\0",
        2,
    ),
    // (B True)
    (Ty::Tree(TyId(2)), b"\x03\x01", 1),
    // (Cons 1 (Cons -1 Nil))
    (
        Ty::Tree(TyId(3)),
        b"\x05\x01\0\0\0\0\0\0\0\x05\xff\xff\xff\xff\xff\xff\xff\xff\x04",
        3,
    ),
    // 9223372036854775807
    (Ty::Whole, b"\xff\xff\xff\xff\xff\xff\xff\x7f", 0),
    // False
    (Ty::Truth, b"\x00", 0),
];

/// The payload of a list of so many cells.
fn list(alloc: Global, cells: usize) -> Result<Vec<u8>, AllocError> {
    let cell = b"\x05\x01\x02\x03\x04\x05\x06\x07\x08";
    repeated(alloc, cell, cells, b"\x04")
}

#[test]
fn files_are_read_and_written_again(rt: HostRuntime) -> Result<(), Fail> {
    for (ty, payload, count) in &PAYLOADS {
        assert!(rt; is_read(rt.alloc(), *ty, payload, *count)?);
    }
    let deep = list(rt.alloc(), 1_864_000)?;
    assert!(rt; is_read(rt.alloc(), Ty::Tree(TyId(3)), &deep, 1_864_001)?);
    Ok(())
}

//! The packed file of the input.

ghost use Rattle.std.specs.Prelude.{◌≡◌, ◌≤◌, ◌<◌, ◌^◌, ◌++◌, length, pos, IfOk, OnOk};
ghost use Rattle.gib_types.specs.Bytes.{number};
ghost use Rattle.gib_file.specs.Framed.{header};
ghost use Rattle.gib_gen.specs.{Made.{next, grown, packed_tree, file_of}, NumberTree.{Leaf}};

use byteorder::{ByteOrder, LittleEndian};
use gib_base::Memory;
use std::alloc::Global;

/// The number that follows a number.
fn next(x: u32) -> u32
    ensures { result ≡ next x }
{
    ((1_103_515_245 * u64::from(x) + 12_345) % 2_147_483_648) as u32
}

/// Writes a leaf with a number.
fn push_leaf(out: &mut Vec<u8>, x: u32) -> Result<(), Memory>
    requires { x < 2 ^ 31 }
    ensures { OnOk result (out.new.items ≡ out.old.items ++ packed_tree (Leaf (pos x))) }
{
    let mut bytes = [0; 8];
    LittleEndian::write_i64(&mut bytes, i64::from(x));
    out.push(0)?;
    out.extend_from_slice(&bytes)?;
    Ok(())
}

/// Writes the full tree of so many levels that grows from a number, and answers the number in its last leaf. This
/// recurses once a level.
#[cycle(trees)]
fn push_tree(out: &mut Vec<u8>, levels: u8, x: u32) -> Result<u32, Memory>
    ensures last { IfOk result (λ last. last ≡ (grown levels x).last) }
    ensures bytes { OnOk result (out.new.items ≡ out.old.items ++ packed_tree (grown levels x).tree) }
{
    if levels == 0 {
        let number = next(x);
        push_leaf(out, number)?;
        return Ok(number);
    }
    out.push(1)?;
    let middle = push_tree(out, levels - 1, x)?;
    let last = push_tree(out, levels - 1, middle)?;
    Ok(last)
}

/// The packed file of the full tree of so many levels that grows from a number.
pub(crate) fn file(alloc: Global, number: u32, levels: u8) -> Result<Vec<u8>, Memory>
    ensures { IfOk result (λ file. file.items ≡ file_of (grown levels number).tree) }
{
    let mut payload = Vec::new(alloc);
    push_tree(&mut payload, levels, number)?;
    let mut len = [0; 8];
    LittleEndian::write_u64(&mut len, payload.len() as u64);
    let mut file = Vec::from_slice(alloc, b"GIBP\x01\0\0\0")?;
    file.extend_from_slice(&len)?;
    file.extend_from_slice(&payload)?;
    Ok(file)
}

//! The packed file of the value of a root in buffers, by several workers.

ghost use Rattle.std.specs.Prelude.{◌≡◌, ◌<◌, ◌≤◌, ◌+◌, ◌^◌, ◌++◌, ◌∷◌, [], ℕ, List, length, IfOk, IsErrOf};
ghost use Rattle.gib_types.specs.{declared.table.Ty.{Ty as Type_of}, Tree.{Datum}};
ghost use Rattle.gib_file.specs.Packed.{tree, packed, number, bit};
ghost use Rattle.gib_arena.specs.Passes.{view, cells, IsOf};
ghost use Rattle.gib_packed.specs.{Decoding.{Dec, Decodes}, Stands.{Stands}};
ghost use Rattle.gib_compact.specs.{Cut.{Cut}, Back.{IsBack}, Gathered.{gathered, with_head}, declared.fault.CompactFault.TheVariants.{Long}};

use crate::cut::cut;
use crate::fault::CompactFault;
use crate::packing::{Packing, head};
use crate::parts::{alone, in_front};
use crate::piece::Piece;
use crate::share::{count_by, write_by};
use crate::write::write_at;
use gib_arena::{ArenaMem, Pass, names_tell};
use gib_base::Memory;
use gib_packed::Root;
use std::thread::Threads;

/// How many parts there are for each worker, so that one with small parts takes more of them.
const PARTS: u64 = 8;

/// The value at an address in pieces.
fn cut_alone(
    packing: Packing<'_>,
    pass: Pass,
    at: u64,
    want: u64,
) -> (Result<Vec<Piece>, Memory>, Pass)
    requires own { IsOf packing.arena.now pass }
    requires value { Decodes packing.layouts.now (cells pass) at }
    ensures cut { (t : ℕ) (v : Datum) (z : ℕ) → Dec packing.entry.layouts.now (cells pass) at t v z
        → IfOk result.0 (λ pieces. Cut packing.entry.layouts.now (cells result.1) pieces.items (tree v)) }
    ensures back { IsBack packing.entry.arena.now pass result.1 }
{
    let mut mem = ArenaMem::make(packing.arena, pass);
    let pieces = cut(packing.alloc, &mut mem, packing.layouts, at, want);
    let (_arena, pass) = mem.into_pass();
    names_tell();
    (pieces, pass)
}

/// The buffers that were made, where there was memory for them.
fn made(parts: Result<Vec<Vec<u8>>, Memory>) -> Result<Vec<Vec<u8>>, CompactFault>
    ensures parts { (bytes : List ℕ) → IfOk parts (λ parts. gathered parts.items ≡ bytes) → IfOk result (λ parts. gathered parts.items ≡ bytes) }
    ensures never { IsErrOf result Long → ⊥ }
{
    Ok(parts?)
}

/// The file of a payload whose bytes are those of pieces, by so many workers, where they are no more than there may be.
fn pieces_by<R: Threads + Sync>(
    rt: &R,
    packing: Packing<'_>,
    pass: Pass,
    pieces: &[Piece],
    description: &[u8],
    workers: u32,
) -> (Result<Vec<Vec<u8>>, CompactFault>, Pass)
    requires own { IsOf packing.arena.now pass }
    requires none_out { (view pass).branch.out ≡ [] }
    requires room { length description.now + packing.most ≤ 16777192 }
    requires cut { (bytes : List ℕ) × Cut packing.layouts.now (cells pass) pieces.now bytes }
    ensures out { (bytes : List ℕ) → Cut packing.entry.layouts.now (cells pass) pieces.entry.now bytes
        → IfOk result.0 (λ parts. (gathered parts.items ≡ with_head description.entry.now (length bytes) bytes) × (length bytes ≤ packing.entry.most)) }
    ensures long { (bytes : List ℕ) → Cut packing.entry.layouts.now (cells pass) pieces.entry.now bytes
        → IsErrOf result.0 Long → packing.entry.most < length bytes }
    ensures back { IsBack packing.entry.arena.now pass result.1 }
{
    let (count, pass) = count_by(rt, packing, pass, pieces, workers);
    match count {
        Err(_) => (Err(CompactFault::Memory), pass),
        Ok(count) => match count {
            None => (Err(CompactFault::Long), pass),
            Some(payload) => match head(packing.alloc, description, payload) {
                Err(_) => (Err(CompactFault::Memory), pass),
                Ok(out) => {
                    let (parts, pass) = write_by(rt, packing, pass, pieces, out, workers);
                    (made(parts), pass)
                }
            },
        },
    }
}

/// The bytes of the value at an address, by one worker in one walk, where they are no more than there may be.
fn write_tree(packing: Packing<'_>, pass: Pass, at: u64) -> (Result<Vec<u8>, CompactFault>, Pass)
    requires own { IsOf packing.arena.now pass }
    requires value { Decodes packing.layouts.now (cells pass) at }
    ensures out { (t : ℕ) (v : Datum) (z : ℕ) → Dec packing.entry.layouts.now (cells pass) at t v z
        → IfOk result.0 (λ payload. (payload.items ≡ tree v) × (length payload.items ≤ packing.entry.most)) }
    ensures long { (t : ℕ) (v : Datum) (z : ℕ) → Dec packing.entry.layouts.now (cells pass) at t v z
        → IsErrOf result.0 Long → packing.entry.most < length (tree v) }
    ensures back { IsBack packing.entry.arena.now pass result.1 }
{
    let mut mem = ArenaMem::make(packing.arena, pass);
    let mut payload = Vec::new(packing.alloc);
    let wrote = write_at(packing, &mut mem, at, &mut payload);
    let (_arena, pass) = mem.into_pass();
    names_tell();
    match wrote {
        Err(fault) => (Err(fault), pass),
        Ok(()) => (Ok(payload), pass),
    }
}

/// A payload behind its header and a description.
fn framed(
    packing: Packing<'_>,
    description: &[u8],
    payload: Vec<u8>,
) -> Result<Vec<Vec<u8>>, Memory>
    requires { length description.now + length payload.items ≤ 16777192 }
    ensures { IfOk result (λ parts. gathered parts.items ≡ with_head description.entry.now (length payload.items) payload.items) }
{
    let front = head(packing.alloc, description, payload.len() as u64);
    in_front(front, alone(packing.alloc, Ok(payload)))
}

/// The file of the value at an address, by one worker, where its payload has no more bytes than there may be.
fn tree_alone(
    packing: Packing<'_>,
    pass: Pass,
    at: u64,
    description: &[u8],
) -> (Result<Vec<Vec<u8>>, CompactFault>, Pass)
    requires own { IsOf packing.arena.now pass }
    requires room { length description.now + packing.most ≤ 16777192 }
    requires value { Decodes packing.layouts.now (cells pass) at }
    ensures out { (t : ℕ) (v : Datum) (z : ℕ) → Dec packing.entry.layouts.now (cells pass) at t v z
        → IfOk result.0 (λ parts. (gathered parts.items ≡ with_head description.entry.now (length (tree v)) (tree v)) × (length (tree v) ≤ packing.entry.most)) }
    ensures long { (t : ℕ) (v : Datum) (z : ℕ) → Dec packing.entry.layouts.now (cells pass) at t v z
        → IsErrOf result.0 Long → packing.entry.most < length (tree v) }
    ensures back { IsBack packing.entry.arena.now pass result.1 }
{
    let (payload, pass) = write_tree(packing, pass, at);
    match payload {
        Err(fault) => (Err(fault), pass),
        Ok(payload) => (made(framed(packing, description, payload)), pass),
    }
}

/// The file of the value at an address, by so many workers, where its payload has no more bytes than there may be.
fn tree_by<R: Threads + Sync>(
    rt: &R,
    packing: Packing<'_>,
    pass: Pass,
    at: u64,
    description: &[u8],
    workers: u32,
) -> (Result<Vec<Vec<u8>>, CompactFault>, Pass)
    requires own { IsOf packing.arena.now pass }
    requires none_out { (view pass).branch.out ≡ [] }
    requires room { length description.now + packing.most ≤ 16777192 }
    requires value { Decodes packing.layouts.now (cells pass) at }
    ensures out { (t : ℕ) (v : Datum) (z : ℕ) → Dec packing.entry.layouts.now (cells pass) at t v z
        → IfOk result.0 (λ parts. (gathered parts.items ≡ with_head description.entry.now (length (tree v)) (tree v)) × (length (tree v) ≤ packing.entry.most)) }
    ensures long { (t : ℕ) (v : Datum) (z : ℕ) → Dec packing.entry.layouts.now (cells pass) at t v z
        → IsErrOf result.0 Long → packing.entry.most < length (tree v) }
    ensures back { IsBack packing.entry.arena.now pass result.1 }
{
    if workers <= 1 {
        return tree_alone(packing, pass, at, description);
    }
    let (pieces, pass) = cut_alone(packing, pass, at, PARTS * workers as u64);
    match pieces {
        Err(_) => (Err(CompactFault::Memory), pass),
        Ok(pieces) => pieces_by(rt, packing, pass, &pieces, description, workers),
    }
}

/// The file of a scalar, whose bytes these are.
fn scalar_file(
    packing: Packing<'_>,
    description: &[u8],
    bytes: &[u8],
) -> Result<Vec<Vec<u8>>, CompactFault>
    requires room { length description.now + packing.most ≤ 16777192 }
    ensures out { IfOk result (λ parts. (gathered parts.items ≡ with_head description.entry.now (length bytes.entry.now) bytes.entry.now) × (length bytes.entry.now ≤ packing.entry.most)) }
    ensures long { IsErrOf result Long → packing.entry.most < length bytes.entry.now }
{
    let payload = bytes.len() as u64;
    if payload > packing.most {
        return Err(CompactFault::Long);
    }
    let mut out = head(packing.alloc, description, payload)?;
    out.extend_from_slice(bytes)?;
    let parts = alone(packing.alloc, Ok(out))?;
    Ok(parts)
}

/// The file of a number.
fn whole_file(
    packing: Packing<'_>,
    description: &[u8],
    z: i64,
) -> Result<Vec<Vec<u8>>, CompactFault>
    requires room { length description.now + packing.most ≤ 16777192 }
    ensures out { IfOk result (λ parts. (gathered parts.items ≡ with_head description.entry.now (length (number z)) (number z)) × (length (number z) ≤ packing.entry.most)) }
    ensures long { IsErrOf result Long → packing.entry.most < length (number z) }
{
    scalar_file(packing, description, &z.to_le_bytes())
}

/// The file of a truth value.
fn truth_file(
    packing: Packing<'_>,
    description: &[u8],
    b: bool,
) -> Result<Vec<Vec<u8>>, CompactFault>
    requires room { length description.now + packing.most ≤ 16777192 }
    ensures out { IfOk result (λ parts. (gathered parts.items ≡ with_head description.entry.now 1 (bit b ∷ [])) × (1 ≤ packing.entry.most)) }
    ensures long { IsErrOf result Long → packing.entry.most < 1 }
{
    let byte = if b { 1 } else { 0 };
    scalar_file(packing, description, &[byte])
}

/// The file of the value of a root in buffers, of which the last one comes first, by so many workers, where its payload has no more bytes
/// than there may be.
pub(crate) fn parts_by<R: Threads + Sync>(
    rt: &R,
    packing: Packing<'_>,
    pass: Pass,
    root: Root,
    description: &[u8],
    workers: u32,
) -> (Result<Vec<Vec<u8>>, CompactFault>, Pass)
    requires own { IsOf packing.arena.now pass }
    requires none_out { (view pass).branch.out ≡ [] }
    requires room { length description.now + packing.most ≤ 16777192 }
    requires stands { (ty : Type_of) × (v : Datum) × Stands packing.layouts.now (cells pass) root ty v }
    ensures out { (ty : Type_of) (v : Datum) → Stands packing.entry.layouts.now (cells pass) root ty v → IfOk result.0 (λ parts. (gathered parts.items ≡ with_head description.entry.now (length (packed v)) (packed v)) × (length (packed v) ≤ packing.entry.most)) }
    ensures long { (ty : Type_of) (v : Datum) → Stands packing.entry.layouts.now (cells pass) root ty v
        → IsErrOf result.0 Long → packing.entry.most < length (packed v) }
    ensures back { IsBack packing.entry.arena.now pass result.1 }
{
    match root {
        Root::Whole(z) => (whole_file(packing, description, z), pass),
        Root::Truth(b) => (truth_file(packing, description, b), pass),
        Root::At(at) => tree_by(rt, packing, pass, at, description, workers),
    }
}

//! Packs the value of a root, by several workers.

ghost use Rattle.std.specs.Prelude.{◌≡◌, ◌<◌, ◌≤◌, ◌+◌, ℕ, List, length, IfOk, IsErrOf};
ghost use Rattle.gib_types.specs.{declared.table.Ty.{Ty as Type_of}, Tree.{Datum}};
ghost use Rattle.gib_mem.specs.Memory.{Grows, fresh};
ghost use Rattle.gib_file.specs.{Packed.{packed}, Framed.{Framed2, File2}};
ghost use Rattle.gib_packed.specs.Stands.{Stands};
ghost use Rattle.gib_compact.specs.{Gathered.{gathered, with_head}, declared.fault.CompactFault.TheVariants.{Long}};

use crate::fault::CompactFault;
use crate::packing::{HEADER_BYTES, MOST_BYTES, Packing};
use crate::parts::gather;
use crate::payload::parts_by;
use gib_arena::SoleMem;
use gib_base::Texts;
use gib_file::{describe, one_description};
use gib_mem::Mem;
use gib_packed::Root;
use gib_packed::law::typed;
use gib_types::{Layouts, Ty};
use std::alloc::Global;
use std::thread::Threads;

/// The file of buffers, of which the last one comes first.
fn joined(alloc: Global, parts: Result<Vec<Vec<u8>>, CompactFault>) -> Result<Vec<u8>, CompactFault>
    ensures out { (description payload : List ℕ) (most : ℕ)
        → IfOk parts (λ parts. (gathered parts.items ≡ with_head description (length payload) payload) × (length payload ≤ most))
        → IfOk result (λ file. (file.items ≡ with_head description (length payload) payload) × (length payload ≤ most)) }
    ensures long { IsErrOf result Long → IsErrOf parts Long }
{
    match parts {
        Err(fault) => Err(fault),
        Ok(parts) => match gather(alloc, parts) {
            Err(_) => Err(CompactFault::Memory),
            Ok(file) => Ok(file),
        },
    }
}

/// The file, with this description, of the value of a root in a memory, which comes back.
fn compact_as<R: Threads + Sync>(
    rt: &R,
    alloc: Global,
    memory: SoleMem,
    layouts: &Layouts,
    root: Root,
    description: &[u8],
    workers: u32,
) -> (Result<Vec<u8>, CompactFault>, SoleMem)
    requires stands { (ty : Type_of) × (v : Datum) × Stands layouts.now (⟦<SoleMem as Mem>⟧.view memory).cells root ty v }
    ensures file { (ty : Type_of) (v : Datum) → Stands layouts.entry.now (⟦<SoleMem as Mem>⟧.view memory).cells root ty v → IfOk result.0 (λ file. Framed2 description.entry.now (packed v) file.items) }
    ensures few { (ty : Type_of) (v : Datum) → Stands layouts.entry.now (⟦<SoleMem as Mem>⟧.view memory).cells root ty v → IfOk result.0 (λ file. length file.items ≤ 16777216) }
    ensures long { (ty : Type_of) (v : Datum) → Stands layouts.entry.now (⟦<SoleMem as Mem>⟧.view memory).cells root ty v → IsErrOf result.0 Long → 16777216 < 24 + length description.entry.now + length (packed v) }
    ensures known { Grows (⟦<SoleMem as Mem>⟧.view memory).cells (⟦<SoleMem as Mem>⟧.view result.1).cells }
    ensures free { (q : ℕ) → (⟦<SoleMem as Mem>⟧.view memory).cells q ≡ fresh → (⟦<SoleMem as Mem>⟧.view result.1).cells q ≡ fresh }
    ensures drew { (⟦<SoleMem as Mem>⟧.view result.1).share ≡ (⟦<SoleMem as Mem>⟧.view memory).share }
    ensures limit { (⟦<SoleMem as Mem>⟧.view result.1).limit ≡ (⟦<SoleMem as Mem>⟧.view memory).limit }
{
    let len = description.len() as u64;
    if len > MOST_BYTES - HEADER_BYTES {
        return (Err(CompactFault::Long), memory);
    }
    let (arena, first) = memory.into_parts();
    let packing = Packing {
        alloc,
        arena: &arena,
        layouts,
        most: MOST_BYTES - HEADER_BYTES - len,
    };
    let (parts, last) = parts_by(rt, packing, first, root, description, workers);
    (joined(alloc, parts), SoleMem::of_parts(arena, last))
}

/// The packed file, version 2, of the value of a root in a memory, by so many workers: one file whatever their number is and
/// however they are scheduled. However it ends, the memory comes back with all that it held, and no other pass of it is out.
///
/// # Errors
///
/// `Long`: the file would be longer than a file may be. `Memory`: want of memory.
pub fn compact<R: Threads + Sync>(
    rt: &R,
    alloc: Global,
    memory: SoleMem,
    names: &Texts,
    layouts: &Layouts,
    root: Root,
    ty: Ty,
    workers: u32,
) -> (Result<Vec<u8>, CompactFault>, SoleMem)
    requires stands { (v : Datum) × Stands layouts.now (⟦<SoleMem as Mem>⟧.view memory).cells root ty v }
    ensures file { (v : Datum) → Stands layouts.entry.now (⟦<SoleMem as Mem>⟧.view memory).cells root ty v → IfOk result.0 (λ file. File2 layouts.entry.now.table names.entry.now.long ty v file.items) }
    ensures few { IfOk result.0 (λ file. length file.items ≤ 16777216) }
    ensures long { (v : Datum) (bytes : List ℕ) → Stands layouts.entry.now (⟦<SoleMem as Mem>⟧.view memory).cells root ty v → IsErrOf result.0 Long → File2 layouts.entry.now.table names.entry.now.long ty v bytes → 16777216 < length bytes }
    ensures known { Grows (⟦<SoleMem as Mem>⟧.view memory).cells (⟦<SoleMem as Mem>⟧.view result.1).cells }
    ensures free { (q : ℕ) → (⟦<SoleMem as Mem>⟧.view memory).cells q ≡ fresh → (⟦<SoleMem as Mem>⟧.view result.1).cells q ≡ fresh }
    ensures drew { (⟦<SoleMem as Mem>⟧.view result.1).share ≡ (⟦<SoleMem as Mem>⟧.view memory).share }
    ensures limit { (⟦<SoleMem as Mem>⟧.view result.1).limit ≡ (⟦<SoleMem as Mem>⟧.view memory).limit }
{
    let description = match describe(alloc, layouts.types(), names, ty) {
        Err(_) => return (Err(CompactFault::Memory), memory),
        Ok(description) => description,
    };
    typed();
    one_description();
    compact_as(rt, alloc, memory, layouts, root, &description, workers)
}

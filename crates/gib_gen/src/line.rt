//! The line about what a made program gives.

ghost use Rattle.std.specs.Prelude.{◌≡◌, IfOk};
ghost use Rattle.gib_types.specs.{declared.table.Ty.{Ty as Type_of}, Tree.{Datum}};
ghost use Rattle.gib_packed.specs.Stands.{Stands};
ghost use Rattle.gib_gen.specs.Summary.{summary_line};

use gib_base::{Memory, push_decimal, push_signed};
use gib_mem::Mem;
use gib_packed::Root;
use gib_print::total_at;
use gib_types::Layouts;
use std::alloc::Global;

/// The line about the value of a root, which a program made of this number gives on the input of so many levels:
/// `gen NUMBER levels LEVELS leaves COUNT sum SUM` and a line feed. What it says of a tree is in `law::tree_summary`.
///
/// # Errors
///
/// Want of memory, for the line and for what the nesting of the value needs.
pub fn summary<M: Mem>(
    alloc: Global,
    number: u32,
    levels: u8,
    mem: &mut M,
    layouts: &Layouts,
    root: Root,
) -> Result<Vec<u8>, Memory>
    requires stands { (ty : Type_of) × (v : Datum) × Stands layouts.now (M.view mem.old).cells root ty v }
    ensures line { (ty : Type_of) (v : Datum) → Stands layouts.now (M.view mem.old).cells root ty v → IfOk result (λ line. line.items ≡ summary_line number levels v) }
    ensures same { M.view mem.new ≡ M.view mem.old }
{
    let total = total_at(alloc, mem, layouts, root)?;
    let mut out = Vec::from_slice(alloc, b"gen ")?;
    push_decimal(alloc, &mut out, u64::from(number))?;
    out.extend_from_slice(b" levels ")?;
    push_decimal(alloc, &mut out, u64::from(levels))?;
    out.extend_from_slice(b" leaves ")?;
    push_decimal(alloc, &mut out, total.count)?;
    out.extend_from_slice(b" sum ")?;
    push_signed(alloc, &mut out, total.sum)?;
    out.push(b'\n')?;
    Ok(out)
}

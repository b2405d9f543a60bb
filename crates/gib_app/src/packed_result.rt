//! The packed file of what a run leaves.

ghost use Rattle.std.specs.Prelude.{◌<◌, ◌≤◌, ℕ, List, length, IfOk, IsErrOf};
ghost use Rattle.gib_types.specs.Tree.{Datum};
ghost use Rattle.gib_file.specs.Framed.{File2};
ghost use Rattle.gib_packed.specs.Stands.{Stands};
ghost use Rattle.gib_app.specs.Kept.{StandsAgain};

use crate::machine_run::Ran;
use crate::made::Valued;
use gib_arena::SoleMem;
use gib_compact::{CompactFault, compact};
use gib_mem::Mem;
use gib_types::Ty;
use std::alloc::Global;
use std::thread::Threads;

/// The packed file of what a run leaves, which is of this type, by so many workers. The value comes back, with the memory in which it stands.
///
/// # Errors
///
/// `Long`: the file would be longer than a file may be. `Memory`: want of memory.
pub fn packed_result<R: Threads + Sync>(
    alloc: Global,
    threads: &R,
    value: Valued,
    ty: Ty,
    workers: u32,
) -> (Result<Vec<u8>, CompactFault>, Valued)
    requires stands { (v : Datum) × Stands value.ran.lowered.code.laid (⟦<SoleMem as Mem>⟧.view value.ran.memory).cells value.ran.root ty v }
    ensures file { (v : Datum) → Stands value.ran.lowered.code.laid (⟦<SoleMem as Mem>⟧.view value.ran.memory).cells value.ran.root ty v
        → IfOk result.0 (λ file. File2 value.ran.lowered.code.laid.table value.names.long ty v file.items) }
    ensures few { IfOk result.0 (λ file. length file.items ≤ 16777216) }
    ensures long { (v : Datum) (bytes : List ℕ) → Stands value.ran.lowered.code.laid (⟦<SoleMem as Mem>⟧.view value.ran.memory).cells value.ran.root ty v
        → IsErrOf result.0 CompactFault.Long → File2 value.ran.lowered.code.laid.table value.names.long ty v bytes → 16777216 < length bytes }
    ensures again { StandsAgain value result.1 }
{
    let Valued { ran, names } = value;
    let Ran {
        lowered,
        memory,
        root,
    } = ran;
    let layouts = lowered.code().layouts();
    let (file, memory) = compact(threads, alloc, memory, &names, layouts, root, ty, workers);
    let ran = Ran {
        lowered,
        memory,
        root,
    };
    (file, Valued { ran, names })
}

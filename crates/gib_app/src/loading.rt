//! Loads a packed input into a memory of its own.

ghost use Rattle.std.specs.Prelude.{◌≡◌, IfOk, IsErrOf};
ghost use Rattle.gib_types.specs.Tree.{Datum};
ghost use Rattle.gib_file.specs.Packed.{Packed};
ghost use Rattle.gib_core.specs.Parts.{core_of};
ghost use Rattle.gib_app.specs.Workers.{IsLoaded, IsOver};

use gib_core::Lowered;
use gib_file::Survey;
use gib_load::law::refused_loads_do_not_go_in;
use gib_load::{LoadFault, load};
use gib_locked::Loaded;
use gib_mem::{Mem, PlainMem};
use gib_region::Tails;
use std::alloc::Global;

/// Loads the value of a survey into a memory of its own of so many chunks, for a run of the code.
///
/// # Errors
///
/// `Full`: the value needs more chunks than there are. `Memory`.
pub fn load_input(
    alloc: Global,
    lowered: &Lowered,
    survey: Survey<'_>,
    chunks: u32,
) -> Result<Loaded, LoadFault>
    requires table { survey.table ≡ lowered.now.code.laid.table }
    requires ty { survey.ty ≡ (core_of lowered.now.core).main.parameter }
    ensures loaded { IfOk result (λ made. (v : Datum) → Packed survey.entry.table survey.entry.ty v survey.entry.bytes
        → IsLoaded lowered.now chunks v (⟦<PlainMem as Mem>⟧.view made.memory) made.root made.tails) }
    ensures limit { IfOk result (λ made. (⟦<PlainMem as Mem>⟧.view made.memory).limit ≡ chunks) }
    ensures full { IsErrOf result LoadFault.Full → (v : Datum) → Packed survey.entry.table survey.entry.ty v survey.entry.bytes
        → IsOver lowered.now.code.laid chunks v }
{
    refused_loads_do_not_go_in();
    let _packed = survey.payload();
    let mut tails = Tails::new();
    let mut memory = match PlainMem::make(alloc, chunks) {
        Ok(memory) => memory,
        Err(_) => return Err(LoadFault::Memory),
    };
    let layouts = lowered.code().layouts();
    match load(alloc, layouts, survey, &mut memory, &mut tails) {
        Ok(root) => Ok(Loaded {
            memory,
            tails,
            root,
        }),
        Err(fault) => Err(fault),
    }
}

//! The text of the value of a root, by several workers.

ghost use Rattle.std.specs.Prelude.{◌≡◌, ◌++◌, ◌∷◌, [], ℕ, List, IfOk};
ghost use Rattle.gib_types.specs.{declared.table.Ty.{Ty as Type_of}, Tree.{Datum}};
ghost use Rattle.gib_value.specs.Text.{text, AreHeld};
ghost use Rattle.gib_mem.specs.Memory.{Grows, fresh};
ghost use Rattle.gib_arena.specs.Passes.{view, cells, IsOf};
ghost use Rattle.gib_packed.specs.{Decoding.{Dec, Decodes}, Stands.{Stands}};
ghost use Rattle.gib_print.specs.Cut.{Cut};
ghost use Rattle.gib_compact.specs.{Back.{IsBack}, Gathered.{gathered}};

use crate::share::texts_by;
use crate::sharing::Sharing;
use gib_arena::{ArenaMem, Pass, SoleMem, names_tell};
use gib_base::Memory;
use gib_compact::{alone, gather};
use gib_mem::Mem;
use gib_packed::Root;
use gib_print::{Item, Printing, cut_text, truth_line, whole_line};
use std::alloc::Global;
use std::thread::Threads;

/// About how many parts there are for each worker, so that one with small parts has more of them.
const PARTS: u64 = 8;

/// The text of the value at an address and a line feed in items, which make about as many parts as the workers want.
fn cut_alone(sharing: Sharing<'_>, pass: Pass, at: u64) -> (Result<Vec<Item>, Memory>, Pass)
    requires own { IsOf sharing.arena.now pass }
    requires value { Decodes sharing.printing.layouts.now (cells pass) at }
    ensures cut { (t : ℕ) (v : Datum) (z : ℕ) → Dec sharing.entry.printing.layouts.now (cells pass) at t v z
        → IfOk result.0 (λ items. Cut sharing.entry.printing.layouts.now sharing.entry.printing.names.now.short (cells result.1) items.items
        (text sharing.entry.printing.layouts.now.table sharing.entry.printing.names.now.short v ++ 10 ∷ [])) }
    ensures back { IsBack sharing.entry.arena.now pass result.1 }
{
    let mut mem = ArenaMem::make(sharing.arena, pass);
    let want = PARTS * sharing.workers as u64;
    let items = cut_text(&mut mem, sharing.printing, at, want);
    let (_arena, pass) = mem.into_pass();
    names_tell();
    (items, pass)
}

/// The text of the value of a root and a line feed in buffers, of which the last one comes first, by so many workers.
fn root_by<R: Threads + Sync>(
    rt: &R,
    sharing: Sharing<'_>,
    pass: Pass,
    root: Root,
) -> (Result<Vec<Vec<u8>>, Memory>, Pass)
    requires own { IsOf sharing.arena.now pass }
    requires none_out { (view pass).branch.out ≡ [] }
    requires names { AreHeld sharing.printing.layouts.now.table sharing.printing.names.now.short }
    requires stands { (ty : Type_of) × (v : Datum) × Stands sharing.printing.layouts.now (cells pass) root ty v }
    ensures text { (ty : Type_of) (v : Datum) → Stands sharing.entry.printing.layouts.now (cells pass) root ty v
        → IfOk result.0 (λ texts. gathered texts.items
        ≡ text sharing.entry.printing.layouts.now.table sharing.entry.printing.names.now.short v ++ 10 ∷ []) }
    ensures back { IsBack sharing.entry.arena.now pass result.1 }
{
    let alloc = sharing.printing.alloc;
    match root {
        Root::Whole(z) => (alone(alloc, whole_line(alloc, z)), pass),
        Root::Truth(b) => (alone(alloc, truth_line(alloc, b)), pass),
        Root::At(at) => {
            let (items, pass) = cut_alone(sharing, pass, at);
            match items {
                Err(memory) => (Err(memory), pass),
                Ok(items) => texts_by(rt, sharing, pass, &items, sharing.workers),
            }
        }
    }
}

/// The buffers of a text as one.
fn joined(alloc: Global, texts: Result<Vec<Vec<u8>>, Memory>) -> Result<Vec<u8>, Memory>
    ensures { (bytes : List ℕ) → IfOk texts (λ texts. gathered texts.items ≡ bytes) → IfOk result (λ text. text.items ≡ bytes) }
{
    let texts = texts?;
    gather(alloc, texts)
}

/// The text of the value of a root in a memory, and a line feed, by so many workers: one text whatever their number is and however
/// they are scheduled. However it ends, the memory comes back with all that it held, and no other pass of it is out.
///
/// # Errors
///
/// Want of memory: all of the text is made in memory, and is there twice while the parts are put together. The part of a worker that is
/// longer than its share of 32 MiB is told so too.
pub fn text_by<R: Threads + Sync>(
    rt: &R,
    printing: Printing<'_>,
    memory: SoleMem,
    root: Root,
    workers: u32,
) -> (Result<Vec<u8>, Memory>, SoleMem)
    requires names { AreHeld printing.layouts.now.table printing.names.now.short }
    requires stands { (ty : Type_of) × (v : Datum) × Stands printing.layouts.now (⟦<SoleMem as Mem>⟧.view memory).cells root ty v }
    ensures text { (ty : Type_of) (v : Datum) → Stands printing.entry.layouts.now (⟦<SoleMem as Mem>⟧.view memory).cells root ty v
        → IfOk result.0 (λ out. out.items ≡ text printing.entry.layouts.now.table printing.entry.names.now.short v ++ 10 ∷ []) }
    ensures known { Grows (⟦<SoleMem as Mem>⟧.view memory).cells (⟦<SoleMem as Mem>⟧.view result.1).cells }
    ensures free { (q : ℕ) → (⟦<SoleMem as Mem>⟧.view memory).cells q ≡ fresh → (⟦<SoleMem as Mem>⟧.view result.1).cells q ≡ fresh }
    ensures drew { (⟦<SoleMem as Mem>⟧.view result.1).share ≡ (⟦<SoleMem as Mem>⟧.view memory).share }
    ensures limit { (⟦<SoleMem as Mem>⟧.view result.1).limit ≡ (⟦<SoleMem as Mem>⟧.view memory).limit }
{
    let (arena, first) = memory.into_parts();
    let sharing = Sharing {
        arena: &arena,
        printing,
        workers,
    };
    let (texts, last) = root_by(rt, sharing, first, root);
    (
        joined(printing.alloc, texts),
        SoleMem::of_parts(arena, last),
    )
}

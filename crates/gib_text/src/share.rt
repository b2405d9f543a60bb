//! Items shared out among workers, each with a pass of its own.

ghost use Rattle.std.specs.Prelude.{◌≡◌, ◌<◌, ◌≤◌, [], ℕ, List, length, IfOk};
ghost use Rattle.std.specs.Thread.{IsSync};
ghost use Rattle.gib_arena.specs.Passes.{view, cells, IsOf};
ghost use Rattle.gib_value.specs.Text.{AreHeld};
ghost use Rattle.gib_print.specs.Cut.{Cut};
ghost use Rattle.gib_compact.specs.{Back.{IsBack, IsSplit}, Gathered.{gathered}};
ghost use Rattle.gib_text.specs.Dealt.{Dealt};

use crate::sharing::Sharing;
use gib_arena::{ArenaMem, Pass, names_tell};
use gib_base::Memory;
use gib_compact::{alone, in_front};
use gib_print::{Item, Printing, items_text};
use std::thread::{Threads, join};

/// The text of items, by one worker.
fn text_alone(sharing: Sharing<'_>, pass: Pass, items: &[Item]) -> (Result<Vec<u8>, Memory>, Pass)
    requires own { IsOf sharing.arena.now pass }
    requires names { AreHeld sharing.printing.layouts.now.table sharing.printing.names.now.short }
    requires cut { (bytes : List ℕ) × Cut sharing.printing.layouts.now sharing.printing.names.now.short (cells pass) items.now bytes }
    ensures text { (bytes : List ℕ) → Cut sharing.entry.printing.layouts.now sharing.entry.printing.names.now.short (cells pass) items.entry.now bytes
        → IfOk result.0 (λ text. text.items ≡ bytes) }
    ensures back { IsBack sharing.entry.arena.now pass result.1 }
{
    let mut mem = ArenaMem::make(sharing.arena, pass);
    let text = items_text(&mut mem, sharing.printing, items, sharing.workers);
    let (_arena, pass) = mem.into_pass();
    names_tell();
    (text, pass)
}

/// Splits a pass off for all items behind the first so many.
fn deal<'i>(
    sharing: Sharing<'_>,
    pass: Pass,
    items: &'i [Item],
    count: usize,
) -> (Pass, Pass, &'i [Item], &'i [Item])
    requires own { IsOf sharing.arena.now pass }
    requires within { count ≤ length items.now }
    requires cut { (bytes : List ℕ) × Cut sharing.printing.layouts.now sharing.printing.names.now.short (cells pass) items.now bytes }
    ensures own { IsOf sharing.entry.arena.now result.0 × IsOf sharing.entry.arena.now result.1 }
    ensures none_out { (view result.1).branch.out ≡ [] }
    ensures first { (bytes : List ℕ) × Cut sharing.entry.printing.layouts.now sharing.entry.printing.names.now.short (cells result.0) result.2.now bytes }
    ensures rest { (bytes : List ℕ) × Cut sharing.entry.printing.layouts.now sharing.entry.printing.names.now.short (cells result.1) result.3.now bytes }
    ensures dealt { (bytes : List ℕ) → Cut sharing.entry.printing.layouts.now sharing.entry.printing.names.now.short (cells pass) items.entry.now bytes
        → Dealt sharing.entry.printing.layouts.now sharing.entry.printing.names.now.short result.0 result.1 result.2.now result.3.now bytes }
    ensures split { IsSplit pass result.0 result.1 }
{
    let mut mine = pass;
    let other = mine.split(sharing.arena);
    let (first, rest) = items.split_at(count);
    (mine, other, first, rest)
}

/// The text of items in buffers, by so many workers, the first of which is the caller's thread: a buffer for each worker, the first
/// one's last. A worker whose thread cannot be started does its part in the caller's thread.
pub(crate) fn texts_by<R: Threads + Sync>(
    rt: &R,
    sharing: Sharing<'_>,
    pass: Pass,
    items: &[Item],
    workers: u32,
) -> (Result<Vec<Vec<u8>>, Memory>, Pass)
    requires own { IsOf sharing.arena.now pass }
    requires none_out { (view pass).branch.out ≡ [] }
    requires names { AreHeld sharing.printing.layouts.now.table sharing.printing.names.now.short }
    requires cut { (bytes : List ℕ) × Cut sharing.printing.layouts.now sharing.printing.names.now.short (cells pass) items.now bytes }
    ensures text { (bytes : List ℕ) → Cut sharing.entry.printing.layouts.now sharing.entry.printing.names.now.short (cells pass) items.entry.now bytes
        → IfOk result.0 (λ texts. gathered texts.items ≡ bytes) }
    ensures back { IsBack sharing.entry.arena.now pass result.1 }
{
    if workers <= 1 {
        let (text, pass) = text_alone(sharing, pass, items);
        return (alone(sharing.printing.alloc, text), pass);
    }
    let arena = sharing.arena;
    let Printing {
        alloc,
        layouts,
        names,
    } = sharing.printing;
    let all = sharing.workers;
    let (mine, other, first, rest) = deal(sharing, pass, items, items.len() / workers as usize);
    let ((a, mut last), (b, other)) = join(
        rt,
        move || -> (Result<Vec<u8>, Memory>, Pass)
            requires own { IsOf arena.now mine }
            requires names { AreHeld layouts.now.table names.now.short }
            requires cut { (bytes : List ℕ) × Cut layouts.now names.now.short (cells mine) first.now bytes }
            ensures text { (bytes : List ℕ) → Cut layouts.entry.now names.entry.now.short (cells mine) first.entry.now bytes
                → IfOk result.0 (λ text. text.items ≡ bytes) }
            ensures back { IsBack arena.entry.now mine result.1 }
        { text_alone(Sharing::of(alloc, arena, layouts, names, all), mine, first) },
        move || -> (Result<Vec<Vec<u8>>, Memory>, Pass)
            requires some { 0 < workers }
            requires own { IsOf arena.now other }
            requires none_out { (view other).branch.out ≡ [] }
            requires names { AreHeld layouts.now.table names.now.short }
            requires cut { (bytes : List ℕ) × Cut layouts.now names.now.short (cells other) rest.now bytes }
            ensures text { (bytes : List ℕ) → Cut layouts.entry.now names.entry.now.short (cells other) rest.entry.now bytes
                → IfOk result.0 (λ texts. gathered texts.items ≡ bytes) }
            ensures back { IsBack arena.entry.now other result.1 }
        {
            let sharing = Sharing::of(alloc, arena, layouts, names, all);
            texts_by(rt, sharing, other, rest, workers - 1)
        },
    );
    last.join(sharing.arena, other);
    (in_front(a, b), last)
}

//! Cuts the text of a value into items.

ghost use Rattle.std.specs.Prelude.{◌≡◌, ◌<◌, ◌≤◌, ◌++◌, ◌∷◌, [], ℕ, vec_len, IfOk};
ghost use Rattle.gib_types.specs.Tree.{Datum};
ghost use Rattle.gib_value.specs.Text.{text};
ghost use Rattle.gib_packed.specs.Decoding.{Dec, Decodes};
ghost use Rattle.gib_print.specs.Cut.{Cut, HasNext, ComesNext};

use crate::end::pass_part;
use crate::item::{Item, Printing};
use crate::turn::{Printed, Progress, begin, turn};
use gib_base::Memory;
use gib_mem::Mem;
use gib_types::{ConId, Layouts};
use std::alloc::AllocError;

/// How many levels are opened at most.
const LEVELS: u64 = 16;

/// The most packed fields that a constructor has.
fn widest(layouts: &Layouts) -> u64 {
    let mut widest = 0u64;
    let mut con = 0;
    'constructors: while con < layouts.types().len() {
        widest = widest.max(layouts.layout(ConId(con)).packed as u64);
        con += 1;
    }
    widest
}

/// How many levels are opened, so that there may be so many parts where all are of the widest constructor.
fn levels(layouts: &Layouts, want: u64) -> u64 {
    let fields = widest(layouts);
    let mut parts = 1u64;
    'levels: for level in 0..LEVELS {
        if parts >= want {
            return level;
        }
        parts = parts.saturating_mul(fields);
    }
    LEVELS
}

/// How many parentheses are open behind an item, where so many were.
fn opened(layouts: &Layouts, open: u64, item: Item) -> u64 {
    match item {
        Item::Turn(Printed::Front(con)) => {
            if layouts.fields(con).is_empty() {
                open
            } else {
                open.saturating_add(1)
            }
        }
        Item::Turn(Printed::Closes(count)) => open.saturating_sub(count),
        _ => open,
    }
}

/// The next item, by a turn.
fn next_turn<M: Mem>(
    progress: &mut Progress,
    mem: &mut M,
    layouts: &Layouts,
) -> Result<Item, Memory>
    requires some { 0 < vec_len progress.old.frames }
    requires left { HasNext layouts.now (M.view mem.old).cells progress.old }
    ensures comes { IfOk result (ComesNext layouts.now (M.view mem.old).cells progress.old progress.new) }
    ensures same { M.view mem.new ≡ M.view mem.old }
{
    progress.frames.reserve(1)?;
    let printed = turn::<M, u8>(progress, mem, layouts);
    Ok(Item::Turn(printed))
}

/// The next item. A value that is due is passed where its text is to be one.
fn next_item<M: Mem>(
    progress: &mut Progress,
    mem: &mut M,
    layouts: &Layouts,
    part: bool,
) -> Result<Item, Memory>
    requires some { 0 < vec_len progress.old.frames }
    requires left { HasNext layouts.now (M.view mem.old).cells progress.old }
    ensures comes { IfOk result (ComesNext layouts.now (M.view mem.old).cells progress.old progress.new) }
    ensures same { M.view mem.new ≡ M.view mem.old }
{
    if !part {
        return next_turn(progress, mem, layouts);
    }
    match pass_part(progress, mem, layouts) {
        Some(at) => Ok(Item::Part(at)),
        None => next_turn(progress, mem, layouts),
    }
}

/// The text of the value at an address and a line feed in items, in order: the values below so many levels as make about so many
/// parts where the value is even, each as a part, and what stands before, between and behind them. This walks over the value once.
///
/// # Errors
///
/// Want of memory.
pub fn cut_text<M: Mem>(
    mem: &mut M,
    printing: Printing<'_>,
    at: u64,
    want: u64,
) -> Result<Vec<Item>, Memory>
    requires value { Decodes printing.layouts.now (M.view mem.old).cells at }
    ensures cut { (t : ℕ) (v : Datum) (z : ℕ) → Dec printing.entry.layouts.now (M.view mem.old).cells at t v z
        → IfOk result (λ items. Cut printing.entry.layouts.now printing.entry.names.now.short (M.view mem.old).cells items.items
        (text printing.entry.layouts.now.table printing.entry.names.now.short v ++ 10 ∷ [])) }
    ensures same { M.view mem.new ≡ M.view mem.old }
{
    let most = levels(printing.layouts, want);
    let (first, end) = begin::<M, u8>(mem, printing.layouts, at);
    let mut items = vec![in printing.alloc; Item::First(first.con)]?;
    let frames = vec![in printing.alloc; first]?;
    let mut progress = Progress { frames, end };
    let mut open = first.closes;
    let mut left = u64::MAX;
    'items: while !progress.frames.is_empty() {
        if left == 0 {
            return Err(AllocError);
        }
        left -= 1;
        let item = next_item(&mut progress, mem, printing.layouts, open >= most)?;
        open = opened(printing.layouts, open, item);
        items.push(item)?;
    }
    items.push(Item::Line)?;
    Ok(items)
}

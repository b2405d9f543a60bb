//! The text of items.

ghost use Rattle.std.specs.Prelude.{◌≡◌, ◌++◌, ◌∷◌, [], ℕ, List, IfOk};
ghost use Rattle.std.specs.Fmt.{signed_decimal};
ghost use Rattle.gib_value.specs.Text.{AreHeld, truth_text};
ghost use Rattle.gib_print.specs.Cut.{Cut};

use crate::in_place::line_of;
use crate::item::{Item, Printing, put_item};
use crate::kept::Kept;
use crate::print::truth_word;
use crate::waiting::Waiting;
use gib_base::Memory;
use gib_mem::Mem;
use itoa::Buffer;
use std::alloc::{AllocError, Global};

/// The text of items, one behind another, by one of so many workers.
///
/// # Errors
///
/// Want of memory; a text that is longer than what one of them keeps in memory is told so too.
pub fn items_text<M: Mem>(
    mem: &mut M,
    printing: Printing<'_>,
    items: &[Item],
    workers: u32,
) -> Result<Vec<u8>, Memory>
    requires names { AreHeld printing.layouts.now.table printing.names.now.short }
    requires cut { (bytes : List ℕ) × Cut printing.layouts.now printing.names.now.short (M.view mem.old).cells items.now bytes }
    ensures text { (bytes : List ℕ) → Cut printing.entry.layouts.now printing.entry.names.now.short (M.view mem.old).cells items.now bytes
        → IfOk result (λ text. text.items ≡ bytes) }
    ensures same { M.view mem.new ≡ M.view mem.old }
{
    let mut kept = Kept::one_of(printing.alloc, workers);
    let mut waiting = Waiting::new();
    let mut i = 0;
    'items: while i < items.len() {
        match put_item(mem, printing, items[i], &mut waiting, &mut kept) {
            Ok(()) => (),
            Err(_) => return Err(AllocError),
        }
        i += 1;
    }
    match waiting.flush(&mut kept) {
        Ok(()) => Ok(kept.into_bytes()),
        Err(_) => Err(AllocError),
    }
}

/// The text of a number, and a line feed.
///
/// # Errors
///
/// Want of memory.
pub fn whole_line(alloc: Global, z: i64) -> Result<Vec<u8>, Memory>
    ensures { IfOk result (λ line. line.items ≡ signed_decimal z ++ 10 ∷ []) }
{
    line_of(alloc, Buffer::new().format(z).as_bytes())
}

/// The text of a truth value, and a line feed.
///
/// # Errors
///
/// Want of memory.
pub fn truth_line(alloc: Global, b: bool) -> Result<Vec<u8>, Memory>
    ensures { IfOk result (λ line. line.items ≡ truth_text b ++ 10 ∷ []) }
{
    line_of(alloc, truth_word(b))
}

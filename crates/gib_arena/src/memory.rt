//! The memory that threads share, and the token that each of them has.
ghost use Rattle.std.specs.Prelude.{◌≡◌, ◌+◌, ◌*◌, ◌^◌, ◌<◌, true, []};
ghost use Rattle.gib_arena.specs.Bytes.{IsSound};

use crate::rule::Keeping;
use crate::view::View;
use atomic_table::{Seat, Table};
use std::alloc::Global;

/// Memory in chunks of 4,096 bytes. Word 0 counts the chunks that were drawn; byte `a` is byte `a % 8` of word
/// `a / 8 + 1`, the lowest first.
#[derive(Drop)]
pub struct Arena {
    pub(crate) table: Table<(), View, u32, Keeping, Global>,
    pub(crate) limit: u32,
    ghost small: { limit < 2 ^ 32 },
    ghost sized: { table.shared.table_id.words ≡ 512 * limit + 1 },
    ghost no_slots: { table.shared.table_id.slots ≡ 0 },
    ghost told: { table.shared.key ≡ limit },
}

/// What one thread may do in an arena: put at its fresh addresses, read what it knows. It has no bytes at run time.
#[derive(Drop)]
pub struct Pass {
    pub(crate) seat: Seat<(), View>,
    ghost no_slots: { seat.me.1 ≡ [] },
    ghost live: { seat.me.0.branch.live ≡ true },
    ghost sized: { seat.table_id.words ≡ 512 * seat.me.0.branch.limit + 1 },
    ghost sound: { IsSound seat.me.0.branch.limit seat.me.0.holding },
}

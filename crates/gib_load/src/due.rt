//! Gaps of heads that are open: it is noted in them where packed fields start, once these begin.

ghost use Rattle.std.specs.Prelude.{◌≡◌, ◌<◌, ◌≤◌, ◌+◌, ◌*◌, ◌^◌, [], ◌∷◌, ℕ, Option, true, false, length, IfOk, OnErr, IsTrue, IsFalse, MatchOption};
ghost use Rattle.gib_types.specs.Layout.{has_offsets};
ghost use Rattle.gib_load.specs.Gaps.{Dues, first_gaps, next_gap, later_gaps, stored_count, gap_of, gaps_from, with_gaps};

use gib_base::Memory;
use gib_types::{ConId, Layouts};
use std::alloc::{AllocError, Global};
use std::marker::Model;

/// The gaps of the values that are due, the next one first; none are kept where no constructor has offsets.
#[derive(Drop)]
pub(crate) struct Due {
    noting: bool,
    last_first: Vec<Option<u64>>,
}

impl Model for Due {
    ghost use Rattle.std.specs.Prelude.{reverse, vec_capacity};
    ghost use Rattle.gib_load.specs.Gaps.{Dues};

    ghost Value = { Dues };

    ghost view = { λ d. record { noting = d.noting; gaps = reverse d.last_first.items; room = vec_capacity d.last_first } };
}

/// How many places a head stores.
pub(crate) fn stored_count(stores: bool, packed: u8) -> u8
    ensures { result ≡ stored_count stores packed }
{
    if !stores {
        return 0;
    }
    if packed == 0 {
        return 0;
    }
    packed - 1
}

/// The gap of a packed field of a head, whose gaps begin at an address.
fn gap_of(stores: bool, base: u64, i: u8) -> Option<u64>
    requires { base + 2048 < 2 ^ 64 }
    ensures { result ≡ gap_of stores base i }
{
    if !stores {
        return None;
    }
    if i == 0 {
        return None;
    }
    Some(base + 8 * (i as u64 - 1))
}

/// Whether some constructor has offsets.
fn any_stores(layouts: &Layouts) -> bool
    ensures none { IsFalse result → (k : ℕ) → k < length layouts.now.table.rows → has_offsets layouts.now k ≡ false }
    ensures some { IsTrue result → layouts.now.with_offsets ≡ [] → ⊥ }
{
    let mut con = 0;
    'constructors: while con < layouts.types().len() {
        if layouts.stores(ConId(con)) {
            return true;
        }
        con += 1;
    }
    false
}

impl Due {
    /// Before the first head of a value that has so many constructors and this payload: it has no gap. All memory is taken here,
    /// none where no constructor has offsets.
    ///
    /// # Errors
    ///
    /// Want of memory; this also stands for a payload of 2^32 bytes and more.
    pub(crate) fn make(
        alloc: Global,
        layouts: &Layouts,
        payload: &[u8],
        constructors: u64,
    ) -> Result<Due, Memory>
        ensures first { IfOk result (λ due. due.gaps ≡ first_gaps due.noting) }
        ensures room { IfOk result (λ due. due.noting ≡ true → constructors < due.room) }
        ensures small { IfOk result (λ due. due.noting ≡ true → length payload.now < 2 ^ 32) }
        ensures plain { IfOk result (λ due. due.noting ≡ false → (k : ℕ) → k < length layouts.now.table.rows → has_offsets layouts.now k ≡ false) }
        ensures ample { layouts.now.with_offsets ≡ [] → OnErr result ⊥ }
    {
        if !any_stores(layouts) {
            return Ok(Due {
                noting: false,
                last_first: Vec::new(alloc),
            });
        }
        if payload.len() as u64 > u32::MAX as u64 {
            return Err(AllocError);
        }
        if constructors > u32::MAX as u64 {
            return Err(AllocError);
        }
        let mut last_first = Vec::with_capacity(alloc, constructors as usize + 1)?;
        last_first.push_reserved(None);
        Ok(Due {
            noting: true,
            last_first,
        })
    }

    /// Whether gaps are kept.
    pub(crate) fn notes(&self) -> bool
        ensures { result ≡ self.now.noting }
    {
        self.noting
    }

    /// One more value is due, before the others.
    fn put(&mut self, gap: Option<u64>)
        requires { length self.old.gaps < self.old.room }
        ensures { self.new ≡ record self.old { gaps = gap ∷ self.old.gaps } }
    {
        self.last_first.push_reserved(gap);
    }

    /// The packed fields of a head are due, before the others.
    pub(crate) fn put_fields(&mut self, stores: bool, base: u64, packed: u8)
        requires room { self.old.noting ≡ true → length self.old.gaps + packed ≤ self.old.room }
        requires small { base + 2048 < 2 ^ 64 }
        ensures { self.new ≡ record self.old { gaps = with_gaps self.old.noting (gaps_from stores base 0 packed) self.old.gaps } }
    {
        if !self.noting {
            return;
        }
        let mut i = packed;
        'fields: while i > 0 {
            i -= 1;
            self.put(gap_of(stores, base, i));
        }
    }

    /// Takes the gap of the next one.
    pub(crate) fn take(&mut self) -> Option<u64>
        ensures gap { result ≡ next_gap self.old.gaps }
        ensures later { self.new ≡ record self.old { gaps = later_gaps self.old.gaps } }
    {
        match self.last_first.pop() {
            Some(gap) => gap,
            None => None,
        }
    }
}

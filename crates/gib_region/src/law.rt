//! Laws of placing, and of the count of what was placed.

ghost use Rattle.std.specs.Prelude.{◌≡◌, ◌≤◌, ◌<◌, ◌+◌, ◌%◌, ℕ, List, length};
ghost use Rattle.gib_mem.specs.Memory.{Memory, Store, after_puts};
ghost use Rattle.gib_region.specs.Region.{rest, HasRoom, Behind, Placed, IsApart, AreOwned, Begins, finished};
ghost use Rattle.gib_region.specs.Count.{Count, Balanced, IsInnermost, after_begin, after_placing, after_turn, after_item, after_finish, after_unwinding, joined, CountBegun, CountPlaced};
ghost use Rattle.gib_region.specs.Leaving.{IsBounded, Leaves, TailsKept, BeginsOwned};

/// A placed item has its bytes owned, and the rest behind it; what was known stays.
pub fn placing_leaves()
    ensures { (m m' : Memory) (at k a : ℕ) → IsBounded m → Behind m.cells at → 9 ≤ rest at → k ≤ 65 → Placed m at k m' a → Leaves m m' at k a }
{}

/// Placing an item leaves the tails owned, and apart from the cursor.
pub fn placing_keeps_tails()
    ensures { (m m' : Memory) (at k a : ℕ) (tails : List ℕ) → IsBounded m → Behind m.cells at → 9 ≤ rest at → k ≤ 65 → TailsKept m.cells tails at → Placed m at k m' a → TailsKept m'.cells tails (a + k) }
{}

/// Bytes that are put where an item was placed leave the tails owned.
pub fn filling_keeps_tails()
    ensures { (m : Memory) (at : ℕ) (bytes tails : List ℕ) → length bytes ≤ rest at → AreOwned m.cells tails → IsApart at tails → AreOwned (after_puts m at bytes).cells tails }
{}

/// A region begins with 74 bytes or more that are owned, and leaves the tails that are left owned.
pub fn beginning_owns()
    ensures { (m m' : Memory) (old tails : List ℕ) (at : ℕ) → IsBounded m → AreOwned m.cells old → Begins m old m' tails at → BeginsOwned m'.cells tails at }
{}

/// Where a region ends the tails are owned, the rest of its chunk among them where it is kept.
pub fn finishing_owns()
    ensures { (s : Store) (tails : List ℕ) (at : ℕ) → Behind s at → TailsKept s tails at → AreOwned s (finished tails at) }
{}

/// Where there is no room for an item of at most 65 bytes, 4,023 bytes at least stand in the chunk before the cursor.
pub fn turning_has_used()
    ensures { (at k : ℕ) → k ≤ 65 → (HasRoom at k → ⊥) → 4023 ≤ at % 4096 }
{}

/// A region that begins, in a tail or in a chunk, keeps the balance.
pub fn beginning_keeps_the_balance()
    ensures { (m m' : Memory) (old tails : List ℕ) (at : ℕ) (c : Count) (g : Begins m old m' tails at) → Balanced c → CountBegun m m' c at (after_begin g c) }
{}

/// An item that is placed in the innermost region, here or in a chunk that is drawn, keeps the balance.
pub fn placing_keeps_the_balance()
    ensures { (m m' : Memory) (at k a : ℕ) (c : Count) (p : Placed m at k m' a) → IsInnermost c.open_regions at → k ≤ 65 → Balanced c → CountPlaced m m' c k a (after_placing p c) }
{}

/// So do both halves of it: the draw where there is no room, and the item where there is.
pub fn each_half_keeps_the_balance()
    ensures turns { (c : Count) (at k n : ℕ) → IsInnermost c.open_regions at → k ≤ 65 → (HasRoom at k → ⊥) → Balanced c → Balanced (after_turn n c) }
    ensures places { (c : Count) (at k : ℕ) → IsInnermost c.open_regions at → k ≤ 65 → HasRoom at k → Balanced c → Balanced (after_item k c) }
{}

/// A region that ends keeps the balance, whether its tail is kept or lost; so do regions that are
/// dropped, and a side that is joined.
pub fn ending_keeps_the_balance()
    ensures ends { (c : Count) → Balanced c → Balanced (after_finish c) }
    ensures unwinds { (n : ℕ) (c : Count) → Balanced c → Balanced (after_unwinding n c) }
    ensures joins { (c s : Count) → Balanced c → Balanced s → Balanced (joined c s) }
{}

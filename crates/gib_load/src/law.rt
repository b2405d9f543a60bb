//! Laws of placements.

ghost use Rattle.std.specs.Prelude.{◌≡◌, ◌≤◌, ℕ};
ghost use Rattle.gib_mem.specs.Memory.{Memory};
ghost use Rattle.gib_types.specs.{declared.table.Ty.{Ty as Type_of}, Layout.{LaidOut, head_size}, Table.{IsTable}, Tree.{Datum, HasType}};
ghost use Rattle.gib_region.specs.Leaving.{IsBounded};
ghost use Rattle.gib_load.specs.{Placement.{placed_in}, Holding.{Holding}, Refusal.{Refused, Spent}};

/// What is placed stands: with offsets or without, a value that was loaded into the chunks that there are stands for
/// its root, its tails are owned, and it took no more chunks than it needs.
pub fn what_is_placed_stands()
    ensures { (laid : LaidOut) (m : Memory) (ty : Type_of) (v : Datum) → IsTable laid.table → ((k : ℕ) → head_size laid k ≤ 65) → IsBounded m → m.drawn ≡ 0 → HasType laid.table v ty
        → (placed_in laid m v).memory.drawn ≤ (placed_in laid m v).memory.limit → Holding laid ty v (placed_in laid m v) }
{}

/// Where the loading of a value is refused all chunks are drawn, and the value needs them.
pub fn refused_loads_need_all()
    ensures { (laid : LaidOut) (m m' : Memory) (v : Datum) → IsTable laid.table → ((k : ℕ) → head_size laid k ≤ 65) → m.drawn ≡ 0 → Refused laid m v m' → Spent v m' }
{}

/// A value whose loading is refused needs more chunks than there are.
pub fn refused_loads_do_not_go_in()
    ensures { (laid : LaidOut) (m m' : Memory) (v : Datum) → Refused laid m v m' → (placed_in laid m v).memory.drawn ≤ m.limit → ⊥ }
{}

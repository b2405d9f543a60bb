//! Laws of what stands in memory.

ghost use Rattle.std.specs.Prelude.{◌≡◌, ◌<◌, ◌≤◌, ◌+◌, ◌*◌, ◌^◌, suc, ℕ, List, length, slice_get, Some};
ghost use Rattle.gib_mem.specs.Memory.{Store, Grows, byte, Memory, IsBounded};
ghost use Rattle.gib_packed.specs.{Decoding.{Dec, Decs, Points}, Reaching.{Leads, Turns}, Walking.{Below, Reaches, Span, Walk}, Fields.{Field}};
ghost use Rattle.gib_packed.specs.{declared.root.Root.{Root as Root_of}, Stands.{Stands}};
ghost use Rattle.gib_types.specs.{declared.table.Ty.{Ty as Type_of}, Layout.{LaidOut, head_size, packed_at, is_among}, Table.{Table}};
ghost use Rattle.gib_types.specs.{declared.table.Ty.TheVariants.{Tree as tree_type}, Tree.{Datum, Data, HasType}};

/// What stands in a store stands there when the store grows, and redirects and indirections lead where they led.
pub fn grown_keeps()
    ensures decodes { (laid : LaidOut) (s r : Store) (a t z : ℕ) (v : Datum) → Grows s r → Dec laid s a t v z → Dec laid r a t v z }
    ensures stands { (laid : LaidOut) (s r : Store) (root : Root_of) (ty : Type_of) (v : Datum) → Grows s r → Stands laid s root ty v → Stands laid r root ty v }
    ensures turns { (s r : Store) (a b : ℕ) → Grows s r → Turns s a b → Turns r a b }
    ensures leads { (s r : Store) (a h : ℕ) → Grows s r → Leads s a h → Leads r a h }
    ensures reaches { (s r : Store) (n a : ℕ) → Grows s r → Reaches s n a → Reaches r n a }
    ensures walks { (laid : LaidOut) (s r : Store) (roof c a n z : ℕ) → Grows s r → Walk laid s roof c a n z → Walk laid r roof c a n z }
    ensures fields { (laid : LaidOut) (s r : Store) (a n p z : ℕ) (ts : List Type_of) (vs : Data) (v : Datum) → Grows s r → Field laid s a ts vs n v p z → Field laid r a ts vs n v p z }
{}

/// One value of a type stands at an address, and it has one end; one value of a type stands for a root.
pub fn one_value()
    ensures decodes { (laid : LaidOut) (s : Store) (a t y z : ℕ) (v w : Datum) → Dec laid s a t v y → Dec laid s a t w z → (v ≡ w) × (y ≡ z) }
    ensures stands { (laid : LaidOut) (s : Store) (root : Root_of) (ty : Type_of) (v w : Datum) → Stands laid s root ty v → Stands laid s root ty w → v ≡ w }
{}

/// What stands at an address, or for a root, has the type at which it stands.
pub fn typed()
    ensures decodes { (laid : LaidOut) (s : Store) (a t z : ℕ) (v : Datum) → Dec laid s a t v z → HasType laid.table v (tree_type (record { 0 = t })) }
    ensures stands { (laid : LaidOut) (s : Store) (root : Root_of) (ty : Type_of) (v : Datum) → Stands laid s root ty v → HasType laid.table v ty }
{}

/// What stands depends on which constructors have offsets, and not on how they are listed.
pub fn decoding_is_of_the_set()
    ensures { (table : Table) (listed others : List ℕ) (s : Store) (a t z : ℕ) (v : Datum) → ((k : ℕ) → is_among listed k ≡ is_among others k)
        → Dec (record { table = table; with_offsets = listed }) s a t v z → Dec (record { table = table; with_offsets = others }) s a t v z }
{}

/// Redirects and indirections lead to one head; where a value stands they lead to one, in fewer steps than there are
/// addresses with a byte.
pub fn one_head()
    ensures one { (s : Store) (a g h : ℕ) → Leads s a g → Leads s a h → g ≡ h }
    ensures reached { (laid : LaidOut) (s : Store) (bound a t z : ℕ) (v : Datum) → Below s bound → Dec laid s a t v z → (n : ℕ) × (n ≤ bound) × Reaches s n a }
{}

/// What a memory knows stands below 2 ^ 44.
pub fn known_stands_below()
    ensures { (m : Memory) → IsBounded m → Below m.cells (2 ^ 44) }
{}

/// What stands has a height, which is at most the number of addresses with a byte.
pub fn values_have_a_height()
    ensures spans { (laid : LaidOut) (s : Store) (a t z : ℕ) (v : Datum) → Dec laid s a t v z → (h : ℕ) × Span laid s h a z }
    ensures height { (laid : LaidOut) (s : Store) (bound h a z : ℕ) → Below s bound → Span laid s h a z → h ≤ bound }
{}

/// A walk goes over each value to its end, with at most seven values due for each address with a byte and one more; where
/// none is due it has ended.
pub fn values_are_walked()
    ensures goes { (laid : LaidOut) (s : Store) (bound a t z : ℕ) (v : Datum) → ((k : ℕ) → packed_at laid k ≤ 8) → Below s bound → Dec laid s a t v z → (c : ℕ) × Walk laid s (7 * bound) c a 1 z }
    ensures ends { (laid : LaidOut) (s : Store) (roof c a z : ℕ) → Walk laid s roof c a 0 z → a ≡ z }
{}

/// A walk where a value is due: a byte stands there, which tells how the walk goes on.
pub fn walks_go_on()
    ensures stands { (laid : LaidOut) (s : Store) (roof c a n z : ℕ) → Walk laid s roof c a (suc n) z → (b : ℕ) × (s a ≡ byte b) × (n ≤ roof) }
    ensures turns { (laid : LaidOut) (s : Store) (roof c a n z : ℕ) → Walk laid s roof c a (suc n) z → s a ≡ byte 255 → (b : ℕ) × (d : ℕ) × Points s a 255 b × Walk laid s roof d b (suc n) z }
    ensures passes { (laid : LaidOut) (s : Store) (roof c a n z : ℕ) → Walk laid s roof c a (suc n) z → s a ≡ byte 254 → (d : ℕ) × Walk laid s roof d (a + 9) n z }
    ensures enters { (laid : LaidOut) (s : Store) (roof c a n z k : ℕ) → Walk laid s roof c a (suc n) z → s a ≡ byte k → k < 254 → (d : ℕ) × (k < length laid.table.rows) × Walk laid s roof d (a + head_size laid k) (packed_at laid k + n) z }
{}

/// Of fields that stand one after another there is one packed one of each number, at the place that the head may store; it
/// stands there, and the place is below what bounds the store.
pub fn fields_have_places()
    ensures there { (laid : LaidOut) (s : Store) (a z n : ℕ) (ts : List Type_of) (vs : Data) (places : List ℕ) → Decs laid s a ts vs places z → n < length places → (v : Datum) × (p : ℕ) × (y : ℕ) × Field laid s a ts vs n v p y }
    ensures placed { (laid : LaidOut) (s : Store) (a n p y z : ℕ) (ts : List Type_of) (vs : Data) (v : Datum) (places : List ℕ) → Decs laid s a ts vs places z → Field laid s a ts vs n v p y → slice_get places n ≡ Some p }
    ensures one { (laid : LaidOut) (s : Store) (a n p q y z : ℕ) (ts : List Type_of) (vs : Data) (v w : Datum) → Field laid s a ts vs n v p y → Field laid s a ts vs n w q z → (v ≡ w) × (p ≡ q) × (y ≡ z) }
    ensures stands { (laid : LaidOut) (s : Store) (a n p z : ℕ) (ts : List Type_of) (vs : Data) (v : Datum) → Field laid s a ts vs n v p z → (t : ℕ) × Dec laid s p t v z }
    ensures below { (laid : LaidOut) (s : Store) (bound a z n p : ℕ) (ts : List Type_of) (vs : Data) (places : List ℕ) → Below s bound → Decs laid s a ts vs places z → slice_get places n ≡ Some p → p < bound }
{}

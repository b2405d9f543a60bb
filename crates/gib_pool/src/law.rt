//! A worker's task keeps the law of a task over the bytes of the worker's own pass: functions whose contracts are the laws.

ghost use Rattle.std.specs.Prelude.{◌≡◌, ◌<◌, ◌^◌, ◌∷◌, length, ℕ, List, [], Option, Some};
ghost use Rattle.atomic_table.specs.Table.{State as TableState};
ghost use Rattle.gib_types.specs.{declared.table.Ty.{Ty}, Layout.{LaidOut}};
ghost use Rattle.gib_syntax.specs.{Meaning.{Outcome}, Results.{Results}};
ghost use Rattle.gib_mem.specs.Memory.{IsBounded, Memory, Store};
ghost use Rattle.gib_core.specs.{LoweredParts.{IsWhole, LoweredParts}, Parts.{core_of}};
ghost use Rattle.gib_code.specs.declared.answer.Answer.{Answer};
ghost use Rattle.gib_machine.specs.{State.{State}, Machine.{next}, Sides.{Waiting, side_start}, Levels.{IsWithin}};
ghost use Rattle.gib_weave.specs.{Owing.{Debt}, Places.{IsSmall}, Sound.{IsAnswer, SideSafe}};
ghost use Rattle.gib_arena.specs.{declared.memory.Pass.{Pass}, declared.view.View.{View}, Cells.{cells_of}, Passes.{view}, Rule.{ArenaRule}, Says.{IsPass}};
ghost use Rattle.gib_arena.specs.{Steps.{split_left, split_right, joined_view, saw}, Sums.{times_path}};
ghost use Rattle.gib_frame.specs.declared.due.Due.{Due};
ghost use Rattle.gib_pool.specs.{Lent.{Lends, path}, Together.{Together, fresh_to}, Turn.{Works, WorksAfter, WorksOn, Wider}};

/// Who begins a right side owes what it owes, with no right sides of its own, and drew nothing.
pub fn a_side_begins()
    ensures { (l : LoweredParts) (d : Debt) (s : Store) (w : Waiting) → IsSmall s → SideSafe (core_of l.core) l.code d s w → Works l d s 0 (side_start l.code w) [] }
{}

/// A split and a join of its pass leave a worker as it was.
pub fn a_wider_pass_keeps()
    ensures { (l : LoweredParts) (d : Debt) (s r : Store) (n : ℕ) (m : State) (lent : List (Option Due)) → Wider s r → Works l d s n m lent → Works l d r n m lent }
{}

/// Each turn keeps a worker: what it gets is known, what it puts is fresh, each right side that it leaves is safe in the pass that
/// was split for it, its answer is what it owed, and what it drew is paid for.
pub fn each_turn_keeps()
    ensures { (l : LoweredParts) (d : Debt) (v : Memory) (m : State) (lent : List (Option Due)) → IsWhole l.core l.code → IsBounded v → Works l d v.cells v.share m lent → WorksAfter l d v lent m (next l.code m) }
{}

/// A split lends a pass; a join with the newest takes it back; where none is lent, none is out.
pub fn passes_come_back()
    ensures more { (p p' : Pass) (e : Due) (lent : List (Option Due)) → p'.seat.table_id ≡ p.seat.table_id → view p' ≡ split_left (view p) → view e.pass.value ≡ split_right (view p)
        → e.pass.value.seat.table_id ≡ p.seat.table_id → Lends p lent → Lends p' (Some e ∷ lent) }
    ensures it { (p : Pass) (e : Due) (lent : List (Option Due)) → Lends p (Some e ∷ lent) → 0 < times_path (path e) (view p).branch.out }
    ensures less { (p q p' : Pass) (n : ℕ) (e : Due) (lent : List (Option Due)) → p'.seat.table_id ≡ p.seat.table_id → view p' ≡ saw (joined_view (view p) (view q)) n
        → (view q).branch.path ≡ path e → (view q).branch.out ≡ [] → Lends p (Some e ∷ lent) → Lends p' lent }
    ensures none { (p : Pass) → Lends p [] → (view p).branch.out ≡ [] }
{}

/// Whatever the words and the passes are under the arena's rule, there is one store of all the words. Tasks that are each sound over
/// the bytes of their own pass are so over it, all at once: each puts none but addresses that are fresh to its pass, and no address is
/// fresh to two. So are right sides that are not begun, and answers stand there too.
pub fn tasks_are_sound_together()
    ensures store { (limit : ℕ) (s : TableState (Unit {0}) View) → limit < 2 ^ 32 → ArenaRule limit s → (r : Store) × Together s.words s.views r }
    ensures one { (words : List ℕ) (views : List View) (r r' : Store) → Together words views r → Together words views r' → (a : ℕ) → r' a ≡ r a }
    ensures task { (words : List ℕ) (views : List View) (r : Store) → Together words views r → (j : ℕ) (v : View) → IsPass views j v
        → (l : LoweredParts) (d : Debt) (n : ℕ) (m : State) (lent : List (Option Due)) → Works l d (cells_of v.holding) n m lent → (w : Works l d r n m lent) × (w.own ≡ fresh_to v) }
    ensures apart { (words : List ℕ) (views : List View) (r : Store) → Together words views r → (i j : ℕ) (v w : View) → IsPass views i v → IsPass views j w
        → (q : ℕ) → 0 < fresh_to v q → 0 < fresh_to w q → i ≡ j }
    ensures side { (words : List ℕ) (views : List View) (r : Store) → Together words views r → (j : ℕ) (v : View) → IsPass views j v
        → (l : LoweredParts) (d : Debt) (w : Waiting) → SideSafe (core_of l.core) l.code d (cells_of v.holding) w → SideSafe (core_of l.core) l.code d r w }
    ensures answer { (words : List ℕ) (views : List View) (r : Store) → Together words views r → (j : ℕ) (v : View) → IsPass views j v
        → (laid : LaidOut) (ty : Results Ty) (owed : Outcome) (a : Answer) → IsAnswer laid (cells_of v.holding) ty owed a → IsAnswer laid r ty owed a }
{}

/// At a fork a task whose open forks and levels left are no more than `top` has fewer right sides that were not joined: so room for `top`
/// frames, taken where the task begins, is enough for all of them.
#[tactic(auto, using(crate::proofs::Fitting::frames_fit))]
pub fn there_is_room_for_a_frame()
    ensures { (l : LoweredParts) (d : Debt) (s : Store) (n : ℕ) (lent : List (Option Due)) (m left : State) (right : Waiting) (top : ℕ) → WorksOn l d s n lent m left right → 0 < m.level → IsWithin top m → length lent < top }
{}

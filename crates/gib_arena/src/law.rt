//! What the rule says.
ghost use Rattle.std.specs.Prelude.{◌≡◌, ℕ};
ghost use Rattle.atomic_table.specs.Table.{State};
ghost use Rattle.gib_arena.specs.{declared.memory.Arena.{Arena}, declared.memory.Pass.{Pass}, declared.view.View.{View}, Passes.{IsOf}, Rule.{ArenaRule}};
ghost use Rattle.gib_arena.specs.{Says.{Says}, Shown.{name_of}};

/// Wherever the rule holds, a known byte is the byte of its word, an address is fresh to one pass at most and then known to
/// none, the shares add up to the counter, and live passes have paths of their own.
pub fn rule_says()
    ensures { (limit : ℕ) (s : State (Unit {0}) View) → ArenaRule limit s → Says limit s.words s.views }
{}

/// The name that a pass shows tells its arena.
pub fn names_tell()
    ensures { (a : Arena) (p q : Pass) → IsOf a p → name_of q.seat.table_id ≡ name_of p.seat.table_id → IsOf a q }
{}

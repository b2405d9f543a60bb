//! Laws of tables and layouts.

ghost use Rattle.std.specs.Prelude.{◌≡◌, ◌<◌, ℕ, List, length};
ghost use Rattle.gib_types.specs.{Table.{Table}, Layout.{is_among, layout_at}};

/// A layout depends on which constructors of the table have offsets, and on nothing else of the list that says so.
pub fn layouts_are_of_the_set()
    ensures { (table : Table) (listed others : List ℕ) → ((con : ℕ) → con < length table.rows → is_among listed con ≡ is_among others con) → (con : ℕ) → layout_at table listed con ≡ layout_at table others con }
{}

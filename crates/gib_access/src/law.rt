//! Laws of reaching the fields of arms: functions whose contracts are the laws.

ghost use Rattle.std.specs.Prelude.{◌≡◌, ℕ, List};
ghost use Rattle.gib_types.specs.Tree.{Datum};
ghost use Rattle.gib_syntax.specs.Tree.{DataTree};
ghost use Rattle.gib_core.specs.{Tree.{CoreTree}, Meaning.{core_calls, core_run}, declared.atom.AccessMode.{AccessMode as Mode}, Erasing.{erase_core}};
ghost use Rattle.gib_core.specs.{Reaching.{reach_core}, Reachable.{AreReachable}, Numbering.{AreNumbered}};
ghost use Rattle.gib_access.specs.Stored.{read_core};

/// To reach the fields of arms keeps what is left of a core, and its own meaning.
pub fn reaching_keeps_the_meaning()
    ensures erased { (mode : Mode) (datas : List DataTree) (core : CoreTree) → erase_core datas (reach_core mode core) ≡ erase_core datas core }
    ensures calls { (mode : Mode) (core : CoreTree) (n : ℕ) → core_calls (reach_core mode core) n ≡ core_calls core n }
    ensures run { (mode : Mode) (core : CoreTree) (depth : ℕ) (v : Datum) → core_run (reach_core mode core) depth v ≡ core_run core depth v }
{}

/// To reach the fields of arms keeps that variables are numbered in the order in which the text binds them.
pub fn reaching_keeps_numbers()
    ensures { (mode : Mode) (core : CoreTree) → AreNumbered core → AreNumbered (reach_core mode core) }
{}

/// Heads store offsets exactly where an arm reads one: the constructors that have offsets are those of the arms in whose lines a
/// field is reached by its offset, in the order of the text.
pub fn offsets_are_stored_where_read()
    ensures { (mode : Mode) (core : CoreTree) → AreReachable core → (reach_core mode core).offsets ≡ read_core (reach_core mode core) }
{}

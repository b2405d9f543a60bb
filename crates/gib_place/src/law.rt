//! Laws of the pass: functions whose contracts are the laws.

ghost use Rattle.std.specs.Prelude.{◌≡◌, ℕ, List};
ghost use Rattle.gib_types.specs.Tree.{Datum};
ghost use Rattle.gib_syntax.specs.Tree.{DataTree};
ghost use Rattle.gib_core.specs.{Erasing.{erase_core}, Tree.{CoreTree}, Meaning.{core_calls, core_run}, Numbering.{AreNumbered}, Reachable.{AreReachable}};
ghost use Rattle.gib_place.specs.{Numbering.{place_core}, Placing.{place_bodies}, SameSource.{IsSameProgram}};

/// To place fields keeps what a numbered core means, and that it is numbered.
pub fn placing_keeps_the_meaning()
    ensures calls { (core : CoreTree) → AreNumbered core → (n : ℕ) → core_calls (place_core core) n ≡ core_calls core n }
    ensures run { (core : CoreTree) → AreNumbered core → (depth : ℕ) (v : Datum) → core_run (place_core core) depth v ≡ core_run core depth v }
    ensures numbered { (core : CoreTree) → AreNumbered core → AreNumbered (place_core core) }
{}

/// To place fields keeps what is left of a numbered core: exactly, before its variables are numbered anew, and then up to
/// the names of variables.
pub fn placing_keeps_the_source()
    ensures placed { (datas : List DataTree) (core : CoreTree) → AreNumbered core → erase_core datas (place_bodies core) ≡ erase_core datas core }
    ensures numbered { (datas : List DataTree) (core : CoreTree) → AreNumbered core → IsSameProgram (erase_core datas core) (erase_core datas (place_core core)) }
{}

/// To place fields keeps a numbered core one whose fields only have to be reached.
pub fn placing_keeps_reachable()
    ensures { (core : CoreTree) → AreNumbered core → AreReachable core → AreReachable (place_core core) }
{}

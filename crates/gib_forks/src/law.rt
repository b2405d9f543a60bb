//! Laws of marks: functions whose contracts are the laws.

ghost use Rattle.std.specs.Prelude.{◌≡◌, ℕ, List};
ghost use Rattle.gib_types.specs.Tree.{Datum};
ghost use Rattle.gib_syntax.specs.Tree.{DataTree};
ghost use Rattle.gib_core.specs.{Tree.{CoreTree}, Meaning.{core_calls, core_run}, Erasing.{erase_core}, Marking.{mark_core}, Numbering.{AreNumbered}};
ghost use Rattle.gib_core.specs.Rules.{AreBuilt};

/// To mark pars keeps what is left of a core, its meaning, the build rules and the numbers of variables.
pub fn marking_keeps()
    ensures erased { (datas : List DataTree) (core : CoreTree) → erase_core datas (mark_core core) ≡ erase_core datas core }
    ensures calls { (core : CoreTree) (n : ℕ) → core_calls (mark_core core) n ≡ core_calls core n }
    ensures run { (core : CoreTree) (depth : ℕ) (v : Datum) → core_run (mark_core core) depth v ≡ core_run core depth v }
    ensures built { (core : CoreTree) → AreBuilt core → AreBuilt (mark_core core) }
    ensures numbered { (core : CoreTree) → AreNumbered core → AreNumbered (mark_core core) }
{}

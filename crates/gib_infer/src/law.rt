//! Laws of what a typed program becomes: functions whose contracts are the laws. The table of a typed program keeps the
//! rules of tables: `TypeTable::rules`.

ghost use Rattle.std.specs.Prelude.{◌≡◌, ℕ};
ghost use Rattle.gib_types.specs.{Table.{IsTable}, Tree.{Datum}};
ghost use Rattle.gib_syntax.specs.{Tree.{ProgramTree}, Declarations.{table_of_program}, Typing.{IsTypedProgram}, Meaning.{calls, run}};
ghost use Rattle.gib_core.specs.{Meaning.{core_calls, core_run}, Erasing.{erase_core}, Inferring.{infer_program}, Ordered.{AreOrdered}};
ghost use Rattle.gib_core.specs.{Reachable.{AreReachable}, Numbering.{AreNumbered}};

/// What a typed program becomes means what the program means: each call, with any depth left, and main.
pub fn infer_keeps_the_meaning()
    ensures calls { (p : ProgramTree) → IsTable (table_of_program p) → IsTypedProgram p → (n : ℕ) → core_calls (infer_program p) n ≡ calls p n }
    ensures run { (p : ProgramTree) → IsTable (table_of_program p) → IsTypedProgram p → (depth : ℕ) (v : Datum) → core_run (infer_program p) depth v ≡ run p depth v }
{}

/// The program that is left of what a typed program becomes means what the program means.
pub fn infer_leaves_the_meaning()
    ensures calls { (p : ProgramTree) → IsTable (table_of_program p) → IsTypedProgram p → (n : ℕ) → calls (erase_core p.datas (infer_program p)) n ≡ calls p n }
    ensures run { (p : ProgramTree) → IsTable (table_of_program p) → IsTypedProgram p → (depth : ℕ) (v : Datum) → run (erase_core p.datas (infer_program p)) depth v ≡ run p depth v }
{}

/// What a typed program becomes breaks no build rule, where each field in scope counts as reached.
pub fn infer_gives_reachable()
    ensures { (p : ProgramTree) → IsTable (table_of_program p) → IsTypedProgram p → AreReachable (infer_program p) }
{}

/// In what a program becomes, the variables of each function are numbered in the order in which the text binds them, and
/// where it is typed, they are used behind where they are bound.
pub fn infer_numbers_variables()
    ensures numbered { (p : ProgramTree) → AreNumbered (infer_program p) }
    ensures ordered { (p : ProgramTree) → IsTypedProgram p → AreOrdered (infer_program p) }
{}

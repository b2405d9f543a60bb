//! Laws of programs: functions whose contracts are the laws.

ghost use Rattle.std.specs.Prelude.{◌≡◌, ◌≤◌, ℕ, [], ◌∷◌};
ghost use Rattle.gib_types.specs.Tree.{Datum, HasType};
ghost use Rattle.gib_syntax.specs.{Tree.{ProgramTree}, Fine.{IsFineProgram}, GenericFine.{IsGenericFineProgram}};
ghost use Rattle.gib_syntax.specs.{GenericTree.{GenericExpression, GenericProgramTree}, GenericTyping.{FormScope}, GenericMeaning.{means_generic}};
ghost use Rattle.gib_syntax.specs.{Single.{IsSingle, IsSingleProgram, HasNoComma}, Spelling.{spell_program}, Forms.{WrittenType, WrittenTypes, Meant}};
ghost use Rattle.gib_syntax.specs.{Words.{stack_of, all_types, words_of, words_in}, Declarations.{table_of_program, input_type, output_type}};
ghost use Rattle.gib_syntax.specs.{Typing.{IsTypedProgram}, Meaning.{Gives, Environment, run, OutcomeHas}};

/// A typed program of the grammar gives a value of the type of its result, where its input is of the
/// type of its parameter and it gives one at all.
pub fn results_are_typed()
    ensures { (p : ProgramTree) (depth : ℕ) (v : Datum) → IsFineProgram p → IsTypedProgram p → HasType (table_of_program p) v (input_type p)
        → OutcomeHas (table_of_program p) (output_type p) (run p depth v) }
{}

/// A value that a program gives stays its value with more depth.
pub fn more_depth_keeps_the_value()
    ensures { (p : ProgramTree) (m n : ℕ) (v result : Datum) → m ≤ n → run p m v ≡ Gives result → run p n v ≡ Gives result }
{}

/// The words of types read back as these types.
pub fn runs_are_read()
    ensures one { (x : WrittenType) → stack_of (words_of x) ≡ x ∷ [] }
    ensures all { (xs : WrittenTypes) → all_types (stack_of (words_in xs)) ≡ xs }
{}

/// A program of the grammar whose tokens have no comma has no results of several parts.
pub fn commas_make_parts()
    ensures { (p : GenericProgramTree) → IsGenericFineProgram p → HasNoComma (spell_program p []) → IsSingleProgram p }
{}

/// What an expression means that has no tuples does not depend on the types of its variables.
pub fn types_order_tuples_alone()
    ensures { (p : GenericProgramTree) (n : ℕ) (m : Meant) (s u : FormScope) (env : Environment) (e : GenericExpression) → IsSingle e → means_generic p n m s env e ≡ means_generic p n m u env e }
{}

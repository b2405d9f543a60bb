//! Laws of copies: functions whose contracts are the laws.

ghost use Rattle.std.specs.Prelude.{◌≡◌, ℕ, List, ◌∷◌, [], pos, Ok, Err, slice_get, Some, length, map, ◌<◌};
ghost use Rattle.std.specs.List.{AllByRecursion};
ghost use Rattle.gib_base.specs.declared.Span.{Span};
ghost use Rattle.gib_types.specs.{Tree.{Datum, whole, HasType, IsTyped}, declared.table.Ty.{Ty}, Table.{name_at}};
ghost use Rattle.gib_syntax.specs.{Tree.{Expression, ProgramTree}, Fine.{IsFineProgram}};
ghost use Rattle.gib_syntax.specs.{Declarations.{constructor_names, number_of, table_of_program, input_type}, Typing.{Has, IsTypedProgram, Scope, globals_of}};
ghost use Rattle.gib_syntax.specs.{Meaning.{Gives, Environment, means, run}, Forms.{Form, Forms, Meant, formed, assign}};
ghost use Rattle.gib_syntax.specs.GenericTree.{GenericExpression, GenericFunctionTree, GenericProgramTree, GenericRow, rows_of, globals_of_generic};
ghost use Rattle.gib_syntax.specs.GenericFine.{HasGenericConstructor, IsGenericFine, IsGenericFineProgram};
ghost use Rattle.gib_syntax.specs.{GenericTyping.{FormScope, HasForm, IsTypedGeneric, variable_numbers}, GenericMeaning.{means_generic, run_generic}};
ghost use Rattle.gib_syntax.specs.{Plain.{as_generic, generic_of}, Results.{Results, map_results}, Single.{IsSingle, IsSingleProgram}};
ghost use Rattle.gib_mono.specs.Copying.{Naming, copy, parameter_scope};
ghost use Rattle.gib_mono.specs.Copied.{Item, IsAsked, ScopeHere, plain_scope, shown, shown_outcome, shown_given, shown_environment};
ghost use Rattle.gib_mono.specs.Walk.{Copy, DataOf, FunctionOf, DataCopy, datas_in, plain_copies, function_copies, copied_program, copies_of, base_of, IsNaming};
ghost use Rattle.gib_mono.specs.{Laws.{set_of, Agree, SameScalars}, Naming.{entries, naming_of, number_with, AreBelow}};
ghost use Rattle.gib_mono.specs.{Showing.{source_text, long_text, long_texts, short_texts}, Placed.{placed_program}, Bare.{IsPlainProgram, bare_program}};
ghost use Rattle.gib_mono.specs.Examples.{list_data, len_function, len_program, growing_program, whole_only};

/// The copy of a typed program of the grammar is one.
pub fn copies_are_typed()
    ensures typed { (p : GenericProgramTree) (nm : Naming) (names : List Item) (found : List Copy) → AllByRecursion HasGenericConstructor p.datas → IsTypedGeneric p → copies_of p ≡ Ok found → IsNaming nm names found
        → IsTypedProgram (copied_program p nm found) }
    ensures fine { (p : GenericProgramTree) (nm : Naming) (names : List Item) (found : List Copy) → IsGenericFineProgram p → IsTypedGeneric p → copies_of p ≡ Ok found → IsNaming nm names found
        → IsFineProgram (copied_program p nm found) }
{}

/// The copy means what the program means, each copied constructor read as the one that it is a copy of: as a whole at every
/// depth, and each expression that is typed and whose uses were asked for at every depth and in every environment of its
/// variables' types.
pub fn copies_mean_the_same()
    ensures run { (p : GenericProgramTree) (nm : Naming) (names : List Item) (found : List Copy) (depth : ℕ) (v : Datum) → IsGenericFineProgram p → IsTypedGeneric p → copies_of p ≡ Ok found → IsNaming nm names found
        → HasType (table_of_program (copied_program p nm found)) v (input_type (copied_program p nm found))
        → shown_outcome (base_of (rows_of p.datas) found) (run (copied_program p nm found) depth v) ≡ run_generic p depth (shown (base_of (rows_of p.datas) found) v) }
    ensures each { (p : GenericProgramTree) (nm : Naming) (names : List Item) (found : List Copy) → IsGenericFineProgram p → IsTypedGeneric p → copies_of p ≡ Ok found → IsNaming nm names found
        → (n : ℕ) (vars : List ℕ) (m : Meant) (e : GenericExpression) (gives : Results Form) (scope : FormScope) (env : Environment)
        → IsGenericFine e → HasForm (globals_of_generic p) vars m scope e gives → ScopeHere (set_of p nm found) scope → IsAsked (set_of p nm found) m e
        → Agree (table_of_program (copied_program p nm found)) (plain_scope (set_of p nm found) scope) env
        → shown_given (base_of (rows_of p.datas) found) gives (means (copied_program p nm found) n env (copy (globals_of_generic p) nm m scope e))
        ≡ means_generic p n m scope (shown_environment (base_of (rows_of p.datas) found) env) e }
{}

/// The body of each copied function has its type, and its uses were asked for, so the law above speaks of it.
pub fn uses_are_asked()
    ensures { (p : GenericProgramTree) (nm : Naming) (names : List Item) (found : List Copy) → AllByRecursion HasGenericConstructor p.datas → IsTypedGeneric p → copies_of p ≡ Ok found → IsNaming nm names found
        → (i : ℕ) (h : GenericFunctionTree) (ts : Forms) → slice_get (function_copies found) i ≡ Some (record { function = h; types = ts })
        → ScopeHere (set_of p nm found) (parameter_scope (assign h.variables ts) h.parameters) × IsAsked (set_of p nm found) (assign h.variables ts) h.body
        × HasForm (globals_of_generic p) (variable_numbers h.variables) (assign h.variables ts) (parameter_scope (assign h.variables ts) h.parameters) h.body (map_results (formed (assign h.variables ts)) h.result) }
{}

/// Copies are named by the list of their names with types: a plain name is itself, and each other one stands behind the
/// names of the source.
pub fn names_are_given()
    ensures { (found : List Copy) (base : ℕ) → AreBelow base found → IsNaming (naming_of base (entries found)) (entries found) found }
{}

/// In value texts a copied constructor has the text of the one that it is a copy of; in cores, code and descriptions a copied
/// type has its name with its types. The names are the texts of the source's, by their numbers.
pub fn copies_are_shown()
    ensures short { (p : GenericProgramTree) (found : List Copy) (names : List (List ℕ)) → AllByRecursion HasGenericConstructor p.datas → IsTypedGeneric p → copies_of p ≡ Ok found → AreBelow (length names) found
        → (d : ℕ) → d < length (table_of_program (copied_program p (naming_of (length names) (entries found)) found)).rows
        → (row : GenericRow) × (slice_get (rows_of p.datas) (base_of (rows_of p.datas) found d) ≡ Some row)
        × (slice_get (short_texts names (entries found)) (name_at (table_of_program (copied_program p (naming_of (length names) (entries found)) found)) d) ≡ Some (source_text names row.name)) }
    ensures long { (p : GenericProgramTree) (found : List Copy) (names : List (List ℕ)) → AreBelow (length names) found → (i : ℕ) (c : DataCopy) → slice_get (datas_in found) i ≡ Some c
        → slice_get (long_texts names (entries found)) (number_with (length names) (entries found) (number_of c.decl.name) c.types) ≡ Some (long_text names (number_of c.decl.name) c.types) }
{}

/// A program without type parameters asks for its own declarations alone. Where nothing in it gives several parts, it is its own copy
/// but for a binding of a list of one name, which is one of that name; the grammar has no such binding. Where something gives several
/// parts, a typed program is its own copy with the types of parts where these stand: as one that may have type parameters it has no
/// types there.
pub fn plain_programs_are_their_own()
    ensures walk { (p : ProgramTree) → copies_of (generic_of p) ≡ Ok (plain_copies (generic_of p)) }
    ensures same { (p : ProgramTree) (base : ℕ) (names : List Item) → IsSingleProgram (generic_of p) → copied_program (generic_of p) (naming_of base names) (plain_copies (generic_of p)) ≡ placed_program p }
    ensures own { (p : ProgramTree) → IsFineProgram p → IsSingleProgram (generic_of p) → placed_program p ≡ p }
    ensures parts { (p : ProgramTree) (base : ℕ) (names : List Item) → IsTypedProgram p → copied_program (generic_of p) (naming_of base names) (plain_copies (generic_of p)) ≡ placed_program p }
{}

/// A typed program none of whose declarations has type variables, and in which nothing gives several parts, is copied as it stands:
/// its copies are its own declarations, in their order, and its copy is itself.
pub fn plain_programs_are_copied_as_they_stand()
    ensures walk { (p : GenericProgramTree) → IsTypedGeneric p → IsPlainProgram p → copies_of p ≡ Ok (plain_copies p) }
    ensures same { (p : GenericProgramTree) (base : ℕ) (names : List Item) → IsTypedGeneric p → IsPlainProgram p → copied_program p (naming_of base names) (plain_copies p) ≡ bare_program p }
{}

/// In the copy of such a program each constructor has the number of its own, each value is itself, and the program means what its
/// copy means: what is said of copies is said of the program as it stands.
pub fn plain_copies_mean_the_same()
    ensures number { (p : GenericProgramTree) (d : ℕ) → IsTypedGeneric p → IsPlainProgram p → d < length (rows_of p.datas) → base_of (rows_of p.datas) (plain_copies p) d ≡ d }
    ensures value { (p : GenericProgramTree) (v : Datum) → IsTypedGeneric p → IsPlainProgram p → IsTyped (table_of_program (bare_program p)) v → shown (base_of (rows_of p.datas) (plain_copies p)) v ≡ v }
    ensures run { (p : GenericProgramTree) (base depth : ℕ) (v : Datum) → IsGenericFineProgram p → IsTypedGeneric p → IsPlainProgram p → AreBelow base (plain_copies p)
        → HasType (table_of_program (bare_program p)) v (input_type (bare_program p)) → run_generic p depth v ≡ run (bare_program p) depth v }
{}

/// A typed program without type parameters, read as one that may have some, is what it is without them. It means the same: as a
/// whole at every depth, and, at every depth and in every environment, each expression in which nothing gives several parts, and
/// each one that is typed where the same variables are scalars. Its constructors have their numbers and names, and each value is
/// itself; a name of the source has its text in values, cores, code and descriptions.
pub fn plain_programs_mean_the_same()
    ensures run { (p : ProgramTree) (depth : ℕ) (v : Datum) → IsTypedProgram p → run_generic (generic_of p) depth v ≡ run p depth v }
    ensures each { (p : ProgramTree) (n : ℕ) (m : Meant) (scope : FormScope) (e : Expression) (env : Environment) → IsTypedProgram p → IsSingle (as_generic e)
        → means_generic (generic_of p) n m scope env (as_generic e) ≡ means p n env e }
    ensures parts { (p : ProgramTree) (n : ℕ) (m : Meant) (scope : Scope) (forms : FormScope) (e : Expression) (gives : Results Ty) (env : Environment) → IsTypedProgram p → Has (globals_of p) scope e gives
        → SameScalars scope forms → means_generic (generic_of p) n m forms env (as_generic e) ≡ means p n env e }
    ensures names { (p : ProgramTree) → map (λ (r : GenericRow). r.name) (rows_of (generic_of p).datas) ≡ constructor_names (table_of_program p) }
    ensures value { (p : ProgramTree) (v : Datum) → IsTypedProgram p → IsTyped (table_of_program p) v → shown (base_of (rows_of (generic_of p).datas) (plain_copies (generic_of p))) v ≡ v }
    ensures texts { (names : List (List ℕ)) (items : List Item) (x : ℕ) → x < length names → (slice_get (short_texts names items) x ≡ slice_get names x) × (slice_get (long_texts names items) x ≡ slice_get names x) }
{}

/// Two programs: one that takes the length of a list of one number, and one that asks for ever longer types.
pub fn examples()
    // The one is copied for `Int` alone, the function before the type that it takes.
    ensures copied { (p : Span) → copies_of (len_program p) ≡ Ok (FunctionOf (len_function p) whole_only ∷ DataOf (list_data p) whole_only ∷ []) }
    ensures length { (p : Span) → run_generic (len_program p) 2 (whole (pos 5)) ≡ Gives (whole (pos 1)) }
    // The other is over the limit at the use in its function's body.
    ensures limit { (p q : Span) → copies_of (growing_program p q) ≡ Err q }
{}

//! The laws that carry what is promised of the copy of a source over to the source as it is written, and to its files: functions whose
//! contracts are the laws.

ghost use Rattle.std.specs.Prelude.{◌≡◌, ◌↔◌, ◌∷◌, [], ◌++◌, ℕ, List, length};
ghost use Rattle.gib_base.specs.Texts.{TextsView};
ghost use Rattle.gib_types.specs.{declared.table.Ty.{Ty}, Table.{IsTyBelow}, Tree.{Datum, HasType}};
ghost use Rattle.gib_file.specs.{Describing.{Describes}, Framed.{File2}, Named.{AreNamed}};
ghost use Rattle.gib_syntax.specs.{Declarations.{table_of_program, input_type, output_type}, GenericTree.{rows_of}, Meaning.{Reason}, Tree.{ProgramTree}};
ghost use Rattle.gib_mono.specs.{Copied.{shown}, Walk.{base_of}};
ghost use Rattle.gib_app.specs.{GenericText.{generic_text}, Headline.{IsResult, HasNoResult}, Running.{IsProgram, IsOutput, MeansNone, text_line}};

/// What a job promises of the copy of a source (`IsProgram`) is so of the source as it is written: what `plain` and `trace` print is what
/// `run` prints, and where they have no value it has none, for the same reason; the texts that `show`, `replay` and `pack` put or read are those
/// of the values as which the copy's are read.
pub fn what_copies_mean_sources_mean()
    // The text of what the copy means on an input is that of what the source means, and the other way round.
    ensures output { (source input output : List ℕ) (depth : ℕ) (names : TextsView) (p : ProgramTree) → IsProgram source names p
        → IsOutput p names depth input output → IsResult source input depth output }
    ensures result { (source input output : List ℕ) (depth : ℕ) → IsResult source input depth output
        → (names : TextsView) × (p : ProgramTree) × IsProgram source names p × IsOutput p names depth input output }
    // Where the copy means none, the source means none, for the same reason, and the other way round.
    ensures none { (source input : List ℕ) (depth : ℕ) (why : Reason) (names : TextsView) (p : ProgramTree) → IsProgram source names p
        → MeansNone p names depth input why → HasNoResult source input depth why }
    ensures lacks { (source input : List ℕ) (depth : ℕ) (why : Reason) → HasNoResult source input depth why
        → (names : TextsView) × (p : ProgramTree) × IsProgram source names p × MeansNone p names depth input why }
    // A value of the copy has the text of the value as which it is read.
    ensures text { (source : List ℕ) (names : TextsView) (p : ProgramTree) (is : IsProgram source names p) (v : Datum) (ty : Ty)
        → HasType (table_of_program p) v ty
        → text_line p names v ≡ generic_text (rows_of is.generic.datas) is.lexed.names (shown (base_of (rows_of is.generic.datas) is.copy.found) v) ++ 10 ∷ [] }
{}

/// The table and the texts of a source's copy are as descriptions need them, and so are the types of its input and result. So what is said
/// of types with one description, and of where files agree (`gib_file`), is said of the copies of all sources: what one program has as its
/// result another one has as its input, with the same files, where their descriptions are the same.
pub fn copies_are_named()
    ensures names { (source : List ℕ) (names : TextsView) (p : ProgramTree) → IsProgram source names p → AreNamed (table_of_program p) names.long }
    ensures input { (p : ProgramTree) → IsTyBelow (length (table_of_program p).types) (input_type p) }
    ensures output { (p : ProgramTree) → IsTyBelow (length (table_of_program p).types) (output_type p) }
    ensures next { (source other : List ℕ) (names others : TextsView) (p q : ProgramTree) (description : List ℕ)
        → IsProgram source names p → IsProgram other others q
        → Describes (table_of_program p) names.long (output_type p) description → Describes (table_of_program q) others.long (input_type q) description
        → (v : Datum) (bytes : List ℕ)
        → File2 (table_of_program p) names.long (output_type p) v bytes ↔ File2 (table_of_program q) others.long (input_type q) v bytes }
{}

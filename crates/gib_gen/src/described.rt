//! The laws of programs whose inputs have one description: functions whose contracts are the laws.

ghost use Rattle.std.specs.Prelude.{◌↔◌, ◌<◌, ℕ, List, length};
ghost use Rattle.gib_base.specs.{Names.{AreNames}, Lexed.{Lexed}};
ghost use Rattle.gib_types.specs.{Table.{IsTyBelow}, Tree.{Datum}};
ghost use Rattle.gib_syntax.specs.{Tree.{ProgramTree}, Source.{Spells}, Plain.{generic_of}, Typing.{IsTypedProgram}};
ghost use Rattle.gib_syntax.specs.Declarations.{table_of_program, input_type, output_type};
ghost use Rattle.gib_file.specs.{Packed.{Packed}, Framed.{File2}, Describing.{Describes, type_text}, Named.{AreNamed}};
ghost use Rattle.gib_value.specs.Reading.{IsWord, AreWords};

/// The table and the names of a program that is spelled and typed are as descriptions need them, and so are the types of its input
/// and result. Its names are different texts, and those of its types and constructors are words.
pub fn programs_are_named()
    ensures names { (text : List ℕ) (l : Lexed) (p : ProgramTree) → Spells text l (generic_of p) → IsTypedProgram p → AreNamed (table_of_program p) l.names }
    ensures texts { (text : List ℕ) (l : Lexed) (p : ProgramTree) → Spells text l (generic_of p) → AreNames l.names }
    ensures types { (text : List ℕ) (l : Lexed) (p : ProgramTree) → Spells text l (generic_of p) → (t : ℕ) → t < length (table_of_program p).types → IsWord (type_text (table_of_program p) l.names t) }
    ensures constructors { (text : List ℕ) (l : Lexed) (p : ProgramTree) → Spells text l (generic_of p) → AreWords (table_of_program p) l.names }
    ensures input { (p : ProgramTree) → IsTypedProgram p → IsTyBelow (length (table_of_program p).types) (input_type p) }
    ensures output { (p : ProgramTree) → IsTypedProgram p → IsTyBelow (length (table_of_program p).types) (output_type p) }
{}

/// Two programs whose inputs have one description have the same inputs, with the same packed bytes and the same files of version 2.
pub fn inputs_described_alike()
    ensures bytes { (text other : List ℕ) (l m : Lexed) (p q : ProgramTree) (description : List ℕ) → Spells text l (generic_of p) → IsTypedProgram p → Spells other m (generic_of q) → IsTypedProgram q
        → Describes (table_of_program p) l.names (input_type p) description → Describes (table_of_program q) m.names (input_type q) description
        → (v : Datum) (bytes : List ℕ) → Packed (table_of_program p) (input_type p) v bytes ↔ Packed (table_of_program q) (input_type q) v bytes }
    ensures files { (text other : List ℕ) (l m : Lexed) (p q : ProgramTree) (description : List ℕ) → Spells text l (generic_of p) → IsTypedProgram p → Spells other m (generic_of q) → IsTypedProgram q
        → Describes (table_of_program p) l.names (input_type p) description → Describes (table_of_program q) m.names (input_type q) description
        → (v : Datum) (bytes : List ℕ) → File2 (table_of_program p) l.names (input_type p) v bytes ↔ File2 (table_of_program q) m.names (input_type q) v bytes }
{}

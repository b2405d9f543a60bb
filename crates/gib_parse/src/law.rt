//! Laws of reading: functions that do nothing, whose contracts say what holds of every list of tokens.

ghost use Rattle.std.specs.Prelude.{◌≡◌, ◌≤◌, ◌<◌, ◌⊎◌, ℕ, List, [], Ok, Err};
ghost use Rattle.gib_base.specs.{Lexed.{Lexed, IsLexed}, Spelling.{tokens_text}, declared.token.Token.{Token}};
ghost use Rattle.gib_syntax.specs.{Source.{Spells}, GenericTree.{GenericProgramTree}};
ghost use Rattle.gib_syntax.specs.Spelling.{Places, spell_program, Derives, IsPlacedProgram, levels_program, Blames};
ghost use Rattle.gib_parse.specs.Reading.{Fault, At, Nested, left_of, whole_in, whole};
ghost use Rattle.gib_parse.specs.Blaming.{Deepens, Begun, BegunWith, Sinks, Floats, IsBlamedAt, IsTooDeepAt};

/// What is read is a program that the tokens spell, of at most 200 levels, with the spans of its
/// tokens, and no token is left.
pub fn read_is_program()
    ensures { (at : Places) (tokens : List Token) (p : GenericProgramTree) (rest : List Token) → whole at tokens ≡ Ok (p, rest)
        → Derives tokens p × IsPlacedProgram at p × (levels_program p ≤ 200) × (rest ≡ []) }
{}

/// A program of at most 200 levels that the tokens spell, with the spans of its tokens, is what is read.
pub fn program_is_read()
    ensures { (at : Places) (tokens : List Token) (p : GenericProgramTree) → Derives tokens p → IsPlacedProgram at p → levels_program p ≤ 200 → whole at tokens ≡ Ok (p, []) }
{}

/// Where the tokens spell a program of at most 200 levels, whatever spans it carries, a program is read.
pub fn program_is_accepted()
    ensures { (at : Places) (tokens : List Token) (p : GenericProgramTree) → Derives tokens p → levels_program p ≤ 200 → (q : GenericProgramTree) × (whole at tokens ≡ Ok (q, [])) }
{}

/// No program's tokens begin with the tokens up to and including one that is refused; where tokens are
/// missing, these are no program's.
pub fn refused_is_blamed()
    ensures { (at : Places) (tokens : List Token) (left : ℕ) → whole at tokens ≡ Err (At left) → Blames tokens left }
{}

/// A refused token is the first: some program's tokens begin with the tokens before it.
pub fn refused_is_first()
    ensures { (at : Places) (tokens : List Token) (left : ℕ) → whole at tokens ≡ Err (At left) → Begun tokens left }
{}

/// Each program whose tokens begin with those up to and including one that is nested too deep has more
/// than 200 levels.
pub fn nested_is_deep()
    ensures { (at : Places) (tokens : List Token) (left : ℕ) → whole at tokens ≡ Err (Nested left) → Deepens tokens left }
{}

/// A token that is nested too deep begins an expression on level 201: with that level, reading goes past it.
pub fn nested_is_first()
    ensures { (at : Places) (tokens : List Token) (left : ℕ) (fault : Fault) → whole at tokens ≡ Err (Nested left) → whole_in 201 at tokens ≡ Err fault → left_of fault < left }
{}

/// Levels don't count where a token is refused: with any more of them it is refused too.
pub fn refused_at_any_level()
    ensures { (at : Places) (tokens : List Token) (left levels : ℕ) → 200 ≤ levels → whole at tokens ≡ Err (At left) → whole_in levels at tokens ≡ Err (At left) }
{}

/// Tokens spell one program at most, given the spans of the tokens.
pub fn one_program()
    ensures { (at : Places) (tokens : List Token) (p q : GenericProgramTree) → Derives tokens p → Derives tokens q → IsPlacedProgram at p → IsPlacedProgram at q → p ≡ q }
{}

/// A source text spells one program at most, with one list of tokens.
pub fn one_text()
    ensures { (text : List ℕ) (l m : Lexed) (p q : GenericProgramTree) → Spells text l p → Spells text m q → (l ≡ m) × (p ≡ q) }
{}

/// A token that is nested too deep stands where some program's tokens go on with it.
pub fn nested_is_begun()
    ensures { (at : Places) (tokens : List Token) (left : ℕ) → whole at tokens ≡ Err (Nested left) → BegunWith tokens left }
{}

/// A token that is nested too deep begins the first expression on level 201, in each program whose tokens
/// begin with those up to and including it.
pub fn nested_sinks()
    ensures { (at : Places) (tokens : List Token) (left : ℕ) → whole at tokens ≡ Err (Nested left) → Sinks tokens left }
{}

/// Before a refused token no expression on level 201 begins, in no program whose tokens begin with those before
/// it.
pub fn none_sinks_before()
    ensures { (at : Places) (tokens : List Token) (left : ℕ) → whole at tokens ≡ Err (At left) → Floats tokens left }
{}

/// Tokens have one fault at most, at one place and of one kind; and one just where they spell no program of at most
/// 200 levels.
pub fn one_blame()
    ensures blamed { (l : Lexed) (p q : ℕ) → IsBlamedAt l p → IsBlamedAt l q → p ≡ q }
    ensures nested { (l : Lexed) (p q : ℕ) → IsTooDeepAt l p → IsTooDeepAt l q → p ≡ q }
    ensures either { (l : Lexed) (p q : ℕ) → IsBlamedAt l p → IsTooDeepAt l q → ⊥ }
    ensures not_blamed { (l : Lexed) (place : ℕ) (p : GenericProgramTree) → Derives l.tokens p → IsBlamedAt l place → ⊥ }
    ensures not_nested { (l : Lexed) (place : ℕ) (p : GenericProgramTree) → Derives l.tokens p → levels_program p ≤ 200 → IsTooDeepAt l place → ⊥ }
    ensures some { (l : Lexed) → ((p : GenericProgramTree) → Derives l.tokens p → levels_program p ≤ 200 → ⊥) → (place : ℕ) × (IsBlamedAt l place ⊎ IsTooDeepAt l place) }
{}

/// What a program that was read from a text's tokens is printed as, with the text's names, is lexed again: into the
/// same names and tokens, which spell the same program.
pub fn printed_is_read()
    ensures { (at : Places) (text : List ℕ) (l : Lexed) (p : GenericProgramTree) (rest : List Token) → IsLexed text l → whole at l.tokens ≡ Ok (p, rest)
        → (m : Lexed) × IsLexed (tokens_text l.names (spell_program p [])) m × (m.names ≡ l.names) × (m.tokens ≡ l.tokens) × Derives m.tokens p }
{}

//! Laws of the tree and its tokens: functions that do nothing, whose contracts say what holds of every tree.

ghost use Rattle.std.specs.Prelude.{◌≡◌, ◌∷◌, ◌++◌, ◌<◌, [], ℕ, suc, List, length, Ok, Err};
ghost use Rattle.gib_local_parse.specs.{Tree.{LocalTree}, Tree.{Line as Term}, Refused.{Blames, IsFirstBlamed, left_behind}, Grammar.{sign, spell_line, parse}};
ghost use Rattle.gib_local_parse.specs.{Stepping.{Stack, One, TermS, Fails, run, HasOperands}, Placed.{LineAt, Follows}, Texts.{spell_text, whole_text}};
ghost use Rattle.gib_local_parse.specs.PlacedTexts.{TextIn, TextAt};
ghost use Rattle.gib_base.specs.declared.token.Token.{Token};
ghost use Rattle.gib_base.specs.declared.token.Sign.TheVariants as s;
ghost use Rattle.gib_reads.specs.Readers.{Fault, At, Nested, left_of};
ghost use Rattle.gib_syntax.specs.Spelling.{Places};

/// Words spell one term at most that stands where they stand, in so many levels, where nothing goes on with an operand or an `@`.
#[tactic(auto, using(crate::proofs::Reading::one_line))]
pub fn one_tree()
    ensures { (at : Places) (t u : Term) (n : ℕ) (rest : List Token) → Follows at rest → LineAt at t n rest → LineAt at u n rest → spell_line t rest ≡ spell_line u rest → t ≡ u }
{}

/// Tokens spell one text at most that stands where they stand.
#[tactic(auto, using(crate::proofs::TextsRead::one_text))]
pub fn one_text()
    ensures { (at : Places) (t u : LocalTree) → TextAt at t [] → TextAt at u [] → spell_text t [] ≡ spell_text u [] → t ≡ u }
{}

/// What is read is a text that the tokens spell and that stands where they stand, of at most 200 levels; no token is left.
#[tactic(auto, using(crate::proofs::WholeLaws::read_sound))]
pub fn read_is_text()
    ensures { (at : Places) (tokens : List Token) (t : LocalTree) (rest : List Token) → whole_text at tokens ≡ Ok (t, rest) → (spell_text t [] ≡ tokens) × TextAt at t [] × (rest ≡ []) }
{}

/// A text that stands where its tokens stand, of at most 200 levels, is what is read.
#[tactic(auto, using(crate::proofs::TextsRead::whole_back))]
pub fn text_is_read()
    ensures { (at : Places) (t : LocalTree) → TextAt at t [] → whole_text at (spell_text t []) ≡ Ok (t, []) }
{}

/// No text's tokens begin with the tokens up to and including one that is refused, or that is nested too deep; where tokens
/// are missing, these are no text's.
#[tactic(auto, using(crate::proofs::WholeLaws::blamed))]
pub fn refused_is_blamed()
    ensures { (at : Places) (tokens : List Token) (fault : Fault) → whole_text at tokens ≡ Err fault → Blames tokens (left_of fault) }
{}

/// A refused token is the first: some text's tokens begin with the tokens before it, and levels don't count, for no text of however many has tokens that
/// begin with those up to and including it.
pub fn refused_is_first()
    ensures { (at : Places) (tokens : List Token) (left : ℕ) → whole_text at tokens ≡ Err (At left) → IsFirstBlamed tokens left }
{}

/// Tokens have one such token at most, and a text's tokens have none.
pub fn one_blame()
    ensures blamed { (tokens : List Token) (left also : ℕ) → IsFirstBlamed tokens left → IsFirstBlamed tokens also → left ≡ also }
    ensures not_blamed { (levels : ℕ) (at : Places) (t : LocalTree) (left : ℕ) → TextIn levels at t [] → IsFirstBlamed (spell_text t []) left → ⊥ }
{}

/// With more levels the same term is read, and the same token is refused; of a term that is nested too deep reading goes past the first token.
#[tactic(auto, using(crate::proofs::WholeLaws::more_read, crate::proofs::WholeLaws::more_refused, crate::proofs::WholeLaws::more_nested))]
pub fn levels_count_where_nested()
    ensures read { (at : Places) (levels more : ℕ) (tokens : List Token) (t : Term) (rest : List Token) → levels < more → parse at levels tokens ≡ Ok (t, rest) → parse at more tokens ≡ Ok (t, rest) }
    ensures refused { (at : Places) (levels more : ℕ) (tokens : List Token) (left : ℕ) → levels < more → parse at levels tokens ≡ Err (At left) → parse at more tokens ≡ Err (At left) }
    ensures nested { (at : Places) (levels more : ℕ) (tokens : List Token) (left : ℕ) → levels < more → parse at levels tokens ≡ Err (Nested left) → left_behind (parse at more tokens) < left }
{}

/// Where words are refused at the last of them, they are so whatever follows, and no term before a semicolon begins with them.
#[tactic(auto, using(crate::proofs::Stepping::fails_whatever, crate::proofs::Stepping::none_begins))]
pub fn refused_word()
    ensures whatever { (ws more : List Token) (w : Token) (k : Stack) → run (ws ++ w ∷ []) k ≡ Fails 1 → run (ws ++ w ∷ more) k ≡ Fails (suc (length more)) }
    ensures none { (ws more : List Token) (w : Token) (u : Term) → run (ws ++ w ∷ []) (TermS ∷ One (sign s.Semicolon) ∷ []) ≡ Fails 1 → HasOperands u → spell_line u (sign s.Semicolon ∷ []) ≡ ws ++ w ∷ more → ⊥ }
{}

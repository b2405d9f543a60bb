//! The laws of lexing. Each function does nothing: its contract is the law.

ghost use Rattle.std.specs.Prelude.{◌≡◌, ◌≤◌, ℕ, List, length};
ghost use Rattle.std.specs.List.{AllByRecursion};
ghost use Rattle.gib_base.specs.{Spelling.{tokens_text}, Lexed.{Lexed, IsLexed, IsLexedIn, AreTokens}};
ghost use Rattle.gib_base.specs.Printing.{IsWritable, IsWritableIn, IsReadAgain, IsReadAgainIn};
ghost use Rattle.gib_lex.specs.Refused.{IsRefused, IsRefusedIn};

use crate::fault::LexFault;
use gib_base::token::{Dialect, Token};

/// A program's text makes one thing at most.
pub fn one_reading()
    ensures { (bytes : List ℕ) (l m : Lexed) → IsLexed bytes l → IsLexed bytes m → l ≡ m }
{}

/// A program's text that is refused makes nothing within the limits, and it is refused for one reason, at one place.
pub fn one_refusal()
    ensures nothing { (bytes : List ℕ) (fault : LexFault) (l : Lexed) → IsRefused bytes fault → IsLexed bytes l → length bytes ≤ 1048576 → length l.names ≤ 65535 → ⊥ }
    ensures one { (bytes : List ℕ) (f g : LexFault) → IsRefused bytes f → IsRefused bytes g → f ≡ g }
{}

/// What a program's text within the limits makes is what `Tokens` always are.
pub fn whole()
    ensures { (bytes : List ℕ) (l : Lexed) → IsLexed bytes l → length bytes ≤ 1048576 → length l.names ≤ 65535 → AreTokens l }
{}

/// Tokens that are written with one space between two are read again: the same tokens, with the names that they
/// use in the order of first use.
pub fn read_again()
    ensures { (names : List (List ℕ)) (tokens : List Token) → AllByRecursion (IsWritable names) tokens → (l : Lexed) × IsReadAgain names tokens l }
{}

/// The tokens of a program's text can be written, and then they make the same names and tokens.
pub fn same_again()
    ensures writable { (bytes : List ℕ) (l : Lexed) → IsLexed bytes l → AllByRecursion (IsWritable l.names) l.tokens }
    ensures same { (bytes : List ℕ) (l m : Lexed) → IsLexed bytes l → IsLexed (tokens_text l.names l.tokens) m → (m.names ≡ l.names) × (m.tokens ≡ l.tokens) }
{}

/// A text of a dialect makes one thing at most.
pub fn one_reading_in()
    ensures { (dialect : Dialect) (bytes : List ℕ) (l m : Lexed) → IsLexedIn dialect bytes l → IsLexedIn dialect bytes m → l ≡ m }
{}

/// A text of a dialect that is refused makes nothing within the limits, and it is refused for one reason, at one place.
pub fn one_refusal_in()
    ensures nothing { (dialect : Dialect) (bytes : List ℕ) (fault : LexFault) (l : Lexed) → IsRefusedIn dialect bytes fault → IsLexedIn dialect bytes l → length bytes ≤ 1048576 → length l.names ≤ 65535 → ⊥ }
    ensures one { (dialect : Dialect) (bytes : List ℕ) (f g : LexFault) → IsRefusedIn dialect bytes f → IsRefusedIn dialect bytes g → f ≡ g }
{}

/// Tokens of a dialect that are written with one space between two are read again.
pub fn read_again_in()
    ensures { (dialect : Dialect) (names : List (List ℕ)) (tokens : List Token) → AllByRecursion (IsWritableIn dialect names) tokens → (l : Lexed) × IsReadAgainIn dialect names tokens l }
{}

/// The tokens of a text of a dialect can be written, and then they make the same names and tokens.
pub fn same_again_in()
    ensures writable { (dialect : Dialect) (bytes : List ℕ) (l : Lexed) → IsLexedIn dialect bytes l → AllByRecursion (IsWritableIn dialect l.names) l.tokens }
    ensures same { (dialect : Dialect) (bytes : List ℕ) (l m : Lexed) → IsLexedIn dialect bytes l → IsLexedIn dialect (tokens_text l.names l.tokens) m → (m.names ≡ l.names) × (m.tokens ≡ l.tokens) }
{}

//! Tokens of a source text.

ghost use Rattle.std.specs.Prelude.{◌≡◌, ◌≤◌, ◌↔◌, ◌^◌, nat_lt, IsTrue};

use crate::Name;
use crate::limits::LITERAL;

/// Which texts a text is one of: programs, or programs whose places are written out. The second have words and signs
/// that the first do not have.
#[derive(Clone, Copy, PartialEq, Eq)]
pub enum Dialect {
    Source,
    Located,
}

/// The words and signs of the language. Those behind `Comma` are words and signs of `Dialect::Located` alone.
#[derive(Clone, Copy, Debug, PartialEq, Eq)]
pub enum Sign {
    Data,
    Fun,
    Main,
    Let,
    Par,
    And,
    In,
    If,
    Then,
    Else,
    Case,
    Of,
    True,
    False,
    Int,
    Bool,
    /// `quot`
    Quotient,
    /// `rem`
    Remainder,
    /// `=`
    Equals,
    /// `|`
    Bar,
    /// `;`
    Semicolon,
    /// `(`
    Open,
    /// `)`
    Close,
    /// `:`
    Colon,
    /// `{`
    OpenBrace,
    /// `}`
    CloseBrace,
    /// `[`
    OpenBracket,
    /// `]`
    CloseBracket,
    /// `->`
    Arrow,
    /// `+`
    Plus,
    /// `-`
    Minus,
    /// `*`
    Times,
    /// `==`
    Same,
    /// `<`
    Less,
    /// `,`
    Comma,
    /// `@`
    At,
    /// `offsets`
    Offsets,
    /// `letregion`
    LetRegion,
    /// `letloc`
    LetLocation,
    /// `reach`
    Reach,
    /// `by`
    By,
    /// `offset`
    Offset,
    /// `skip`
    Skip,
    /// `end`
    End,
    /// `give`
    Give,
    /// `point`
    Point,
    /// `start`
    Start,
    /// `after`
    After,
}

/// A token: a name that begins with a lower-case letter, one that begins with an upper-case letter,
/// a number, or a word or sign of the language.
#[derive(Clone, Copy, Debug, PartialEq, Eq)]
pub enum Token {
    Variable(Name),
    Constructor(Name),
    Number(u64),
    Sign(Sign),
}

/// What a piece of a source text is.
#[derive(Clone, Copy, PartialEq, Eq)]
pub enum Piece {
    /// A blank or a comment, which is no token.
    Gap,
    Sign(Sign),
    /// A name that begins with a lower-case letter.
    Variable,
    /// A name that begins with an upper-case letter.
    Constructor,
    Number(u64),
    /// Digits that stand for more than the greatest literal.
    TooBig,
}

/// Whether a number is at most the greatest literal.
pub fn is_literal(number: u64) -> bool
    ensures value { result ≡ nat_lt number (2 ^ 63) }
    ensures greatest { IsTrue result ↔ (number ≤ LITERAL) }
{
    number <= LITERAL
}

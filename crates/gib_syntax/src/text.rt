//! Tokens as text.

ghost use Rattle.std.specs.Prelude.{◌≡◌, ◌++◌, [], ◌∷◌, IfOk, OnOk};
ghost use Rattle.gib_base.specs.Spelling.{sign_text, token_text, tokens_text};

use gib_base::token::{Sign, Token};
use gib_base::{Memory, Names, push_decimal};
use std::alloc::Global;

/// How a word or sign is written.
pub fn sign_text(sign: Sign) -> &'static [u8]
    ensures { result.now ≡ sign_text sign }
{
    match sign {
        Sign::Data => b"data",
        Sign::Fun => b"fun",
        Sign::Main => b"main",
        Sign::Let => b"let",
        Sign::Par => b"par",
        Sign::And => b"and",
        Sign::In => b"in",
        Sign::If => b"if",
        Sign::Then => b"then",
        Sign::Else => b"else",
        Sign::Case => b"case",
        Sign::Of => b"of",
        Sign::True => b"True",
        Sign::False => b"False",
        Sign::Int => b"Int",
        Sign::Bool => b"Bool",
        Sign::Quotient => b"quot",
        Sign::Remainder => b"rem",
        Sign::Equals => b"=",
        Sign::Bar => b"|",
        Sign::Semicolon => b";",
        Sign::Open => b"(",
        Sign::Close => b")",
        Sign::Colon => b":",
        Sign::OpenBrace => b"{",
        Sign::CloseBrace => b"}",
        Sign::OpenBracket => b"[",
        Sign::CloseBracket => b"]",
        Sign::Arrow => b"->",
        Sign::Plus => b"+",
        Sign::Minus => b"-",
        Sign::Times => b"*",
        Sign::Same => b"==",
        Sign::Less => b"<",
        Sign::At => b"@",
        Sign::Offsets => b"offsets",
        Sign::LetRegion => b"letregion",
        Sign::LetLocation => b"letloc",
        Sign::Reach => b"reach",
        Sign::By => b"by",
        Sign::Offset => b"offset",
        Sign::Skip => b"skip",
        Sign::End => b"end",
        Sign::Give => b"give",
        Sign::Point => b"point",
        Sign::Start => b"start",
        Sign::After => b"after",
        Sign::Comma => b",",
    }
}

/// Writes a token.
fn push_token(alloc: Global, out: &mut Vec<u8>, names: &Names, token: Token) -> Result<(), Memory>
    ensures { OnOk result (out.new.items ≡ out.old.items ++ token_text names.now token) }
{
    match token {
        Token::Variable(name) => {
            out.extend_from_slice(names.text_or_none(name))?;
            Ok(())
        }
        Token::Constructor(name) => {
            out.extend_from_slice(names.text_or_none(name))?;
            Ok(())
        }
        Token::Number(value) => push_decimal(alloc, out, value),
        Token::Sign(sign) => {
            out.extend_from_slice(sign_text(sign))?;
            Ok(())
        }
    }
}

/// Writes a token behind another one: a space stands between them.
fn push_next(alloc: Global, out: &mut Vec<u8>, names: &Names, token: Token) -> Result<(), Memory>
    ensures { OnOk result (out.new.items ≡ (out.old.items ++ 32 ∷ []) ++ token_text names.now token) }
{
    out.push(b' ')?;
    push_token(alloc, out, names, token)
}

/// Tokens with one space between two.
pub(crate) fn text_of(alloc: Global, tokens: &[Token], names: &Names) -> Result<Vec<u8>, Memory>
    ensures { IfOk result (λ out. out.items ≡ tokens_text names.now tokens.now) }
{
    let mut out = Vec::new(alloc);
    if tokens.is_empty() {
        return Ok(out);
    }
    push_token(alloc, &mut out, names, tokens[0])?;
    for i in 1..tokens.len() {
        push_next(alloc, &mut out, names, tokens[i])?;
    }
    Ok(out)
}

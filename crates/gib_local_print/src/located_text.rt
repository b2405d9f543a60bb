//! Tokens of LoCal text as bytes.

ghost use Rattle.std.specs.Prelude.{◌≡◌, ◌++◌, None, Some, [], not, nat_lt, slice_get, unwrap_or, if◌then◌else◌, IfOk, OnOk};
ghost use Rattle.std.specs.Result.{IsErrOf};
ghost use Rattle.std.specs.List.{list_all};
ghost use Rattle.gib_base.specs.{Piece.{is_name_byte}, Spelling.{sign_text}};
ghost use Rattle.gib_local_print.specs.LocatedText.{is_word, is_name, is_named, given_text, written, gap, spaced, text_with};

use crate::print_fault::PrintFault;
use crate::spelled::FIRST_GIVEN;
use gib_base::letters::is_name_byte;
use gib_base::token::{Sign, Token};
use gib_base::{Memory, Name, Texts, push_decimal};
use gib_syntax::sign_text;
use std::alloc::Global;

/// The words of the language.
const WORDS: [Sign; 30] = [
    Sign::Data,
    Sign::Fun,
    Sign::Main,
    Sign::Let,
    Sign::Par,
    Sign::And,
    Sign::In,
    Sign::If,
    Sign::Then,
    Sign::Else,
    Sign::Case,
    Sign::Of,
    Sign::True,
    Sign::False,
    Sign::Int,
    Sign::Bool,
    Sign::Quotient,
    Sign::Remainder,
    Sign::Offsets,
    Sign::LetRegion,
    Sign::LetLocation,
    Sign::Reach,
    Sign::By,
    Sign::Offset,
    Sign::Skip,
    Sign::End,
    Sign::Give,
    Sign::Point,
    Sign::Start,
    Sign::After,
];

/// Whether a text is a word of the language.
fn is_word(text: &[u8]) -> bool
    ensures { result ≡ is_word text.now }
{
    WORDS.iter().any(|word| text == sign_text(*word))
}

/// Whether a letter is an upper-case one, or a lower-case one.
fn is_case(upper: bool, letter: u8) -> bool
    ensures { result ≡ (if nat_lt letter 91 then upper else not upper) }
{
    if letter < 91 { upper } else { !upper }
}

/// Whether all of these bytes go on a name.
fn are_name_bytes(bytes: &[u8]) -> bool
    ensures { result ≡ list_all is_name_byte bytes.now }
{
    bytes.iter().all(|byte| is_name_byte(*byte))
}

/// Whether a text is a name that begins with an upper-case letter, or with a lower-case one.
fn is_name(upper: bool, text: &[u8]) -> bool
    ensures { result ≡ is_name upper text.now }
{
    match text {
        [] => false,
        [first, rest @ ..] => {
            if !first.is_ascii_alphabetic() {
                return false;
            }
            if !is_case(upper, *first) {
                return false;
            }
            if !are_name_bytes(rest) {
                return false;
            }
            !is_word(text)
        }
    }
}

/// Whether the text of a name is a name; one with types in brackets is none.
fn is_word_name(names: &Texts, upper: bool, name: Name) -> bool
    ensures { result ≡ is_name upper (unwrap_or (slice_get names.now.long name.0) []) }
{
    match names.without_types(name) {
        Some(text) => is_name(upper, text),
        None => false,
    }
}

/// Whether the text of a token's name is a name.
fn is_named(names: &Texts, token: Token) -> bool
    ensures { result ≡ is_named names.now.long token }
{
    match token {
        Token::Variable(name) => { name.0 >= FIRST_GIVEN || is_word_name(names, false, name) }
        Token::Constructor(name) => { name.0 < FIRST_GIVEN && is_word_name(names, true, name) }
        Token::Number(_) => true,
        Token::Sign(_) => true,
    }
}

/// Writes a name that the text gives: the letter of a variable, a location or a region, and the number of the variable.
fn push_given(alloc: Global, out: &mut Vec<u8>, number: u32) -> Result<(), Memory>
    ensures { OnOk result (out.new.items ≡ out.old.items ++ given_text number) }
{
    let letter = match number % 3 {
        0 => b'v',
        1 => b'l',
        _ => b'r',
    };
    out.push(letter)?;
    push_decimal(alloc, out, u64::from(number / 3))
}

/// Writes a name that begins with a lower-case letter.
fn push_variable(alloc: Global, out: &mut Vec<u8>, names: &Texts, name: Name) -> Result<(), Memory>
    ensures { OnOk result (out.new.items ≡ out.old.items ++ written names.now.long (Token.Variable name)) }
{
    if name.0 >= FIRST_GIVEN {
        return push_given(alloc, out, name.0 - FIRST_GIVEN);
    }
    names.push_long(out, name)
}

/// Writes a token.
fn push_token(alloc: Global, out: &mut Vec<u8>, names: &Texts, token: Token) -> Result<(), Memory>
    ensures { OnOk result (out.new.items ≡ out.old.items ++ written names.now.long token) }
{
    match token {
        Token::Variable(name) => push_variable(alloc, out, names, name),
        Token::Constructor(name) => names.push_long(out, name),
        Token::Number(value) => push_decimal(alloc, out, value),
        Token::Sign(sign) => {
            out.extend_from_slice(sign_text(sign))?;
            Ok(())
        }
    }
}

/// What stands behind a token.
fn gap(token: Token) -> u8
    ensures { result ≡ gap token }
{
    match token {
        Token::Sign(Sign::In) => b'\n',
        Token::Sign(Sign::Semicolon) => b'\n',
        Token::Sign(Sign::OpenBrace) => b'\n',
        _ => b' ',
    }
}

/// Writes a token, and what stands behind it.
fn push_spaced(alloc: Global, out: &mut Vec<u8>, names: &Texts, token: Token) -> Result<(), Memory>
    ensures { OnOk result (out.new.items ≡ out.old.items ++ spaced names.now.long token) }
{
    push_token(alloc, out, names, token)?;
    out.push(gap(token))?;
    Ok(())
}

/// The bytes of tokens.
///
/// # Errors
///
/// `NoText` where the text of a token's name is no name; `Memory`.
pub(crate) fn bytes_of(
    alloc: Global,
    tokens: &[Token],
    names: &Texts,
) -> Result<Vec<u8>, PrintFault>
    ensures text { IfOk result (λ out. text_with names.now.long tokens.now ≡ Some out.items) }
    ensures none { IsErrOf result PrintFault.NoText → text_with names.now.long tokens.now ≡ None }
{
    let mut out = Vec::new(alloc);
    let mut rest = tokens;
    'tokens: while let [token, after @ ..] = rest {
        if !is_named(names, *token) {
            return Err(PrintFault::NoText);
        }
        push_spaced(alloc, &mut out, names, *token)?;
        rest = after;
    }
    Ok(out)
}

//! Names and signs.

ghost use Rattle.std.specs.Prelude.{◌≡◌};
ghost use Rattle.gib_syntax.specs.Spelling.{places_of};
ghost use Rattle.gib_reads.specs.Readers.{Fault, At, Nested, same, want, var_at, con_at, next_is, is_sign, is_variable, many, operator_of};
ghost use Rattle.gib_reads.specs.Answers.{Fails, Gives, with_front};

use crate::stop::Stop;
use gib_base::token::{Sign, Token};
use gib_base::{Name, Span};
use gib_syntax::Ident;
use gib_types::Operator;
use std::alloc::Global;

/// The span of the token from which so many tokens are left.
pub fn span_at(spans: &[Span], left: usize) -> Span
    ensures { result ≡ places_of spans.now left }
{
    let index = spans.len().saturating_sub(left);
    if index < spans.len() {
        spans[index]
    } else {
        Span { start: 0, end: 0 }
    }
}

/// A name as that of the token from which so many tokens are left.
pub fn named(spans: &[Span], name: Name, left: usize) -> Ident
    ensures { result ≡ record { name = name; span = places_of spans.now left } }
{
    Ident {
        name,
        span: span_at(spans, left),
    }
}

/// Whether two signs are the same.
fn is_same(sign: Sign, other: Sign) -> bool
    ensures { result ≡ same sign other }
{
    sign == other
}

/// What stands behind this sign, which has to come next.
pub fn want(sign: Sign, tokens: &[Token]) -> Result<&[Token], Stop>
    ensures { Gives (λ x. (tt, x.now)) result (want sign tokens.now) }
{
    match tokens {
        [Token::Sign(found), rest @ ..] => {
            if is_same(sign, *found) {
                Ok(rest)
            } else {
                Err(Stop::At(tokens.len()))
            }
        }
        _ => Err(Stop::At(tokens.len())),
    }
}

/// The name of a variable or a function.
pub fn variable<'a>(spans: &[Span], tokens: &'a [Token]) -> Result<(Ident, &'a [Token]), Stop>
    ensures { Gives (λ x. (x.0, x.1.now)) result (var_at (places_of spans.now) tokens.now) }
{
    match tokens {
        [Token::Variable(name), rest @ ..] => Ok((named(spans, *name, tokens.len()), rest)),
        _ => Err(Stop::At(tokens.len())),
    }
}

/// The name of a constructor or a type.
pub fn constructor<'a>(spans: &[Span], tokens: &'a [Token]) -> Result<(Ident, &'a [Token]), Stop>
    ensures { Gives (λ x. (x.0, x.1.now)) result (con_at (places_of spans.now) tokens.now) }
{
    match tokens {
        [Token::Constructor(name), rest @ ..] => Ok((named(spans, *name, tokens.len()), rest)),
        _ => Err(Stop::At(tokens.len())),
    }
}

/// Whether a variable comes next.
fn begins_variable(tokens: &[Token]) -> bool
    ensures { result ≡ next_is is_variable tokens.now }
{
    matches!(tokens, [Token::Variable(_), ..])
}

/// Variables, as many as there are, behind others.
pub fn further_variables<'a>(
    spans: &[Span],
    first: Vec<Ident>,
    tokens: &'a [Token],
) -> Result<(Vec<Ident>, &'a [Token]), Stop>
    ensures { Gives (λ x. (x.0.items, x.1.now)) result (with_front first.items (many is_variable (var_at (places_of spans.now)) tokens.now)) }
{
    let mut found = first;
    let mut rest = tokens;
    'variables: while begins_variable(rest) {
        let (name, after) = variable(spans, rest)?;
        found.push(name)?;
        rest = after;
    }
    Ok((found, rest))
}

/// Variables, as many as there are.
pub fn variables<'a>(
    alloc: Global,
    spans: &[Span],
    tokens: &'a [Token],
) -> Result<(Vec<Ident>, &'a [Token]), Stop>
    ensures { Gives (λ x. (x.0.items, x.1.now)) result (many is_variable (var_at (places_of spans.now)) tokens.now) }
{
    further_variables(spans, Vec::new(alloc), tokens)
}

/// Whether this sign comes next.
pub fn begins(sign: Sign, tokens: &[Token]) -> bool
    ensures { result ≡ next_is (is_sign sign) tokens.now }
{
    match tokens {
        [Token::Sign(found), ..] => is_same(sign, *found),
        _ => false,
    }
}

/// The operator of a sign, where it is one.
pub fn operator_of(sign: Sign) -> Option<Operator>
    ensures { result ≡ operator_of sign }
{
    match sign {
        Sign::Plus => Some(Operator::Add),
        Sign::Minus => Some(Operator::Subtract),
        Sign::Times => Some(Operator::Multiply),
        Sign::Same => Some(Operator::Equal),
        Sign::Less => Some(Operator::Less),
        Sign::Quotient => Some(Operator::Quotient),
        Sign::Remainder => Some(Operator::Remainder),
        _ => None,
    }
}

//! Types, operands, marks, locations, and what else of a term has no terms in it.

ghost use Rattle.std.specs.Prelude.{◌≡◌, ◌^◌, suc, nat_lt, length};
ghost use Rattle.gib_syntax.specs.Spelling.{places_of};
ghost use Rattle.gib_reads.specs.{Readers.{Fault, At, Nested, next_is, then_at}, Answers.{Fails, Gives, with_front}};
ghost use Rattle.gib_local_parse.specs.Sources.{places_in};
ghost use Rattle.gib_local_parse.specs.Grammar.{head_at, place_between_at, operator_found, type_at, operand_at, literal_at, starts_operand, operands_at, mark_from, mark_at, option_at, location_at, way_at, operator_at, between_at};

use crate::source::{Read, Source};
use crate::tree::{Location, Mark, Operand, Way};
use gib_base::Span;
use gib_base::token::{Sign, Token, is_literal};
use gib_reads::phrases::{constructor, named, operator_of, span_at, variable, want};
use gib_reads::stop::Stop;
use gib_syntax::{Ident, TypeName};
use gib_types::Operator;

/// A type; of a declared one the name.
pub fn type_name<'a>(spans: &[Span], tokens: &'a [Token]) -> Read<'a, TypeName>
    ensures { Gives (λ x. (x.0, x.1.now)) result (type_at (places_of spans.now) tokens.now) }
{
    match tokens {
        [Token::Constructor(name), rest @ ..] => Ok((
            TypeName::Declared(named(spans, *name, tokens.len())),
            rest,
        )),
        [Token::Sign(sign), rest @ ..] => match sign {
            Sign::Int => Ok((TypeName::Whole(span_at(spans, tokens.len())), rest)),
            Sign::Bool => Ok((TypeName::Truth(span_at(spans, tokens.len())), rest)),
            _ => Err(Stop::At(tokens.len())),
        },
        _ => Err(Stop::At(tokens.len())),
    }
}

/// A number as an operand.
fn number<'a>(span: Span, value: u64, tokens: &'a [Token], left: usize) -> Read<'a, Operand>
    requires { left ≡ suc (length tokens.now) }
    ensures { Gives (λ x. (x.0, x.1.now)) result (literal_at (nat_lt value (2 ^ 63)) span value tokens.now) }
{
    if is_literal(value) {
        Ok((Operand::Number(span, value), tokens))
    } else {
        Err(Stop::At(left))
    }
}

/// A variable or a literal.
pub fn operand<'a>(spans: &[Span], tokens: &'a [Token]) -> Read<'a, Operand>
    ensures { Gives (λ x. (x.0, x.1.now)) result (operand_at (places_of spans.now) tokens.now) }
{
    let span = span_at(spans, tokens.len());
    match tokens {
        [Token::Variable(name), rest @ ..] => {
            Ok((Operand::Named(named(spans, *name, tokens.len())), rest))
        }
        [Token::Number(value), rest @ ..] => number(span, *value, rest, tokens.len()),
        [Token::Sign(sign), rest @ ..] => match sign {
            Sign::True => Ok((Operand::Bit(span, true), rest)),
            Sign::False => Ok((Operand::Bit(span, false), rest)),
            _ => Err(Stop::At(tokens.len())),
        },
        _ => Err(Stop::At(tokens.len())),
    }
}

/// Whether an operand comes next.
fn begins_operand(tokens: &[Token]) -> bool
    ensures { result ≡ next_is starts_operand tokens.now }
{
    match tokens {
        [Token::Variable(_), ..] => true,
        [Token::Number(_), ..] => true,
        [Token::Sign(sign), ..] => matches!(sign, Sign::True | Sign::False),
        _ => false,
    }
}

/// Operands, as many as there are, behind others.
pub fn further_operands<'a>(
    spans: &[Span],
    first: Vec<Operand>,
    tokens: &'a [Token],
) -> Read<'a, Vec<Operand>>
    ensures { Gives (λ x. (x.0.items, x.1.now)) result (with_front first.items (operands_at (places_of spans.now) tokens.now)) }
{
    let mut found = first;
    let mut rest = tokens;
    'operands: while begins_operand(rest) {
        let (next, after) = operand(spans, rest)?;
        found.push(next)?;
        rest = after;
    }
    Ok((found, rest))
}

/// Operands, as many as there are.
pub fn operands<'a>(source: &Source, tokens: &'a [Token]) -> Read<'a, Vec<Operand>>
    ensures { Gives (λ x. (x.0.items, x.1.now)) result (operands_at (places_in source.now) tokens.now) }
{
    further_operands(source.spans, Vec::new(source.alloc), tokens)
}

/// The name behind an `@`.
fn mark_behind<'a>(spans: &[Span], sign: Span, tokens: &'a [Token]) -> Read<'a, Mark>
    ensures { Gives (λ x. (x.0, x.1.now)) result (mark_from (places_of spans.now) sign tokens.now) }
{
    let (name, tokens) = variable(spans, tokens)?;
    Ok((Mark { sign, name }, tokens))
}

/// An `@` with its name.
pub fn mark<'a>(spans: &[Span], tokens: &'a [Token]) -> Read<'a, Mark>
    ensures { Gives (λ x. (x.0, x.1.now)) result (mark_at (places_of spans.now) tokens.now) }
{
    match tokens {
        [Token::Sign(sign), rest @ ..] => match sign {
            Sign::At => mark_behind(spans, span_at(spans, tokens.len()), rest),
            _ => Err(Stop::At(tokens.len())),
        },
        _ => Err(Stop::At(tokens.len())),
    }
}

/// An `@` with its name, where one comes next.
pub fn optional_mark<'a>(spans: &[Span], tokens: &'a [Token]) -> Read<'a, Option<Mark>>
    ensures { Gives (λ x. (x.0, x.1.now)) result (option_at (places_of spans.now) tokens.now) }
{
    match tokens {
        [Token::Sign(sign), rest @ ..] => match sign {
            Sign::At => {
                let (mark, rest) = mark_behind(spans, span_at(spans, tokens.len()), rest)?;
                Ok((Some(mark), rest))
            }
            _ => Ok((None, tokens)),
        },
        _ => Ok((None, tokens)),
    }
}

/// The place behind a constructor's head.
fn behind_head<'a>(spans: &[Span], tokens: &'a [Token]) -> Read<'a, Location>
    ensures { Gives (λ x. (x.0, x.1.now)) result (head_at (places_of spans.now) tokens.now) }
{
    let (place, tokens) = variable(spans, tokens)?;
    let tokens = want(Sign::Plus, tokens)?;
    let (head, tokens) = constructor(spans, tokens)?;
    Ok((Location::Plus(place, head), tokens))
}

/// A location.
pub fn location<'a>(spans: &[Span], tokens: &'a [Token]) -> Read<'a, Location>
    ensures { Gives (λ x. (x.0, x.1.now)) result (location_at (places_of spans.now) tokens.now) }
{
    match tokens {
        [Token::Sign(sign), rest @ ..] => match sign {
            Sign::Start => {
                let (region, rest) = variable(spans, rest)?;
                Ok((Location::Start(region), rest))
            }
            Sign::After => {
                let (name, rest) = variable(spans, rest)?;
                Ok((Location::After(name), rest))
            }
            _ => behind_head(spans, tokens),
        },
        _ => behind_head(spans, tokens),
    }
}

/// How a field is reached.
pub fn way<'a>(spans: &[Span], tokens: &'a [Token]) -> Read<'a, Way>
    ensures { Gives (λ x. (x.0, x.1.now)) result (way_at (places_of spans.now) tokens.now) }
{
    match tokens {
        [Token::Sign(sign), rest @ ..] => match sign {
            Sign::Offset => Ok((Way::ByOffset, rest)),
            Sign::Skip => {
                let (name, rest) = variable(spans, rest)?;
                Ok((Way::BySkip(name), rest))
            }
            Sign::End => {
                let (name, rest) = variable(spans, rest)?;
                Ok((Way::ByEnd(name), rest))
            }
            _ => Err(Stop::At(tokens.len())),
        },
        _ => Err(Stop::At(tokens.len())),
    }
}

/// An operator.
pub fn operator<'a>(tokens: &'a [Token]) -> Read<'a, Operator>
    ensures { Gives (λ x. (x.0, x.1.now)) result (operator_at tokens.now) }
{
    match tokens {
        [Token::Sign(sign), rest @ ..] => match operator_of(*sign) {
            Some(operator) => Ok((operator, rest)),
            None => Err(Stop::At(tokens.len())),
        },
        _ => Err(Stop::At(tokens.len())),
    }
}

/// Behind `letloc` between two sides.
fn place_between<'a>(spans: &[Span], tokens: &'a [Token]) -> Read<'a, (Ident, Ident)>
    ensures { Gives (λ x. (x.0, x.1.now)) result (place_between_at (places_of spans.now) tokens.now) }
{
    let (place, tokens) = variable(spans, tokens)?;
    let tokens = want(Sign::Equals, tokens)?;
    let tokens = want(Sign::After, tokens)?;
    let (name, tokens) = variable(spans, tokens)?;
    let tokens = want(Sign::In, tokens)?;
    Ok(((place, name), tokens))
}

/// A place's name between two sides, where one comes next.
pub fn between<'a>(spans: &[Span], tokens: &'a [Token]) -> Read<'a, Option<(Ident, Ident)>>
    ensures { Gives (λ x. (x.0, x.1.now)) result (between_at (places_of spans.now) tokens.now) }
{
    match tokens {
        [Token::Sign(sign), rest @ ..] => match sign {
            Sign::LetLocation => {
                let (names, rest) = place_between(spans, rest)?;
                Ok((Some(names), rest))
            }
            _ => Ok((None, tokens)),
        },
        _ => Ok((None, tokens)),
    }
}

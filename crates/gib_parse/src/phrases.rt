//! The names of a binding.

ghost use Rattle.gib_syntax.specs.Spelling.{places_of};
ghost use Rattle.gib_base.specs.declared.token.Sign.TheVariants as s;
ghost use Rattle.gib_parse.specs.Reading.{is_sign, many, next_name_at, several_names_at, one_name_at, names_bound_at};
ghost use Rattle.gib_parse.specs.Parsing.{Gives, with_front};

use gib_base::Span;
use gib_base::token::{Sign, Token};
use gib_reads::Stop;
use gib_reads::phrases::{begins, variable, want};
use gib_syntax::{Ident, Names};
use std::alloc::Global;

/// A comma, and a name behind it.
#[tactic(auto, unfolding(crate::specs::Reading::next_name_at))]
fn next_name<'a>(spans: &[Span], tokens: &'a [Token]) -> Result<(Ident, &'a [Token]), Stop>
    ensures { Gives (λ x. (x.0, x.1.now)) result (next_name_at (places_of spans.now) tokens.now) }
{
    let tokens = want(Sign::Comma, tokens)?;
    variable(spans, tokens)
}

/// Names behind a comma each, as many as there are, behind others.
fn further_names<'a>(
    spans: &[Span],
    first: Vec<Ident>,
    tokens: &'a [Token],
) -> Result<(Vec<Ident>, &'a [Token]), Stop>
    ensures { Gives (λ x. (x.0.items, x.1.now)) result (with_front first.items (many (is_sign s.Comma) (next_name_at (places_of spans.now)) tokens.now)) }
{
    let mut found = first;
    let mut rest = tokens;
    'names: while begins(Sign::Comma, rest) {
        let (name, after) = next_name(spans, rest)?;
        found.push(name)?;
        rest = after;
    }
    Ok((found, rest))
}

/// Behind an opening parenthesis: two names at least, with a comma between two, and the closing parenthesis.
#[tactic(auto, unfolding(crate::specs::Reading::several_names_at))]
fn several_names<'a>(
    alloc: Global,
    spans: &[Span],
    tokens: &'a [Token],
) -> Result<(Names, &'a [Token]), Stop>
    ensures { Gives (λ x. (x.0, x.1.now)) result (several_names_at (places_of spans.now) tokens.now) }
{
    let mut names = Vec::new(alloc);
    let (first, rest) = variable(spans, tokens)?;
    names.push(first)?;
    let (second, rest) = next_name(spans, rest)?;
    names.push(second)?;
    let (names, rest) = further_names(spans, names, rest)?;
    let rest = want(Sign::Close, rest)?;
    Ok((Names::several(names), rest))
}

/// One name.
#[tactic(auto, unfolding(crate::specs::Reading::one_name_at))]
fn one_name<'a>(spans: &[Span], tokens: &'a [Token]) -> Result<(Names, &'a [Token]), Stop>
    ensures { Gives (λ x. (x.0, x.1.now)) result (one_name_at (places_of spans.now) tokens.now) }
{
    let (name, rest) = variable(spans, tokens)?;
    Ok((Names::one(name), rest))
}

/// The variables of a binding: one, or several in parentheses.
pub(crate) fn names_bound<'a>(
    alloc: Global,
    spans: &[Span],
    tokens: &'a [Token],
) -> Result<(Names, &'a [Token]), Stop>
    ensures { Gives (λ x. (x.0, x.1.now)) result (names_bound_at (places_of spans.now) tokens.now) }
{
    match tokens {
        [Token::Sign(sign), rest @ ..] => match sign {
            Sign::Open => several_names(alloc, spans, rest),
            _ => one_name(spans, tokens),
        },
        _ => one_name(spans, tokens),
    }
}

//! Terms that have no terms in them, and where no term is.

ghost use Rattle.std.specs.Prelude.{◌≡◌, ℕ, IfOk, MatchOption};
ghost use Rattle.gib_syntax.specs.{Spelling.{Places, places_of}, declared.tree.Ident.{Ident as Identifier}, declared.tree.TypeName.{TypeName as NamedType}};
ghost use Rattle.gib_reads.specs.{Readers.{Reader, next_is}, Answers.{Fails, Gives}};
ghost use Rattle.gib_local_parse.specs.Grammar.{starts_term, no_level, give_at, point_at, let_from, new_place_at, reach_at, region_at, side_in_at, prim_at, call_at, make_at};
ghost use Rattle.gib_local_parse.specs.{LineArena.{BindingBelow, binding_from, tree_of}, Sources.{places_in}, ReadingTerms.{Reads}, Tree.{Line}};

use crate::lines::{BindingNode, LineId, LineNode, Lines};
use crate::phrases::{
    further_operands, location, mark, operand, operands, operator, optional_mark, way,
};
use crate::source::{Read, Source};
use gib_base::Span;
use gib_base::token::{Sign, Token};
use gib_reads::phrases::{variable, want};
use gib_reads::stop::Stop;
use gib_syntax::{Ident, TypeName};

/// Whether a term begins here.
fn begins_term(tokens: &[Token]) -> bool
    ensures { result ≡ next_is starts_term tokens.now }
{
    match tokens {
        [Token::Variable(_), ..] => true,
        [Token::Constructor(_), ..] => true,
        [Token::Sign(sign), ..] => matches!(
            sign,
            Sign::LetRegion
                | Sign::LetLocation
                | Sign::Reach
                | Sign::Give
                | Sign::Point
                | Sign::Let
                | Sign::Case
                | Sign::If
        ),
        _ => false,
    }
}

/// The fault where no level is left.
pub fn too_deep(tokens: &[Token]) -> Stop
    ensures { Fails result (no_level (next_is starts_term tokens.now) tokens.now) }
{
    if begins_term(tokens) {
        Stop::Nested(tokens.len())
    } else {
        Stop::At(tokens.len())
    }
}

/// Behind `give`.
pub fn give<'a>(
    spans: &[Span],
    lines: &mut Lines,
    span: Span,
    tokens: &'a [Token],
) -> Read<'a, LineId>
    ensures kept { IfOk result (λ x. Reads lines.old lines.new x.0.0) }
    ensures read { Gives (λ x. (tree_of lines.new x.0.0, x.1.now)) result (give_at (places_of spans.now) span tokens.now) }
{
    let (value, tokens) = operand(spans, tokens)?;
    let id = lines.put(LineNode::Give(span, value))?;
    Ok((id, tokens))
}

/// Behind `point`.
pub fn point<'a>(
    spans: &[Span],
    lines: &mut Lines,
    span: Span,
    tokens: &'a [Token],
) -> Read<'a, LineId>
    ensures kept { IfOk result (λ x. Reads lines.old lines.new x.0.0) }
    ensures read { Gives (λ x. (tree_of lines.new x.0.0, x.1.now)) result (point_at (places_of spans.now) span tokens.now) }
{
    let (name, tokens) = variable(spans, tokens)?;
    let (place, tokens) = mark(spans, tokens)?;
    let id = lines.put(LineNode::Point(span, name, place))?;
    Ok((id, tokens))
}

/// Behind `letregion`.
pub fn new_region<'a>(spans: &[Span], tokens: &'a [Token]) -> Read<'a, BindingNode>
    ensures below { (n : ℕ) → IfOk result (λ x. BindingBelow x.0 n) }
    ensures read { (f : ℕ → Line) → Gives (λ x. (binding_from f x.0, x.1.now)) result (region_at (places_of spans.now) tokens.now) }
{
    let (name, tokens) = variable(spans, tokens)?;
    Ok((BindingNode::NewRegion(name), tokens))
}

/// Behind `letloc`.
pub fn new_place<'a>(spans: &[Span], tokens: &'a [Token]) -> Read<'a, BindingNode>
    ensures below { (n : ℕ) → IfOk result (λ x. BindingBelow x.0 n) }
    ensures read { (f : ℕ → Line) → Gives (λ x. (binding_from f x.0, x.1.now)) result (new_place_at (places_of spans.now) tokens.now) }
{
    let (name, tokens) = variable(spans, tokens)?;
    let tokens = want(Sign::Equals, tokens)?;
    let (place, tokens) = location(spans, tokens)?;
    Ok((BindingNode::NewPlace(name, place), tokens))
}

/// Behind `reach`.
pub fn reach<'a>(spans: &[Span], tokens: &'a [Token]) -> Read<'a, BindingNode>
    ensures below { (n : ℕ) → IfOk result (λ x. BindingBelow x.0 n) }
    ensures read { (f : ℕ → Line) → Gives (λ x. (binding_from f x.0, x.1.now)) result (reach_at (places_of spans.now) tokens.now) }
{
    let (name, tokens) = variable(spans, tokens)?;
    let tokens = want(Sign::By, tokens)?;
    let (way, tokens) = way(spans, tokens)?;
    Ok((BindingNode::Reach(name, way), tokens))
}

/// A variable with its type, as far as a binding was read.
#[derive(Clone, Copy)]
pub struct Typed {
    pub name: Ident,
    pub ty: TypeName,
}

/// What stands behind an equals sign and an opening parenthesis, where these come next.
pub fn behind_open(tokens: &[Token]) -> Option<&[Token]>
    ensures { (at : Places) (sub : Reader Line) (x : Identifier) (w : NamedType) → MatchOption result (let_from at sub x w tokens.now ≡ side_in_at at sub x w tokens.now) (λ rest. let_from at sub x w tokens.now ≡ prim_at at x w rest.now) }
{
    match tokens {
        [Token::Sign(first), Token::Sign(second), rest @ ..] => match first {
            Sign::Equals => match second {
                Sign::Open => Some(rest),
                _ => None,
            },
            _ => None,
        },
        _ => None,
    }
}

/// Behind the opening parenthesis of an operation.
pub fn operation<'a>(spans: &[Span], typed: Typed, tokens: &'a [Token]) -> Read<'a, BindingNode>
    ensures below { (n : ℕ) → IfOk result (λ x. BindingBelow x.0 n) }
    ensures read { (f : ℕ → Line) → Gives (λ x. (binding_from f x.0, x.1.now)) result (prim_at (places_of spans.now) typed.name typed.ty tokens.now) }
{
    let (left, tokens) = operand(spans, tokens)?;
    let (operator, tokens) = operator(tokens)?;
    let (right, tokens) = operand(spans, tokens)?;
    let tokens = want(Sign::Close, tokens)?;
    let binding = BindingNode::Operation {
        name: typed.name,
        ty: typed.ty,
        left,
        operator,
        right,
    };
    Ok((binding, tokens))
}

/// A function's name, and behind it arguments, one at least, and a place.
pub fn call<'a>(
    source: &Source,
    lines: &mut Lines,
    function: Ident,
    tokens: &'a [Token],
) -> Read<'a, LineId>
    ensures kept { IfOk result (λ x. Reads lines.old lines.new x.0.0) }
    ensures read { Gives (λ x. (tree_of lines.new x.0.0, x.1.now)) result (call_at (places_in source.now) function tokens.now) }
{
    let mut arguments = Vec::new(source.alloc);
    let (first, tokens) = operand(source.spans, tokens)?;
    arguments.push(first)?;
    let (arguments, tokens) = further_operands(source.spans, arguments, tokens)?;
    let (place, tokens) = optional_mark(source.spans, tokens)?;
    let id = lines.put(LineNode::Call(function, arguments, place))?;
    Ok((id, tokens))
}

/// A constructor's name, and behind it a place and arguments.
pub fn make<'a>(
    source: &Source,
    lines: &mut Lines,
    head: Ident,
    tokens: &'a [Token],
) -> Read<'a, LineId>
    ensures kept { IfOk result (λ x. Reads lines.old lines.new x.0.0) }
    ensures read { Gives (λ x. (tree_of lines.new x.0.0, x.1.now)) result (make_at (places_in source.now) head tokens.now) }
{
    let (place, tokens) = mark(source.spans, tokens)?;
    let (arguments, tokens) = operands(source, tokens)?;
    let id = lines.put(LineNode::Make(head, place, arguments))?;
    Ok((id, tokens))
}

//! Declarations and whole texts.

ghost use Rattle.std.specs.Prelude.{◌≡◌, [], map, IfOk};
ghost use Rattle.gib_syntax.specs.{Spelling.{places_of}, Parts.{constructor_tree, data_tree}};
ghost use Rattle.gib_reads.specs.{Readers.{Fault, At, Nested, next_is, is_sign, then_at, con_at, many}, Answers.{Fails, Gives}};
ghost use Rattle.gib_local_parse.specs.Grammar.{type_at};
ghost use Rattle.gib_local_parse.specs.Texts.{starts_type, is_constructor, listed_at, constructor_at, alternative_at, constructors_at, data_at, offsets_at, parameter_at, parameters_at, body_at, function_at, main_at, text_at, whole_text};
ghost use Rattle.gib_local_parse.specs.{LineArena.{tree_of}, Sources.{places_in}, ReadingTerms.{Reads}, ReadingBodies.{body_text}};
ghost use Rattle.gib_local_parse.specs.TextParts.{ReadsFunctions, function_text, main_text, text_of};

use crate::lines::{LineId, Lines};
use crate::phrases::{optional_mark, type_name};
use crate::source::{Depth, Read, Source};
use crate::terms::term;
use crate::text::{FunctionLines, LocalText, MainLines};
use crate::tree::Mark;
use gib_base::Span;
use gib_base::limits::LEVELS;
use gib_base::token::{Sign, Token};
use gib_reads::phrases::{begins, constructor, variable, want};
use gib_reads::stop::Stop;
use gib_syntax::{ConstructorDecl, DataDecl, Ident, Parameter, TypeName};
use std::alloc::Global;

/// Whether a type comes next.
fn begins_type(tokens: &[Token]) -> bool
    ensures { result ≡ next_is starts_type tokens.now }
{
    match tokens {
        [Token::Constructor(_), ..] => true,
        [Token::Sign(sign), ..] => matches!(sign, Sign::Int | Sign::Bool),
        _ => false,
    }
}

/// Types, as many as there are.
fn types<'a>(source: &Source, tokens: &'a [Token]) -> Read<'a, Vec<TypeName>>
    ensures { Gives (λ x. (x.0.items, x.1.now)) result (many starts_type (type_at (places_in source.now)) tokens.now) }
{
    let mut found = Vec::new(source.alloc);
    let mut rest = tokens;
    'types: while begins_type(rest) {
        let (next, after) = type_name(source.spans, rest)?;
        found.push(next)?;
        rest = after;
    }
    Ok((found, rest))
}

/// A constructor with the types of its fields.
#[tactic(auto, unfolding(crate::specs::Texts::constructor_at))]
fn alternative<'a>(source: &Source, tokens: &'a [Token]) -> Read<'a, ConstructorDecl>
    ensures { Gives (λ x. (constructor_tree x.0, x.1.now)) result (constructor_at (places_in source.now) tokens.now) }
{
    let (name, tokens) = constructor(source.spans, tokens)?;
    let (fields, tokens) = types(source, tokens)?;
    Ok((ConstructorDecl { name, fields }, tokens))
}

/// A bar, and a constructor behind it.
#[tactic(auto, unfolding(crate::specs::Texts::alternative_at))]
fn next_alternative<'a>(source: &Source, tokens: &'a [Token]) -> Read<'a, ConstructorDecl>
    ensures { Gives (λ x. (constructor_tree x.0, x.1.now)) result (alternative_at (places_in source.now) tokens.now) }
{
    let tokens = want(Sign::Bar, tokens)?;
    alternative(source, tokens)
}

/// Constructors, with a bar between two.
fn constructors<'a>(source: &Source, tokens: &'a [Token]) -> Read<'a, Vec<ConstructorDecl>>
    ensures { Gives (λ x. (map constructor_tree x.0.items, x.1.now)) result (constructors_at (places_in source.now) tokens.now) }
{
    let mut found = Vec::new(source.alloc);
    let (first, mut rest) = alternative(source, tokens)?;
    found.push(first)?;
    'constructors: while begins(Sign::Bar, rest) {
        let (next, after) = next_alternative(source, rest)?;
        found.push(next)?;
        rest = after;
    }
    Ok((found, rest))
}

/// A data declaration.
#[tactic(auto, unfolding(crate::specs::Texts::data_at))]
fn data_declaration<'a>(source: &Source, tokens: &'a [Token]) -> Read<'a, DataDecl>
    ensures { Gives (λ x. (data_tree x.0, x.1.now)) result (data_at (places_in source.now) tokens.now) }
{
    let tokens = want(Sign::Data, tokens)?;
    let (name, tokens) = constructor(source.spans, tokens)?;
    let tokens = want(Sign::Equals, tokens)?;
    let (constructors, tokens) = constructors(source, tokens)?;
    let tokens = want(Sign::Semicolon, tokens)?;
    Ok((DataDecl { name, constructors }, tokens))
}

/// Data declarations, as many as there are.
fn data_declarations<'a>(source: &Source, tokens: &'a [Token]) -> Read<'a, Vec<DataDecl>>
    ensures { Gives (λ x. (map data_tree x.0.items, x.1.now)) result (many (is_sign Sign.Data) (data_at (places_in source.now)) tokens.now) }
{
    let mut found = Vec::new(source.alloc);
    let mut rest = tokens;
    'declarations: while begins(Sign::Data, rest) {
        let (next, after) = data_declaration(source, rest)?;
        found.push(next)?;
        rest = after;
    }
    Ok((found, rest))
}

/// Whether a name that begins with an upper-case letter comes next.
fn begins_constructor(tokens: &[Token]) -> bool
    ensures { result ≡ next_is is_constructor tokens.now }
{
    matches!(tokens, [Token::Constructor(_), ..])
}

/// Behind `offsets`: constructors, one at least.
fn listed<'a>(source: &Source, tokens: &'a [Token]) -> Read<'a, Vec<Ident>>
    ensures { Gives (λ x. (x.0.items, x.1.now)) result (listed_at (places_in source.now) tokens.now) }
{
    let mut found = Vec::new(source.alloc);
    let (first, mut rest) = constructor(source.spans, tokens)?;
    found.push(first)?;
    'constructors: while begins_constructor(rest) {
        let (next, after) = constructor(source.spans, rest)?;
        found.push(next)?;
        rest = after;
    }
    Ok((found, rest))
}

/// The constructors whose heads store offsets, where some are listed.
fn offsets<'a>(source: &Source, tokens: &'a [Token]) -> Read<'a, Vec<Ident>>
    ensures { Gives (λ x. (x.0.items, x.1.now)) result (offsets_at (places_in source.now) tokens.now) }
{
    match tokens {
        [Token::Sign(sign), rest @ ..] => match sign {
            Sign::Offsets => {
                let (found, rest) = listed(source, rest)?;
                let rest = want(Sign::Semicolon, rest)?;
                Ok((found, rest))
            }
            _ => Ok((Vec::new(source.alloc), tokens)),
        },
        _ => Ok((Vec::new(source.alloc), tokens)),
    }
}

/// A parameter in its parentheses.
#[tactic(auto, unfolding(crate::specs::Texts::parameter_at))]
fn parameter<'a>(spans: &[Span], tokens: &'a [Token]) -> Read<'a, Parameter>
    ensures { Gives (λ x. (x.0, x.1.now)) result (parameter_at (places_of spans.now) tokens.now) }
{
    let tokens = want(Sign::Open, tokens)?;
    let (name, tokens) = variable(spans, tokens)?;
    let tokens = want(Sign::Colon, tokens)?;
    let (ty, tokens) = type_name(spans, tokens)?;
    let tokens = want(Sign::Close, tokens)?;
    Ok((Parameter { name, ty }, tokens))
}

/// Parameters, one at least.
fn parameters<'a>(source: &Source, tokens: &'a [Token]) -> Read<'a, Vec<Parameter>>
    ensures { Gives (λ x. (x.0.items, x.1.now)) result (parameters_at (places_in source.now) tokens.now) }
{
    let mut found = Vec::new(source.alloc);
    let (first, mut rest) = parameter(source.spans, tokens)?;
    found.push(first)?;
    'parameters: while begins(Sign::Open, rest) {
        let (next, after) = parameter(source.spans, rest)?;
        found.push(next)?;
        rest = after;
    }
    Ok((found, rest))
}

/// A result with its place, and a body.
#[derive(Clone, Copy)]
struct Body {
    result: TypeName,
    place: Option<Mark>,
    line: LineId,
}

/// A result with its place, and a body in 200 levels.
#[tactic(auto, unfolding(crate::specs::Texts::body_at))]
fn result_and_body<'a>(source: &Source, lines: &mut Lines, tokens: &'a [Token]) -> Read<'a, Body>
    ensures kept { IfOk result (λ x. Reads lines.old lines.new x.0.line.0) }
    ensures read { Gives (λ x. (body_text (tree_of lines.new) x.0, x.1.now)) result (body_at (places_in source.now) tokens.now) }
{
    let tokens = want(Sign::Colon, tokens)?;
    let (result, tokens) = type_name(source.spans, tokens)?;
    let (place, tokens) = optional_mark(source.spans, tokens)?;
    let tokens = want(Sign::Equals, tokens)?;
    let depth = Depth {
        source: *source,
        level: LEVELS,
    };
    let (line, tokens) = term(&depth, lines, tokens)?;
    let tokens = want(Sign::Semicolon, tokens)?;
    Ok((
        Body {
            result,
            place,
            line,
        },
        tokens,
    ))
}

/// A function.
#[tactic(auto, unfolding(crate::specs::Texts::function_at))]
fn function<'a>(source: &Source, lines: &mut Lines, tokens: &'a [Token]) -> Read<'a, FunctionLines>
    ensures kept { IfOk result (λ x. Reads lines.old lines.new x.0.body.0) }
    ensures read { Gives (λ x. (function_text (tree_of lines.new) x.0, x.1.now)) result (function_at (places_in source.now) tokens.now) }
{
    let tokens = want(Sign::Fun, tokens)?;
    let (name, tokens) = variable(source.spans, tokens)?;
    let (parameters, tokens) = parameters(source, tokens)?;
    let (body, tokens) = result_and_body(source, lines, tokens)?;
    Ok((
        FunctionLines {
            name,
            parameters,
            result: body.result,
            place: body.place,
            body: body.line,
        },
        tokens,
    ))
}

/// Functions, as many as there are.
fn functions<'a>(
    source: &Source,
    lines: &mut Lines,
    tokens: &'a [Token],
) -> Read<'a, Vec<FunctionLines>>
    ensures kept { IfOk result (λ x. ReadsFunctions lines.old lines.new x.0.items) }
    ensures read { Gives (λ x. (map (function_text (tree_of lines.new)) x.0.items, x.1.now)) result (many (is_sign Sign.Fun) (function_at (places_in source.now)) tokens.now) }
{
    let mut found = Vec::new(source.alloc);
    let mut rest = tokens;
    'functions: while begins(Sign::Fun, rest) {
        let (next, after) = function(source, lines, rest)?;
        found.push(next)?;
        rest = after;
    }
    Ok((found, rest))
}

/// Main.
#[tactic(auto, unfolding(crate::specs::Texts::main_at))]
fn main_declaration<'a>(
    source: &Source,
    lines: &mut Lines,
    tokens: &'a [Token],
) -> Read<'a, MainLines>
    ensures kept { IfOk result (λ x. Reads lines.old lines.new x.0.body.0) }
    ensures read { Gives (λ x. (main_text (tree_of lines.new) x.0, x.1.now)) result (main_at (places_in source.now) tokens.now) }
{
    let tokens = want(Sign::Main, tokens)?;
    let (parameter, tokens) = parameter(source.spans, tokens)?;
    let (body, tokens) = result_and_body(source, lines, tokens)?;
    Ok((
        MainLines {
            parameter,
            result: body.result,
            place: body.place,
            body: body.line,
        },
        tokens,
    ))
}

/// A text, and what stands behind it.
#[tactic(auto, unfolding(crate::specs::Texts::text_at))]
fn text<'a>(source: &Source, tokens: &'a [Token]) -> Read<'a, LocalText>
    ensures { Gives (λ x. (text_of x.0, x.1.now)) result (text_at (places_in source.now) tokens.now) }
{
    let mut lines = Lines::new(source.alloc);
    let (datas, tokens) = data_declarations(source, tokens)?;
    let (offsets, tokens) = offsets(source, tokens)?;
    let (functions, tokens) = functions(source, &mut lines, tokens)?;
    let (main, tokens) = main_declaration(source, &mut lines, tokens)?;
    Ok((
        LocalText::new(lines, datas, offsets, functions, main),
        tokens,
    ))
}

/// A whole text, and nothing behind it.
#[tactic(auto, unfolding(crate::specs::Texts::whole_text))]
pub(crate) fn whole(alloc: Global, spans: &[Span], tokens: &[Token]) -> Result<LocalText, Stop>
    ensures { Gives (λ x. (text_of x, [])) result (whole_text (places_of spans.now) tokens.now) }
{
    let (found, rest) = text(&Source { alloc, spans }, tokens)?;
    if !rest.is_empty() {
        return Err(Stop::At(rest.len()));
    }
    Ok(found)
}

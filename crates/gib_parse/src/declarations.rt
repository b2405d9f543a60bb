//! Declarations and whole programs.

ghost use Rattle.std.specs.Prelude.{[], map, IfOk};
ghost use Rattle.gib_syntax.specs.{Spelling.{places_of}, GenericArena.{tree_of}};
ghost use Rattle.gib_syntax.specs.GenericParts.{IsFunctionInside, constructor_in, data_in, parameter_in, function_in, main_in, generic_program_of};
ghost use Rattle.gib_parse.specs.Reading.{Any, constructor_at, alternative_at, constructors_at, data_at, parameter_at, parameters_at, names_at, type_parameters_at, body_at, function_at, main_at, parse, program_at, whole};
ghost use Rattle.gib_parse.specs.Parsing.{Gives, Reads, Stands, AllStand, IsConstructorIn, IsDataIn, IsParameterIn, IsMainIn};

use crate::expressions::{Kind, expression};
use crate::repeated::{Repeated, all, and_more};
use crate::types::{one_type, results, types};
use gib_base::Span;
use gib_base::limits::LEVELS;
use gib_base::token::{Sign, Token};
use gib_reads::Stop;
use gib_reads::phrases::{constructor, further_variables, variable, variables, want};
use gib_syntax::{
    ExprId, GenericConstructor, GenericData, GenericExprs, GenericFunction, GenericMain,
    GenericParameter, GenericProgram, Ident,
};
use std::alloc::Global;

/// A constructor with the types of its fields.
#[tactic(auto, unfolding(crate::specs::Reading::constructor_at))]
fn alternative<'a>(
    alloc: Global,
    spans: &[Span],
    exprs: &mut GenericExprs,
    tokens: &'a [Token],
) -> Result<(GenericConstructor, &'a [Token]), Stop>
    ensures kept { IfOk result (λ x. Stands IsConstructorIn exprs.old exprs.new x.0) }
    ensures read { Gives (λ x. (constructor_in exprs.new.words x.0, x.1.now)) result (constructor_at (places_of spans.now) tokens.now) }
{
    let (name, tokens) = constructor(spans, tokens)?;
    let (fields, tokens) = types(alloc, spans, exprs, tokens)?;
    Ok((GenericConstructor { name, fields }, tokens))
}

impl Repeated for GenericConstructor {
    ghost use Rattle.gib_base.specs.declared.token.Sign.TheVariants as s;
    ghost use Rattle.gib_syntax.specs.{GenericTree.{GenericConstructorTree}, GenericParts.{constructor_in}};
    ghost use Rattle.gib_parse.specs.{Reading.{alternative_at}, Parsing.{IsConstructorIn}};

    ghost Tree = { GenericConstructorTree };

    ghost mark = { s.Bar };

    ghost reader = { alternative_at };

    ghost tree = { λ a c. constructor_in a.words c };

    ghost inside = { IsConstructorIn };

    /// A bar.
    fn sign() -> Sign {
        Sign::Bar
    }

    /// A bar, and a constructor behind it.
    #[tactic(auto, unfolding(crate::specs::Reading::alternative_at))]
    fn read<'a>(
        alloc: Global,
        spans: &[Span],
        exprs: &mut GenericExprs,
        tokens: &'a [Token],
    ) -> Result<(GenericConstructor, &'a [Token]), Stop> {
        let tokens = want(Sign::Bar, tokens)?;
        alternative(alloc, spans, exprs, tokens)
    }

    /// What its reader and the arena promise.
    #[tactic(auto, using(crate::proofs::WholeLaws::alternatives_take, crate::proofs::DeclarationsStay::constructor_stays))]
    fn laws() {}
}

/// Constructors, with a bar between two.
#[tactic(auto, unfolding(crate::specs::Reading::constructors_at))]
fn constructors<'a>(
    alloc: Global,
    spans: &[Span],
    exprs: &mut GenericExprs,
    tokens: &'a [Token],
) -> Result<(Vec<GenericConstructor>, &'a [Token]), Stop>
    ensures kept { IfOk result (λ x. AllStand IsConstructorIn exprs.old exprs.new x.0.items) }
    ensures read { Gives (λ x. (map (constructor_in exprs.new.words) x.0.items, x.1.now)) result (constructors_at (places_of spans.now) tokens.now) }
{
    let (first, rest) = alternative(alloc, spans, exprs, tokens)?;
    and_more(alloc, spans, exprs, first, rest)
}

impl Repeated for GenericData {
    ghost use Rattle.gib_base.specs.declared.token.Sign.TheVariants as s;
    ghost use Rattle.gib_syntax.specs.{GenericTree.{GenericDataTree}, GenericParts.{data_in}};
    ghost use Rattle.gib_parse.specs.{Reading.{data_at}, Parsing.{IsDataIn}};

    ghost Tree = { GenericDataTree };

    ghost mark = { s.Data };

    ghost reader = { data_at };

    ghost tree = { λ a d. data_in a.words d };

    ghost inside = { IsDataIn };

    /// The word before a declaration.
    fn sign() -> Sign {
        Sign::Data
    }

    /// A data declaration.
    #[tactic(auto, unfolding(crate::specs::Reading::data_at))]
    fn read<'a>(
        alloc: Global,
        spans: &[Span],
        exprs: &mut GenericExprs,
        tokens: &'a [Token],
    ) -> Result<(GenericData, &'a [Token]), Stop> {
        let tokens = want(Sign::Data, tokens)?;
        let (name, tokens) = constructor(spans, tokens)?;
        let (variables, tokens) = variables(alloc, spans, tokens)?;
        let tokens = want(Sign::Equals, tokens)?;
        let (constructors, tokens) = constructors(alloc, spans, exprs, tokens)?;
        let tokens = want(Sign::Semicolon, tokens)?;
        Ok((
            GenericData {
                name,
                variables,
                constructors,
            },
            tokens,
        ))
    }

    /// What its reader and the arena promise.
    #[tactic(auto, using(crate::proofs::WholeLaws::datas_take))]
    fn laws() {}
}

impl Repeated for GenericParameter {
    ghost use Rattle.gib_base.specs.declared.token.Sign.TheVariants as s;
    ghost use Rattle.gib_syntax.specs.{GenericTree.{GenericParameterTree}, GenericParts.{parameter_in}};
    ghost use Rattle.gib_parse.specs.{Reading.{parameter_at}, Parsing.{IsParameterIn}};

    ghost Tree = { GenericParameterTree };

    ghost mark = { s.Open };

    ghost reader = { parameter_at };

    ghost tree = { λ a q. parameter_in a.words q };

    ghost inside = { IsParameterIn };

    /// A parenthesis.
    fn sign() -> Sign {
        Sign::Open
    }

    /// A parameter in its parentheses.
    #[tactic(auto, unfolding(crate::specs::Reading::parameter_at))]
    fn read<'a>(
        alloc: Global,
        spans: &[Span],
        exprs: &mut GenericExprs,
        tokens: &'a [Token],
    ) -> Result<(GenericParameter, &'a [Token]), Stop> {
        let tokens = want(Sign::Open, tokens)?;
        let (name, tokens) = variable(spans, tokens)?;
        let tokens = want(Sign::Colon, tokens)?;
        let (ty, tokens) = one_type(alloc, spans, exprs, tokens)?;
        let tokens = want(Sign::Close, tokens)?;
        Ok((GenericParameter { name, ty }, tokens))
    }

    /// What its reader and the arena promise.
    #[tactic(auto, using(crate::proofs::WholeLaws::parameters_take, crate::proofs::DeclarationsStay::parameter_stays))]
    fn laws() {}
}

/// Parameters, one at least.
#[tactic(auto, unfolding(crate::specs::Reading::parameters_at))]
fn parameters<'a>(
    alloc: Global,
    spans: &[Span],
    exprs: &mut GenericExprs,
    tokens: &'a [Token],
) -> Result<(Vec<GenericParameter>, &'a [Token]), Stop>
    ensures kept { IfOk result (λ x. AllStand IsParameterIn exprs.old exprs.new x.0.items) }
    ensures read { Gives (λ x. (map (parameter_in exprs.new.words) x.0.items, x.1.now)) result (parameters_at (places_of spans.now) tokens.now) }
{
    let (first, rest) = GenericParameter::read(alloc, spans, exprs, tokens)?;
    and_more(alloc, spans, exprs, first, rest)
}

/// From the equals sign before a body to the semicolon behind it.
#[tactic(auto, unfolding(crate::specs::Reading::body_at))]
fn body<'a>(
    alloc: Global,
    spans: &[Span],
    exprs: &mut GenericExprs,
    tokens: &'a [Token],
) -> Result<(ExprId, &'a [Token]), Stop>
    ensures kept { IfOk result (λ x. Reads exprs.old exprs.new x.0.0) }
    ensures read { Gives (λ x. (tree_of exprs.new x.0.0, x.1.now)) result (body_at (parse (places_of spans.now) LEVELS Any) tokens.now) }
{
    let tokens = want(Sign::Equals, tokens)?;
    let (body, tokens) = expression(alloc, spans, exprs, LEVELS, Kind::Any, tokens)?;
    let tokens = want(Sign::Semicolon, tokens)?;
    Ok((body, tokens))
}

/// Behind an opening bracket: type variables, one at least, and the closing bracket.
#[tactic(auto, unfolding(crate::specs::Reading::names_at))]
fn names<'a>(
    alloc: Global,
    spans: &[Span],
    tokens: &'a [Token],
) -> Result<(Vec<Ident>, &'a [Token]), Stop>
    ensures { Gives (λ x. (x.0.items, x.1.now)) result (names_at (places_of spans.now) tokens.now) }
{
    let mut names = Vec::new(alloc);
    let (first, rest) = variable(spans, tokens)?;
    names.push(first)?;
    let (names, rest) = further_variables(spans, names, rest)?;
    let rest = want(Sign::CloseBracket, rest)?;
    Ok((names, rest))
}

/// The type parameters of a function, where a bracket is next; else none.
fn type_parameters<'a>(
    alloc: Global,
    spans: &[Span],
    tokens: &'a [Token],
) -> Result<(Vec<Ident>, &'a [Token]), Stop>
    ensures { Gives (λ x. (x.0.items, x.1.now)) result (type_parameters_at (places_of spans.now) tokens.now) }
{
    match tokens {
        [Token::Sign(sign), rest @ ..] => match sign {
            Sign::OpenBracket => names(alloc, spans, rest),
            _ => Ok((Vec::new(alloc), tokens)),
        },
        _ => Ok((Vec::new(alloc), tokens)),
    }
}

impl Repeated for GenericFunction {
    ghost use Rattle.gib_base.specs.declared.token.Sign.TheVariants as s;
    ghost use Rattle.gib_syntax.specs.{GenericTree.{GenericFunctionTree}, GenericParts.{IsFunctionInside, function_in}};
    ghost use Rattle.gib_parse.specs.Reading.{Any, function_at, parse};

    ghost Tree = { GenericFunctionTree };

    ghost mark = { s.Fun };

    ghost reader = { λ at. function_at at (parse at 200 Any) };

    ghost tree = { function_in };

    ghost inside = { IsFunctionInside };

    /// The word before a function.
    fn sign() -> Sign {
        Sign::Fun
    }

    /// A function.
    #[tactic(auto, unfolding(crate::specs::Reading::function_at))]
    fn read<'a>(
        alloc: Global,
        spans: &[Span],
        exprs: &mut GenericExprs,
        tokens: &'a [Token],
    ) -> Result<(GenericFunction, &'a [Token]), Stop> {
        let tokens = want(Sign::Fun, tokens)?;
        let (name, tokens) = variable(spans, tokens)?;
        let (variables, tokens) = type_parameters(alloc, spans, tokens)?;
        let (parameters, tokens) = parameters(alloc, spans, exprs, tokens)?;
        let tokens = want(Sign::Colon, tokens)?;
        let (result, tokens) = results(alloc, spans, exprs, tokens)?;
        let (body, tokens) = body(alloc, spans, exprs, tokens)?;
        Ok((
            GenericFunction {
                name,
                variables,
                parameters,
                result,
                body,
            },
            tokens,
        ))
    }

    /// What its reader and the arena promise.
    #[tactic(auto, using(crate::proofs::WholeLaws::functions_take))]
    fn laws() {}
}

/// The declaration of main.
#[tactic(auto, unfolding(crate::specs::Reading::main_at))]
fn main_declaration<'a>(
    alloc: Global,
    spans: &[Span],
    exprs: &mut GenericExprs,
    tokens: &'a [Token],
) -> Result<(GenericMain, &'a [Token]), Stop>
    ensures kept { IfOk result (λ x. Stands IsMainIn exprs.old exprs.new x.0) }
    ensures read { Gives (λ x. (main_in exprs.new x.0, x.1.now)) result (main_at (places_of spans.now) (parse (places_of spans.now) LEVELS Any) tokens.now) }
{
    let tokens = want(Sign::Main, tokens)?;
    let (parameter, tokens) = GenericParameter::read(alloc, spans, exprs, tokens)?;
    let tokens = want(Sign::Colon, tokens)?;
    let (result, tokens) = one_type(alloc, spans, exprs, tokens)?;
    let (body, tokens) = body(alloc, spans, exprs, tokens)?;
    Ok((
        GenericMain {
            parameter,
            result,
            body,
        },
        tokens,
    ))
}

/// Data declarations, functions and main.
#[tactic(auto, unfolding(crate::specs::Reading::program_at))]
fn program<'a>(
    alloc: Global,
    spans: &[Span],
    tokens: &'a [Token],
) -> Result<(GenericProgram, &'a [Token]), Stop>
    ensures { Gives (λ x. (generic_program_of x.0, x.1.now)) result (program_at (places_of spans.now) (parse (places_of spans.now) LEVELS Any) tokens.now) }
{
    let mut exprs = GenericExprs::new(alloc);
    let (datas, tokens) = all(alloc, spans, &mut exprs, tokens)?;
    let (functions, tokens) = all(alloc, spans, &mut exprs, tokens)?;
    let (main, tokens) = main_declaration(alloc, spans, &mut exprs, tokens)?;
    Ok((GenericProgram::new(exprs, datas, functions, main), tokens))
}

/// A whole program, and nothing behind it.
#[tactic(auto, unfolding(crate::specs::Reading::whole_in))]
pub(crate) fn whole(alloc: Global, spans: &[Span], tokens: &[Token]) -> Result<GenericProgram, Stop>
    ensures { Gives (λ p. (generic_program_of p, [])) result (whole (places_of spans.now) tokens.now) }
{
    let (found, rest) = program(alloc, spans, tokens)?;
    if !rest.is_empty() {
        return Err(Stop::At(rest.len()));
    }
    Ok(found)
}

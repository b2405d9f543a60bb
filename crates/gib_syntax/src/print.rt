//! Programs as text.
//!
//! Tokens are put from the last one to the first: each part goes before what follows it.

ghost use Rattle.std.specs.Prelude.{◌≡◌, ◌<◌, ◌≤◌, [], ◌∷◌, ◌++◌, ℕ, length, map, IfOk, OnOk};
ghost use Rattle.std.specs.List.{AllByRecursion};
ghost use Rattle.gib_base.specs.Spelling.{tokens_text};
ghost use Rattle.gib_syntax.specs.Spelling.{spell, sign_of, spell_operator, spell_bit, spell_variables, spell_further_names, spell_names, spell_arguments, spell_parts, spell_further_parts, spell_type, spell_written, spell_types, spell_type_arguments, spell_type_parameters, spell_constructor, spell_constructors, spell_more, spell_data, spell_datas, spell_parameter, spell_parameters, spell_further_types, spell_results, spell_function, spell_functions, spell_main, spell_program, levels_program};
ghost use Rattle.gib_syntax.specs.Printing.{spell_arm, spell_further, spell_all_arms, spell_case, Binds, Chooses};
ghost use Rattle.gib_syntax.specs.GenericArena.{IsArmBelow, ArmsBelow, Opens, tree_of, arguments_from};
ghost use Rattle.gib_syntax.specs.{Words.{run_words, stack_of, types_in, type_in, words_in, IsTypeRun, IsTypesRun}, Forms.{WrittenTypes}, Results.{Several}};
ghost use Rattle.gib_syntax.specs.GenericParts.{IsParameterInside, IsConstructorInside, IsDataInside, IsFunctionInside, AreResultsInside, constructor_in, data_in, parameter_in, results_in, function_in, main_in, generic_program_of};

use crate::exprs::{Arm, ExprId};
use crate::generic::{GenericExprs, GenericNode};
use crate::program::{
    GenericConstructor, GenericData, GenericFunction, GenericMain, GenericParameter, GenericProgram,
};
use crate::spelled::Spelled;
use crate::text::text_of;
use crate::tree::Ident;
use crate::type_tokens::type_tokens;
use crate::written::{ResultRuns, Run, Word};
use gib_base::token::{Sign, Token};
use gib_base::{Memory, Names};
use gib_types::Operator;
use std::alloc::Global;

/// The sign of an operator.
pub fn sign_of(operator: Operator) -> Sign
    ensures { result ≡ sign_of operator }
{
    match operator {
        Operator::Add => Sign::Plus,
        Operator::Subtract => Sign::Minus,
        Operator::Multiply => Sign::Times,
        Operator::Equal => Sign::Same,
        Operator::Less => Sign::Less,
        Operator::Quotient => Sign::Quotient,
        Operator::Remainder => Sign::Remainder,
    }
}

fn put_bit(value: bool, out: &mut Spelled) -> Result<(), Memory>
    ensures { OnOk result (out.new ≡ spell_bit value out.old) }
{
    if value {
        out.put_sign(Sign::True)
    } else {
        out.put_sign(Sign::False)
    }
}

fn put_variables(names: &[Ident], out: &mut Spelled) -> Result<(), Memory>
    ensures { OnOk result (out.new ≡ spell_variables names.now out.old) }
{
    let mut i = names.len();
    'names: while i > 0 {
        i -= 1;
        out.put(Token::Variable(names[i].name))?;
    }
    Ok(())
}

/// Variables, each behind a comma.
fn put_further_names(names: &[Ident], out: &mut Spelled) -> Result<(), Memory>
    ensures { OnOk result (out.new ≡ spell_further_names names.now out.old) }
{
    let mut i = names.len();
    'names: while i > 0 {
        i -= 1;
        out.put(Token::Variable(names[i].name))?;
        out.put_sign(Sign::Comma)?;
    }
    Ok(())
}

/// The variables of a binding: one, or several in parentheses.
fn put_names(names: &[Ident], out: &mut Spelled) -> Result<(), Memory>
    ensures { OnOk result (out.new ≡ spell_names names.now out.old) }
{
    match names {
        [] => Ok(()),
        [one] => out.put(Token::Variable(one.name)),
        [first, rest @ ..] => {
            out.put_sign(Sign::Close)?;
            put_further_names(rest, out)?;
            out.put(Token::Variable(first.name))?;
            out.put_sign(Sign::Open)
        }
    }
}

/// Tokens before the others.
fn put_all(tokens: &[Token], out: &mut Spelled) -> Result<(), Memory>
    ensures { OnOk result (out.new ≡ tokens.now ++ out.old) }
{
    let mut i = tokens.len();
    'tokens: while i > 0 {
        i -= 1;
        out.put(tokens[i])?;
    }
    Ok(())
}

/// The types that words spell.
fn put_words(words: &[Word], out: &mut Spelled) -> Result<(), Memory>
    ensures { (ws : WrittenTypes) → words.now ≡ words_in ws → OnOk result (out.new ≡ spell_written ws out.old) }
{
    let tokens = type_tokens(out.alloc(), words)?;
    put_all(&tokens, out)
}

/// The types of a run.
fn put_types(exprs: &GenericExprs, types: Run, out: &mut Spelled) -> Result<(), Memory>
    requires { IsTypesRun exprs.now.words types }
    ensures { OnOk result (out.new ≡ spell_types (stack_of (run_words exprs.now.words types)) out.old) }
{
    put_words(exprs.words(types), out)
}

/// The type of a run.
fn put_type(exprs: &GenericExprs, ty: Run, out: &mut Spelled) -> Result<(), Memory>
    requires { IsTypeRun exprs.now.words ty }
    ensures { OnOk result (out.new ≡ spell_type (type_in exprs.now.words ty) out.old) }
{
    put_words(exprs.words(ty), out)
}

/// Type arguments, in brackets where there are some.
fn put_type_arguments(exprs: &GenericExprs, types: Run, out: &mut Spelled) -> Result<(), Memory>
    requires { IsTypesRun exprs.now.words types }
    ensures { OnOk result (out.new ≡ spell_type_arguments (types_in exprs.now.words types) out.old) }
{
    let words = exprs.words(types);
    if words.is_empty() {
        return Ok(());
    }
    out.put_sign(Sign::CloseBracket)?;
    put_words(words, out)?;
    out.put_sign(Sign::OpenBracket)
}

fn put_parameter(
    exprs: &GenericExprs,
    parameter: GenericParameter,
    out: &mut Spelled,
) -> Result<(), Memory>
    requires { IsParameterInside exprs.now.words parameter }
    ensures { OnOk result (out.new ≡ spell_parameter (parameter_in exprs.now.words parameter) out.old) }
{
    out.put_sign(Sign::Close)?;
    put_type(exprs, parameter.ty, out)?;
    out.put_sign(Sign::Colon)?;
    out.put(Token::Variable(parameter.name.name))?;
    out.put_sign(Sign::Open)
}

fn put_parameters(
    exprs: &GenericExprs,
    parameters: &[GenericParameter],
    out: &mut Spelled,
) -> Result<(), Memory>
    requires { AllByRecursion (IsParameterInside exprs.now.words) parameters.now }
    ensures { OnOk result (out.new ≡ spell_parameters (map (parameter_in exprs.now.words) parameters.now) out.old) }
{
    let mut i = parameters.len();
    'parameters: while i > 0 {
        i -= 1;
        put_parameter(exprs, parameters[i], out)?;
    }
    Ok(())
}

fn put_constructor(
    exprs: &GenericExprs,
    constructor: &GenericConstructor,
    out: &mut Spelled,
) -> Result<(), Memory>
    requires { IsConstructorInside exprs.now.words constructor.now }
    ensures { OnOk result (out.new ≡ spell_constructor (constructor_in exprs.now.words constructor.now) out.old) }
{
    put_types(exprs, constructor.fields, out)?;
    out.put(Token::Constructor(constructor.name.name))
}

/// An expression. This recurses as deep as expressions are nested, which the public call bounds.
#[cycle(expressions)]
fn put_expression(exprs: &GenericExprs, id: ExprId, out: &mut Spelled) -> Result<(), Memory>
    requires { id.0 < length exprs.now.nodes }
    ensures { OnOk result (out.new ≡ spell (tree_of exprs.now id.0) out.old) }
{
    let node = exprs.node(id);
    match node {
        GenericNode::Variable(name) => out.put(Token::Variable(name.name)),
        GenericNode::Whole(_, value) => out.put(Token::Number(*value)),
        GenericNode::Truth(_, value) => put_bit(*value, out),
        GenericNode::Paren(_, inner) => {
            out.put_sign(Sign::Close)?;
            put_behind(exprs, Sign::Open, *inner, out)
        }
        GenericNode::Operation {
            operator,
            left,
            right,
            ..
        } => put_operation(exprs, *operator, *left, *right, out),
        GenericNode::Call(name, types, arguments) => {
            put_arguments(exprs, id, arguments, out)?;
            put_type_arguments(exprs, *types, out)?;
            out.put(Token::Variable(name.name))
        }
        GenericNode::Make(name, types, arguments) => {
            put_arguments(exprs, id, arguments, out)?;
            put_type_arguments(exprs, *types, out)?;
            out.put(Token::Constructor(name.name))
        }
        GenericNode::Tuple(_, parts) => put_tuple(exprs, id, parts, out),
        GenericNode::Let { .. } | GenericNode::LetPar { .. } => put_let(exprs, id, node, out),
        GenericNode::If { .. } | GenericNode::Case { .. } => put_choice(exprs, id, node, out),
    }
}

/// An operation of two expressions, in parentheses.
#[cycle(expressions)]
fn put_operation(
    exprs: &GenericExprs,
    operator: Operator,
    left: ExprId,
    right: ExprId,
    out: &mut Spelled,
) -> Result<(), Memory>
    requires left { left.0 < length exprs.now.nodes }
    requires right { right.0 < length exprs.now.nodes }
    ensures { OnOk result (out.new ≡ Token.Sign Sign.Open ∷ spell (tree_of exprs.now left.0) (spell_operator operator (spell (tree_of exprs.now right.0) (Token.Sign Sign.Close ∷ out.old)))) }
{
    out.put_sign(Sign::Close)?;
    put_expression(exprs, right, out)?;
    out.put_sign(sign_of(operator))?;
    put_behind(exprs, Sign::Open, left, out)
}

/// An expression that binds names, alone or in parallel.
#[cycle(expressions)]
fn put_let(
    exprs: &GenericExprs,
    id: ExprId,
    node: &GenericNode,
    out: &mut Spelled,
) -> Result<(), Memory>
    requires inside { id.0 < length exprs.now.nodes }
    requires opens { Opens exprs.now id.0 node.now }
    requires binds { Binds node.now }
    ensures { OnOk result (out.new ≡ spell (tree_of exprs.now id.0) out.old) }
{
    match node {
        GenericNode::Let {
            names,
            bound,
            body,
            ..
        } => {
            put_behind(exprs, Sign::In, *body, out)?;
            put_binding(exprs, names.as_slice(), *bound, out)?;
            out.put_sign(Sign::Let)
        }
        GenericNode::LetPar {
            left,
            right,
            body,
            ..
        } => {
            put_behind(exprs, Sign::In, *body, out)?;
            put_binding(exprs, right.names.as_slice(), right.value, out)?;
            out.put_sign(Sign::And)?;
            put_binding(exprs, left.names.as_slice(), left.value, out)?;
            out.put_sign(Sign::Par)?;
            out.put_sign(Sign::Let)
        }
        _ => unreachable!(),
    }
}

/// An expression that goes on by what a value is.
#[cycle(expressions)]
fn put_choice(
    exprs: &GenericExprs,
    id: ExprId,
    node: &GenericNode,
    out: &mut Spelled,
) -> Result<(), Memory>
    requires inside { id.0 < length exprs.now.nodes }
    requires opens { Opens exprs.now id.0 node.now }
    requires chooses { Chooses node.now }
    ensures { OnOk result (out.new ≡ spell (tree_of exprs.now id.0) out.old) }
{
    match node {
        GenericNode::If {
            condition,
            then_part,
            else_part,
            ..
        } => {
            put_behind(exprs, Sign::Else, *else_part, out)?;
            put_behind(exprs, Sign::Then, *then_part, out)?;
            put_behind(exprs, Sign::If, *condition, out)
        }
        GenericNode::Case { variable, arms, .. } => put_case(exprs, id, *variable, arms, out),
        _ => unreachable!(),
    }
}

/// A case of these arms, the expression of the number.
#[cycle(expressions)]
fn put_case(
    exprs: &GenericExprs,
    whole: ExprId,
    variable: Ident,
    arms: &[Arm],
    out: &mut Spelled,
) -> Result<(), Memory>
    requires whole { whole.0 < length exprs.now.nodes }
    requires below { ArmsBelow arms.now whole.0 }
    ensures { OnOk result (out.new ≡ spell_case (tree_of exprs.now) variable arms.now out.old) }
{
    out.put_sign(Sign::CloseBrace)?;
    put_arms(exprs, whole, arms, out)?;
    out.put_sign(Sign::OpenBrace)?;
    out.put_sign(Sign::Of)?;
    out.put(Token::Variable(variable.name))?;
    out.put_sign(Sign::Case)
}

/// An expression behind a word or sign.
#[cycle(expressions)]
fn put_behind(exprs: &GenericExprs, sign: Sign, id: ExprId, out: &mut Spelled) -> Result<(), Memory>
    requires { id.0 < length exprs.now.nodes }
    ensures { OnOk result (out.new ≡ Token.Sign sign ∷ spell (tree_of exprs.now id.0) out.old) }
{
    put_expression(exprs, id, out)?;
    out.put_sign(sign)
}

/// Names with what they are bound to.
#[cycle(expressions)]
fn put_binding(
    exprs: &GenericExprs,
    names: &[Ident],
    id: ExprId,
    out: &mut Spelled,
) -> Result<(), Memory>
    requires { id.0 < length exprs.now.nodes }
    ensures { OnOk result (out.new ≡ spell_names names.now (Token.Sign Sign.Equals ∷ spell (tree_of exprs.now id.0) out.old)) }
{
    put_behind(exprs, Sign::Equals, id, out)?;
    put_names(names, out)
}

/// Parts of the expression of a number in parentheses, each below it.
#[cycle(expressions)]
fn put_tuple(
    exprs: &GenericExprs,
    whole: ExprId,
    parts: &[ExprId],
    out: &mut Spelled,
) -> Result<(), Memory>
    requires whole { whole.0 < length exprs.now.nodes }
    requires below { AllByRecursion (λ a. a.0 < whole.0) parts.now }
    ensures { OnOk result (out.new ≡ Token.Sign Sign.Open ∷ spell_parts (arguments_from (tree_of exprs.now) parts.now) (Token.Sign Sign.Close ∷ out.old)) }
{
    out.put_sign(Sign::Close)?;
    put_parts(exprs, whole, parts, out)?;
    out.put_sign(Sign::Open)
}

/// Parts of the expression of a number, a comma between two, each below it.
#[cycle(expressions)]
fn put_parts(
    exprs: &GenericExprs,
    whole: ExprId,
    ids: &[ExprId],
    out: &mut Spelled,
) -> Result<(), Memory>
    requires whole { whole.0 < length exprs.now.nodes }
    requires below { AllByRecursion (λ a. a.0 < whole.0) ids.now }
    ensures { OnOk result (out.new ≡ spell_parts (arguments_from (tree_of exprs.now) ids.now) out.old) }
{
    match ids {
        [] => Ok(()),
        [first, rest @ ..] => {
            put_further_parts(exprs, whole, rest, out)?;
            put_expression(exprs, *first, out)
        }
    }
}

/// Parts of the expression of a number, each below it and behind a comma.
#[cycle(expressions)]
fn put_further_parts(
    exprs: &GenericExprs,
    whole: ExprId,
    ids: &[ExprId],
    out: &mut Spelled,
) -> Result<(), Memory>
    requires whole { whole.0 < length exprs.now.nodes }
    requires below { AllByRecursion (λ a. a.0 < whole.0) ids.now }
    ensures { OnOk result (out.new ≡ spell_further_parts (arguments_from (tree_of exprs.now) ids.now) out.old) }
{
    let mut i = ids.len();
    'parts: while i > 0 {
        i -= 1;
        put_behind(exprs, Sign::Comma, ids[i], out)?;
    }
    Ok(())
}

/// Arguments of the expression of a number, each below it.
#[cycle(expressions)]
fn put_arguments(
    exprs: &GenericExprs,
    whole: ExprId,
    ids: &[ExprId],
    out: &mut Spelled,
) -> Result<(), Memory>
    requires whole { whole.0 < length exprs.now.nodes }
    requires below { AllByRecursion (λ a. a.0 < whole.0) ids.now }
    ensures { OnOk result (out.new ≡ spell_arguments (arguments_from (tree_of exprs.now) ids.now) out.old) }
{
    let mut i = ids.len();
    'arguments: while i > 0 {
        i -= 1;
        put_expression(exprs, ids[i], out)?;
    }
    Ok(())
}

/// One arm.
#[cycle(expressions)]
fn put_arm(exprs: &GenericExprs, arm: &Arm, out: &mut Spelled) -> Result<(), Memory>
    requires { arm.now.body.0 < length exprs.now.nodes }
    ensures { OnOk result (out.new ≡ spell_arm (tree_of exprs.now) arm.now out.old) }
{
    put_behind(exprs, Sign::Arrow, arm.body, out)?;
    put_variables(&arm.variables, out)?;
    out.put(Token::Constructor(arm.constructor.name))
}

/// The arms of the case of a number, with a semicolon between two.
#[cycle(expressions)]
fn put_arms(
    exprs: &GenericExprs,
    whole: ExprId,
    arms: &[Arm],
    out: &mut Spelled,
) -> Result<(), Memory>
    requires whole { whole.0 < length exprs.now.nodes }
    requires below { ArmsBelow arms.now whole.0 }
    ensures { OnOk result (out.new ≡ spell_all_arms (tree_of exprs.now) arms.now out.old) }
{
    let mut i = arms.len();
    'arms: while i > 1 {
        i -= 1;
        put_arm(exprs, &arms[i], out)?;
        out.put_sign(Sign::Semicolon)?;
    }
    put_arm(exprs, &arms[0], out)
}

/// Constructors, each behind a bar.
fn put_more(
    exprs: &GenericExprs,
    constructors: &[GenericConstructor],
    out: &mut Spelled,
) -> Result<(), Memory>
    requires { AllByRecursion (IsConstructorInside exprs.now.words) constructors.now }
    ensures { OnOk result (out.new ≡ spell_more (map (constructor_in exprs.now.words) constructors.now) out.old) }
{
    let mut i = constructors.len();
    'more: while i > 0 {
        i -= 1;
        put_constructor(exprs, &constructors[i], out)?;
        out.put_sign(Sign::Bar)?;
    }
    Ok(())
}

fn put_constructors(
    exprs: &GenericExprs,
    constructors: &[GenericConstructor],
    out: &mut Spelled,
) -> Result<(), Memory>
    requires { AllByRecursion (IsConstructorInside exprs.now.words) constructors.now }
    ensures { OnOk result (out.new ≡ spell_constructors (map (constructor_in exprs.now.words) constructors.now) out.old) }
{
    match constructors {
        [] => Ok(()),
        [first, rest @ ..] => {
            put_more(exprs, rest, out)?;
            put_constructor(exprs, first, out)
        }
    }
}

fn put_data(
    exprs: &GenericExprs,
    declaration: &GenericData,
    out: &mut Spelled,
) -> Result<(), Memory>
    requires { IsDataInside exprs.now.words declaration.now }
    ensures { OnOk result (out.new ≡ spell_data (data_in exprs.now.words declaration.now) out.old) }
{
    out.put_sign(Sign::Semicolon)?;
    put_constructors(exprs, &declaration.constructors, out)?;
    out.put_sign(Sign::Equals)?;
    put_variables(&declaration.variables, out)?;
    out.put(Token::Constructor(declaration.name.name))?;
    out.put_sign(Sign::Data)
}

fn put_datas(
    exprs: &GenericExprs,
    declarations: &[GenericData],
    out: &mut Spelled,
) -> Result<(), Memory>
    requires { AllByRecursion (IsDataInside exprs.now.words) declarations.now }
    ensures { OnOk result (out.new ≡ spell_datas (map (data_in exprs.now.words) declarations.now) out.old) }
{
    let mut i = declarations.len();
    'datas: while i > 0 {
        i -= 1;
        put_data(exprs, &declarations[i], out)?;
    }
    Ok(())
}

/// Types of a function's further parts, each behind a comma.
fn put_further_types(exprs: &GenericExprs, types: &[Run], out: &mut Spelled) -> Result<(), Memory>
    requires { AllByRecursion (IsTypeRun exprs.now.words) types.now }
    ensures { OnOk result (out.new ≡ spell_further_types (map (type_in exprs.now.words) types.now) out.old) }
{
    let mut i = types.len();
    'types: while i > 0 {
        i -= 1;
        put_type(exprs, types[i], out)?;
        out.put_sign(Sign::Comma)?;
    }
    Ok(())
}

/// The types of a function's parts, in parentheses.
fn put_part_types(exprs: &GenericExprs, types: &[Run], out: &mut Spelled) -> Result<(), Memory>
    requires { AllByRecursion (IsTypeRun exprs.now.words) types.now }
    ensures { OnOk result (out.new ≡ spell_results (Several (map (type_in exprs.now.words) types.now)) out.old) }
{
    match types {
        [] => Ok(()),
        [first, rest @ ..] => {
            out.put_sign(Sign::Close)?;
            put_further_types(exprs, rest, out)?;
            put_type(exprs, *first, out)?;
            out.put_sign(Sign::Open)
        }
    }
}

/// What a function gives: the type, or those of several parts.
fn put_results(exprs: &GenericExprs, results: &ResultRuns, out: &mut Spelled) -> Result<(), Memory>
    requires { AreResultsInside exprs.now.words results.now }
    ensures { OnOk result (out.new ≡ spell_results (results_in exprs.now.words results.now) out.old) }
{
    match results {
        ResultRuns::One(ty) => put_type(exprs, *ty, out),
        ResultRuns::Several(types) => put_part_types(exprs, types, out),
    }
}

/// The body of a function, behind its sign.
fn put_body(exprs: &GenericExprs, body: ExprId, out: &mut Spelled) -> Result<(), Memory>
    requires { body.0 < length exprs.now.nodes }
    ensures { OnOk result (out.new ≡ Token.Sign Sign.Equals ∷ spell (tree_of exprs.now body.0) (Token.Sign Sign.Semicolon ∷ out.old)) }
{
    out.put_sign(Sign::Semicolon)?;
    put_behind(exprs, Sign::Equals, body, out)
}

/// Type parameters of a function, in brackets where there are some.
fn put_type_parameters(names: &[Ident], out: &mut Spelled) -> Result<(), Memory>
    ensures { OnOk result (out.new ≡ spell_type_parameters names.now out.old) }
{
    match names {
        [] => Ok(()),
        [first, rest @ ..] => {
            out.put_sign(Sign::CloseBracket)?;
            put_variables(rest, out)?;
            out.put(Token::Variable(first.name))?;
            out.put_sign(Sign::OpenBracket)
        }
    }
}

fn put_function(
    exprs: &GenericExprs,
    function: &GenericFunction,
    out: &mut Spelled,
) -> Result<(), Memory>
    requires { IsFunctionInside exprs.now function.now }
    ensures { OnOk result (out.new ≡ spell_function (function_in exprs.now function.now) out.old) }
{
    put_body(exprs, function.body, out)?;
    put_results(exprs, &function.result, out)?;
    out.put_sign(Sign::Colon)?;
    put_parameters(exprs, &function.parameters, out)?;
    put_type_parameters(&function.variables, out)?;
    out.put(Token::Variable(function.name.name))?;
    out.put_sign(Sign::Fun)
}

fn put_functions(
    exprs: &GenericExprs,
    functions: &[GenericFunction],
    out: &mut Spelled,
) -> Result<(), Memory>
    requires { AllByRecursion (IsFunctionInside exprs.now) functions.now }
    ensures { OnOk result (out.new ≡ spell_functions (map (function_in exprs.now) functions.now) out.old) }
{
    let mut i = functions.len();
    'functions: while i > 0 {
        i -= 1;
        put_function(exprs, &functions[i], out)?;
    }
    Ok(())
}

fn put_main(exprs: &GenericExprs, main: GenericMain, out: &mut Spelled) -> Result<(), Memory>
    requires parameter { IsParameterInside exprs.now.words main.parameter }
    requires ty { IsTypeRun exprs.now.words main.result }
    requires body { main.body.0 < length exprs.now.nodes }
    ensures { OnOk result (out.new ≡ spell_main (main_in exprs.now main) out.old) }
{
    put_body(exprs, main.body, out)?;
    put_type(exprs, main.result, out)?;
    out.put_sign(Sign::Colon)?;
    put_parameter(exprs, main.parameter, out)?;
    out.put_sign(Sign::Main)
}

/// The tokens of a program.
fn tokens_of(alloc: Global, program: &GenericProgram) -> Result<Vec<Token>, Memory>
    ensures { IfOk result (λ tokens. tokens.items ≡ spell_program (generic_program_of program.now) []) }
{
    let mut out = Spelled::new(alloc);
    let exprs = program.exprs();
    put_main(exprs, program.main(), &mut out)?;
    put_functions(exprs, program.functions(), &mut out)?;
    put_datas(exprs, program.datas(), &mut out)?;
    Ok(out.into_tokens())
}

/// The text of a program: its tokens with one space between two.
///
/// # Errors
///
/// Want of memory.
pub fn print_program(
    alloc: Global,
    program: &GenericProgram,
    names: &Names,
) -> Result<Vec<u8>, Memory>
    // Printing recurses on expressions, and so its stack is bounded.
    requires { levels_program (generic_program_of program.now) ≤ 200 }
    ensures { IfOk result (λ out. out.items ≡ tokens_text names.now (spell_program (generic_program_of program.now) [])) }
{
    let tokens = tokens_of(alloc, program)?;
    text_of(alloc, &tokens, names)
}

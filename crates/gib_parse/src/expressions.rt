//! Expressions, by recursive descent. `level` says how many levels are left for the parts of an expression.

ghost use Rattle.std.specs.Prelude.{◌≡◌, ◌<◌, ℕ, List, map, length, Some, Ok, IfOk};
ghost use Rattle.std.specs.List.{AllByRecursion};
ghost use Rattle.gib_syntax.specs.{declared.written.Word.{Word}, GenericTree.{GenericExpression, GenericBit}, GenericFine.{is_generic_application}};
ghost use Rattle.gib_syntax.specs.{Spelling.{places_of}, Words.{types_in, IsTypesRun}, GenericArena.{PartsBelow, IsRunWithin, layer, tree_of, arguments_from}};
ghost use Rattle.gib_base.specs.declared.token.Sign.TheVariants as s;
ghost use Rattle.gib_parse.specs.Reading.{Any, Atom, next_is, is_sign, many, starts, starts_atom, is_literal, literal_at, no_level, parse, any_at, let_at, binding_at, bind_at, par_at, if_at, case_at, arms_at, arm_at, next_arm_at, app_at, variable_at, make_at, constant_at, arguments_at, atom_at, open_at, close_at, next_part_at, tuple_at, close_any_at, open_any_at, operation_at};
ghost use Rattle.gib_parse.specs.Parsing.{Fails, Gives, mode_of, Reads, AllStand, IsExpressionIn, ReadsArms, expression_tree, behind_at, second_at, bound_tree, arm_tree, arms_tree, call_tree, may_call};

use crate::phrases::names_bound;
use crate::repeated::two_and;
use crate::types::type_arguments;
use gib_base::Span;
use gib_base::token::{Sign, Token, is_literal};
use gib_reads::Stop;
use gib_reads::phrases::{
    begins, constructor, named, operator_of, span_at, variable, variables, want,
};
use gib_syntax::{Arm, ExprId, GenericExprs, GenericNode, Ident, Run, Side};
use gib_types::Operator;
use std::alloc::Global;

/// The kind of expression that may stand at a place: any; as a side of an operation, an application;
/// as an argument, an atom.
#[derive(Clone, Copy)]
pub(crate) enum Kind {
    Any,
    Application,
    Atom,
}

/// Whether an atom begins here.
fn begins_atom(tokens: &[Token]) -> bool
    ensures { result ≡ next_is starts_atom tokens.now }
{
    match tokens {
        [] => false,
        [Token::Variable(_), ..] => true,
        [Token::Constructor(_), ..] => true,
        [Token::Number(value), ..] => is_literal(*value),
        [Token::Sign(sign), ..] => matches!(sign, Sign::True | Sign::False | Sign::Open),
    }
}

/// Whether an expression of this kind begins here.
fn begins_kind(kind: Kind, tokens: &[Token]) -> bool
    ensures { result ≡ next_is (starts (mode_of kind)) tokens.now }
{
    match kind {
        Kind::Any => match tokens {
            [Token::Sign(sign), ..] => match sign {
                Sign::Let => true,
                Sign::If => true,
                Sign::Case => true,
                _ => begins_atom(tokens),
            },
            _ => begins_atom(tokens),
        },
        Kind::Application => begins_atom(tokens),
        Kind::Atom => begins_atom(tokens),
    }
}

/// The fault where no level is left.
fn too_deep(kind: Kind, tokens: &[Token]) -> Stop
    ensures { Fails result (no_level (next_is (starts (mode_of kind)) tokens.now) tokens.now) }
{
    if begins_kind(kind, tokens) {
        Stop::Nested(tokens.len())
    } else {
        Stop::At(tokens.len())
    }
}

/// An expression of this kind, in so many levels.
#[cycle(expressions)]
#[tactic(auto, using(crate::proofs::Levels::parse_any, crate::proofs::Levels::parse_app, crate::proofs::Levels::parse_atom, crate::proofs::Levels::parse_none), unfolding(crate::specs::Reading::parse))]
pub(crate) fn expression<'a>(
    alloc: Global,
    spans: &[Span],
    exprs: &mut GenericExprs,
    level: u32,
    kind: Kind,
    tokens: &'a [Token],
) -> Result<(ExprId, &'a [Token]), Stop>
    ensures kept { IfOk result (λ x. Reads exprs.old exprs.new x.0.0) }
    ensures read { Gives (λ x. (tree_of exprs.new x.0.0, x.1.now)) result (parse (places_of spans.now) level (mode_of kind) tokens.now) }
{
    if level == 0 {
        return Err(too_deep(kind, tokens));
    }
    match kind {
        Kind::Any => any(alloc, spans, exprs, level - 1, tokens),
        Kind::Application => application(alloc, spans, exprs, level - 1, tokens),
        Kind::Atom => atom(alloc, spans, exprs, level - 1, tokens),
    }
}

#[cycle(expressions)]
fn any<'a>(
    alloc: Global,
    spans: &[Span],
    exprs: &mut GenericExprs,
    level: u32,
    tokens: &'a [Token],
) -> Result<(ExprId, &'a [Token]), Stop>
    ensures kept { IfOk result (λ x. Reads exprs.old exprs.new x.0.0) }
    ensures read { Gives (λ x. (tree_of exprs.new x.0.0, x.1.now)) result (any_at (places_of spans.now) (parse (places_of spans.now) level) tokens.now) }
{
    let span = span_at(spans, tokens.len());
    match tokens {
        [Token::Sign(sign), rest @ ..] => match sign {
            Sign::Let => let_in(alloc, spans, exprs, level, span, rest),
            Sign::If => if_then(alloc, spans, exprs, level, span, rest),
            Sign::Case => case_of(alloc, spans, exprs, level, span, rest),
            Sign::Open => any_parentheses(alloc, spans, exprs, level, span, rest),
            _ => application(alloc, spans, exprs, level, tokens),
        },
        _ => application(alloc, spans, exprs, level, tokens),
    }
}

/// A sign, and an expression behind it.
#[cycle(expressions)]
fn behind<'a>(
    alloc: Global,
    spans: &[Span],
    exprs: &mut GenericExprs,
    level: u32,
    sign: Sign,
    tokens: &'a [Token],
) -> Result<(ExprId, &'a [Token]), Stop>
    ensures kept { IfOk result (λ x. Reads exprs.old exprs.new x.0.0) }
    ensures read { Gives (λ x. (tree_of exprs.new x.0.0, x.1.now)) result (behind_at sign (parse (places_of spans.now) level Any) tokens.now) }
{
    let tokens = want(sign, tokens)?;
    expression(alloc, spans, exprs, level, Kind::Any, tokens)
}

/// The variables of a binding, an equals sign and an expression.
#[cycle(expressions)]
#[tactic(auto, using(crate::proofs::Behind::binding_is))]
fn binding<'a>(
    alloc: Global,
    spans: &[Span],
    exprs: &mut GenericExprs,
    level: u32,
    tokens: &'a [Token],
) -> Result<(Side, &'a [Token]), Stop>
    ensures kept { IfOk result (λ x. Reads exprs.old exprs.new x.0.value.0) }
    ensures read { Gives (λ x. (bound_tree (tree_of exprs.new) x.0, x.1.now)) result (binding_at (places_of spans.now) (parse (places_of spans.now) level Any) tokens.now) }
{
    let (names, tokens) = names_bound(alloc, spans, tokens)?;
    let (value, tokens) = behind(alloc, spans, exprs, level, Sign::Equals, tokens)?;
    Ok((Side { names, value }, tokens))
}

/// The sign between two bindings, and the second one.
#[cycle(expressions)]
fn second_binding<'a>(
    alloc: Global,
    spans: &[Span],
    exprs: &mut GenericExprs,
    level: u32,
    tokens: &'a [Token],
) -> Result<(Side, &'a [Token]), Stop>
    ensures kept { IfOk result (λ x. Reads exprs.old exprs.new x.0.value.0) }
    ensures read { Gives (λ x. (bound_tree (tree_of exprs.new) x.0, x.1.now)) result
        (second_at (places_of spans.now) (parse (places_of spans.now) level Any) tokens.now) }
{
    let tokens = want(Sign::And, tokens)?;
    binding(alloc, spans, exprs, level, tokens)
}

/// Behind `let`.
#[cycle(expressions)]
fn let_in<'a>(
    alloc: Global,
    spans: &[Span],
    exprs: &mut GenericExprs,
    level: u32,
    span: Span,
    tokens: &'a [Token],
) -> Result<(ExprId, &'a [Token]), Stop>
    ensures kept { IfOk result (λ x. Reads exprs.old exprs.new x.0.0) }
    ensures read { Gives (λ x. (tree_of exprs.new x.0.0, x.1.now)) result (let_at (places_of spans.now) (parse (places_of spans.now) level) span tokens.now) }
{
    match tokens {
        [Token::Sign(sign), rest @ ..] => match sign {
            Sign::Par => let_par(alloc, spans, exprs, level, span, rest),
            _ => let_one(alloc, spans, exprs, level, span, tokens),
        },
        _ => let_one(alloc, spans, exprs, level, span, tokens),
    }
}

#[cycle(expressions)]
#[tactic(auto, using(crate::proofs::Behind::bind_is))]
fn let_one<'a>(
    alloc: Global,
    spans: &[Span],
    exprs: &mut GenericExprs,
    level: u32,
    span: Span,
    tokens: &'a [Token],
) -> Result<(ExprId, &'a [Token]), Stop>
    ensures kept { IfOk result (λ x. Reads exprs.old exprs.new x.0.0) }
    ensures read { Gives (λ x. (tree_of exprs.new x.0.0, x.1.now)) result (bind_at (places_of spans.now) (parse (places_of spans.now) level) span tokens.now) }
{
    let (binding, tokens) = binding(alloc, spans, exprs, level, tokens)?;
    let (body, tokens) = behind(alloc, spans, exprs, level, Sign::In, tokens)?;
    let id = exprs.put(GenericNode::Let {
        span,
        names: binding.names,
        bound: binding.value,
        body,
    })?;
    Ok((id, tokens))
}

/// Behind `let par`.
#[cycle(expressions)]
#[tactic(auto, using(crate::proofs::Behind::par_is))]
fn let_par<'a>(
    alloc: Global,
    spans: &[Span],
    exprs: &mut GenericExprs,
    level: u32,
    span: Span,
    tokens: &'a [Token],
) -> Result<(ExprId, &'a [Token]), Stop>
    ensures kept { IfOk result (λ x. Reads exprs.old exprs.new x.0.0) }
    ensures read { Gives (λ x. (tree_of exprs.new x.0.0, x.1.now)) result (par_at (places_of spans.now) (parse (places_of spans.now) level) span tokens.now) }
{
    let (left, tokens) = binding(alloc, spans, exprs, level, tokens)?;
    let (right, tokens) = second_binding(alloc, spans, exprs, level, tokens)?;
    let (body, tokens) = behind(alloc, spans, exprs, level, Sign::In, tokens)?;
    let id = exprs.put(GenericNode::LetPar {
        span,
        left,
        right,
        body,
    })?;
    Ok((id, tokens))
}

/// Behind `if`.
#[cycle(expressions)]
#[tactic(auto, using(crate::proofs::Behind::if_is))]
fn if_then<'a>(
    alloc: Global,
    spans: &[Span],
    exprs: &mut GenericExprs,
    level: u32,
    span: Span,
    tokens: &'a [Token],
) -> Result<(ExprId, &'a [Token]), Stop>
    ensures kept { IfOk result (λ x. Reads exprs.old exprs.new x.0.0) }
    ensures read { Gives (λ x. (tree_of exprs.new x.0.0, x.1.now)) result (if_at (parse (places_of spans.now) level) span tokens.now) }
{
    let (condition, tokens) = expression(alloc, spans, exprs, level, Kind::Any, tokens)?;
    let (then_part, tokens) = behind(alloc, spans, exprs, level, Sign::Then, tokens)?;
    let (else_part, tokens) = behind(alloc, spans, exprs, level, Sign::Else, tokens)?;
    let id = exprs.put(GenericNode::If {
        span,
        condition,
        then_part,
        else_part,
    })?;
    Ok((id, tokens))
}

/// Behind `case`.
#[cycle(expressions)]
#[tactic(auto, unfolding(crate::specs::Reading::case_at))]
fn case_of<'a>(
    alloc: Global,
    spans: &[Span],
    exprs: &mut GenericExprs,
    level: u32,
    span: Span,
    tokens: &'a [Token],
) -> Result<(ExprId, &'a [Token]), Stop>
    ensures kept { IfOk result (λ x. Reads exprs.old exprs.new x.0.0) }
    ensures read { Gives (λ x. (tree_of exprs.new x.0.0, x.1.now)) result (case_at (places_of spans.now) (parse (places_of spans.now) level) span tokens.now) }
{
    let (variable, tokens) = variable(spans, tokens)?;
    let tokens = want(Sign::Of, tokens)?;
    let tokens = want(Sign::OpenBrace, tokens)?;
    let (arms, tokens) = arms(alloc, spans, exprs, level, tokens)?;
    let tokens = want(Sign::CloseBrace, tokens)?;
    let id = exprs.put(GenericNode::Case {
        span,
        variable,
        arms,
    })?;
    Ok((id, tokens))
}

/// Arms, with a semicolon between two.
#[cycle(expressions)]
fn arms<'a>(
    alloc: Global,
    spans: &[Span],
    exprs: &mut GenericExprs,
    level: u32,
    tokens: &'a [Token],
) -> Result<(Vec<Arm>, &'a [Token]), Stop>
    ensures kept { IfOk result (λ x. ReadsArms exprs.old exprs.new x.0.items) }
    ensures read { Gives (λ x. (arms_tree (tree_of exprs.new) x.0.items, x.1.now)) result (arms_at (places_of spans.now) (parse (places_of spans.now) level Any) tokens.now) }
{
    let mut arms = Vec::new(alloc);
    let (first, mut rest) = arm(alloc, spans, exprs, level, tokens)?;
    arms.push(first)?;
    'arms: while begins(Sign::Semicolon, rest) {
        let (next, after) = next_arm(alloc, spans, exprs, level, rest)?;
        arms.push(next)?;
        rest = after;
    }
    Ok((arms, rest))
}

/// A semicolon, and an arm behind it.
#[cycle(expressions)]
#[tactic(auto, unfolding(crate::specs::Reading::next_arm_at))]
fn next_arm<'a>(
    alloc: Global,
    spans: &[Span],
    exprs: &mut GenericExprs,
    level: u32,
    tokens: &'a [Token],
) -> Result<(Arm, &'a [Token]), Stop>
    ensures kept { IfOk result (λ x. Reads exprs.old exprs.new x.0.body.0) }
    ensures read { Gives (λ x. (arm_tree (tree_of exprs.new) x.0, x.1.now)) result (next_arm_at (places_of spans.now) (parse (places_of spans.now) level Any) tokens.now) }
{
    let tokens = want(Sign::Semicolon, tokens)?;
    arm(alloc, spans, exprs, level, tokens)
}

/// One arm.
#[cycle(expressions)]
#[tactic(auto, unfolding(crate::specs::Reading::arm_at))]
fn arm<'a>(
    alloc: Global,
    spans: &[Span],
    exprs: &mut GenericExprs,
    level: u32,
    tokens: &'a [Token],
) -> Result<(Arm, &'a [Token]), Stop>
    ensures kept { IfOk result (λ x. Reads exprs.old exprs.new x.0.body.0) }
    ensures read { Gives (λ x. (arm_tree (tree_of exprs.new) x.0, x.1.now)) result (arm_at (places_of spans.now) (parse (places_of spans.now) level Any) tokens.now) }
{
    let (constructor, tokens) = constructor(spans, tokens)?;
    let (variables, tokens) = variables(alloc, spans, tokens)?;
    let tokens = want(Sign::Arrow, tokens)?;
    let (body, tokens) = expression(alloc, spans, exprs, level, Kind::Any, tokens)?;
    Ok((
        Arm {
            constructor,
            variables,
            body,
        },
        tokens,
    ))
}

/// A name with its arguments, or an atom.
#[cycle(expressions)]
fn application<'a>(
    alloc: Global,
    spans: &[Span],
    exprs: &mut GenericExprs,
    level: u32,
    tokens: &'a [Token],
) -> Result<(ExprId, &'a [Token]), Stop>
    ensures kept { IfOk result (λ x. Reads exprs.old exprs.new x.0.0) }
    ensures read { Gives (λ x. (tree_of exprs.new x.0.0, x.1.now)) result (app_at (places_of spans.now) (parse (places_of spans.now) level) tokens.now) }
{
    match tokens {
        [Token::Variable(name), rest @ ..] => {
            let ident = named(spans, *name, tokens.len());
            call(alloc, spans, exprs, level, ident, rest)
        }
        [Token::Constructor(name), rest @ ..] => {
            let ident = named(spans, *name, tokens.len());
            construction(alloc, spans, exprs, level, ident, rest)
        }
        _ => atom(alloc, spans, exprs, level, tokens),
    }
}

/// Behind a variable: its type arguments and its arguments, of which there is one at least where there are types.
#[cycle(expressions)]
#[tactic(auto, unfolding(crate::specs::Reading::variable_at))]
fn call<'a>(
    alloc: Global,
    spans: &[Span],
    exprs: &mut GenericExprs,
    level: u32,
    ident: Ident,
    tokens: &'a [Token],
) -> Result<(ExprId, &'a [Token]), Stop>
    ensures kept { IfOk result (λ x. Reads exprs.old exprs.new x.0.0) }
    ensures read { Gives (λ x. (tree_of exprs.new x.0.0, x.1.now)) result (variable_at (places_of spans.now) (parse (places_of spans.now) level) ident tokens.now) }
{
    let (types, tokens) = type_arguments(alloc, spans, exprs, tokens)?;
    if !may_call(exprs, types, tokens) {
        return Err(Stop::At(tokens.len()));
    }
    let (ids, tokens) = arguments(alloc, spans, exprs, level, tokens)?;
    let id = exprs.put(call_of(ident, types, ids))?;
    Ok((id, tokens))
}

/// Behind a constructor: its type arguments and its arguments.
#[cycle(expressions)]
#[tactic(auto, unfolding(crate::specs::Reading::make_at))]
fn construction<'a>(
    alloc: Global,
    spans: &[Span],
    exprs: &mut GenericExprs,
    level: u32,
    ident: Ident,
    tokens: &'a [Token],
) -> Result<(ExprId, &'a [Token]), Stop>
    ensures kept { IfOk result (λ x. Reads exprs.old exprs.new x.0.0) }
    ensures read { Gives (λ x. (tree_of exprs.new x.0.0, x.1.now)) result (make_at (places_of spans.now) (parse (places_of spans.now) level) ident tokens.now) }
{
    let (types, tokens) = type_arguments(alloc, spans, exprs, tokens)?;
    let (ids, tokens) = arguments(alloc, spans, exprs, level, tokens)?;
    let id = exprs.put(GenericNode::Make(ident, types, ids))?;
    Ok((id, tokens))
}

/// Whether a call may go on: behind type arguments an argument has to begin.
#[tactic(auto, using(crate::proofs::Calls::may_lone, crate::proofs::Calls::may_begin))]
fn may_call(exprs: &GenericExprs, types: Run, tokens: &[Token]) -> bool
    requires { IsTypesRun exprs.now.words types }
    ensures { result ≡ may_call (types_in exprs.now.words types) tokens.now }
{
    if exprs.words(types).is_empty() {
        true
    } else {
        begins_atom(tokens)
    }
}

/// A variable, or with arguments a call.
fn call_of(ident: Ident, types: Run, ids: Vec<ExprId>) -> GenericNode
    ensures tree { (words : List Word) (t : ℕ → GenericExpression) → layer words t (Some result) ≡ call_tree ident (types_in words types) (arguments_from t ids.items) }
    ensures below { (n : ℕ) → AllByRecursion (λ a. a.0 < n) ids.items → PartsBelow result n }
    ensures within { (words : List Word) → IsTypesRun words types → IsRunWithin result words }
{
    if ids.is_empty() {
        GenericNode::Variable(ident)
    } else {
        GenericNode::Call(ident, types, ids)
    }
}

/// Behind a constructor that stands as an argument: its type arguments.
#[tactic(auto, unfolding(crate::specs::Reading::constant_at))]
fn constant<'a>(
    alloc: Global,
    spans: &[Span],
    exprs: &mut GenericExprs,
    ident: Ident,
    tokens: &'a [Token],
) -> Result<(ExprId, &'a [Token]), Stop>
    ensures kept { IfOk result (λ x. Reads exprs.old exprs.new x.0.0) }
    ensures read { Gives (λ x. (tree_of exprs.new x.0.0, x.1.now)) result (constant_at (places_of spans.now) ident tokens.now) }
{
    let (types, tokens) = type_arguments(alloc, spans, exprs, tokens)?;
    let id = exprs.put(GenericNode::Make(ident, types, Vec::new(alloc)))?;
    Ok((id, tokens))
}

/// Arguments, as long as an atom begins.
#[cycle(expressions)]
fn arguments<'a>(
    alloc: Global,
    spans: &[Span],
    exprs: &mut GenericExprs,
    level: u32,
    tokens: &'a [Token],
) -> Result<(Vec<ExprId>, &'a [Token]), Stop>
    ensures kept { IfOk result (λ x. AllStand IsExpressionIn exprs.old exprs.new x.0.items) }
    ensures read { Gives (λ x. (arguments_from (tree_of exprs.new) x.0.items, x.1.now)) result (arguments_at (parse (places_of spans.now) level Atom) tokens.now) }
{
    let mut ids = Vec::new(alloc);
    let mut rest = tokens;
    'arguments: while begins_atom(rest) {
        let (id, after) = expression(alloc, spans, exprs, level, Kind::Atom, rest)?;
        ids.push(id)?;
        rest = after;
    }
    Ok((ids, rest))
}

/// A literal, which stands before these tokens.
fn literal<'a>(
    exprs: &mut GenericExprs,
    span: Span,
    value: u64,
    rest: &'a [Token],
) -> Result<(ExprId, &'a [Token]), Stop>
    ensures kept { IfOk result (λ x. Reads exprs.old exprs.new x.0.0) }
    ensures read { Gives (λ x. (tree_of exprs.new x.0.0, x.1.now)) result (literal_at (is_literal value) span value rest.now) }
{
    if !is_literal(value) {
        return Err(Stop::At(rest.len() + 1));
    }
    let id = exprs.put(GenericNode::Whole(span, value))?;
    Ok((id, rest))
}

/// A truth value, which stands before these tokens.
fn truth<'a>(
    exprs: &mut GenericExprs,
    span: Span,
    value: bool,
    rest: &'a [Token],
) -> Result<(ExprId, &'a [Token]), Stop>
    ensures kept { IfOk result (λ x. Reads exprs.old exprs.new x.0.0) }
    ensures read { Gives (λ x. (tree_of exprs.new x.0.0, x.1.now)) result (Ok (GenericBit span value, rest.now)) }
{
    let id = exprs.put(GenericNode::Truth(span, value))?;
    Ok((id, rest))
}

#[cycle(expressions)]
fn atom<'a>(
    alloc: Global,
    spans: &[Span],
    exprs: &mut GenericExprs,
    level: u32,
    tokens: &'a [Token],
) -> Result<(ExprId, &'a [Token]), Stop>
    ensures kept { IfOk result (λ x. Reads exprs.old exprs.new x.0.0) }
    ensures read { Gives (λ x. (tree_of exprs.new x.0.0, x.1.now)) result (atom_at (places_of spans.now) (parse (places_of spans.now) level) tokens.now) }
{
    let span = span_at(spans, tokens.len());
    match tokens {
        [] => Err(Stop::At(0)),
        [Token::Variable(name), rest @ ..] => {
            let ident = named(spans, *name, tokens.len());
            let id = exprs.put(GenericNode::Variable(ident))?;
            Ok((id, rest))
        }
        [Token::Constructor(name), rest @ ..] => {
            let ident = named(spans, *name, tokens.len());
            constant(alloc, spans, exprs, ident, rest)
        }
        [Token::Number(value), rest @ ..] => literal(exprs, span, *value, rest),
        [Token::Sign(sign), rest @ ..] => match sign {
            Sign::True => truth(exprs, span, true, rest),
            Sign::False => truth(exprs, span, false, rest),
            Sign::Open => parentheses(alloc, spans, exprs, level, span, rest),
            _ => Err(Stop::At(tokens.len())),
        },
    }
}

/// An opening parenthesis and the first expression behind it.
#[derive(Clone, Copy)]
struct First {
    span: Span,
    id: ExprId,
}

/// Behind an opening parenthesis where no tuple may stand.
#[cycle(expressions)]
#[tactic(auto, unfolding(crate::specs::Reading::open_at))]
fn parentheses<'a>(
    alloc: Global,
    spans: &[Span],
    exprs: &mut GenericExprs,
    level: u32,
    span: Span,
    tokens: &'a [Token],
) -> Result<(ExprId, &'a [Token]), Stop>
    ensures kept { IfOk result (λ x. Reads exprs.old exprs.new x.0.0) }
    ensures read { Gives (λ x. (tree_of exprs.new x.0.0, x.1.now)) result (open_at (parse (places_of spans.now) level) span tokens.now) }
{
    let (id, tokens) = expression(alloc, spans, exprs, level, Kind::Any, tokens)?;
    close(alloc, spans, exprs, level, First { span, id }, tokens)
}

/// Behind an opening parenthesis where any expression may stand.
#[cycle(expressions)]
#[tactic(auto, unfolding(crate::specs::Reading::open_any_at))]
fn any_parentheses<'a>(
    alloc: Global,
    spans: &[Span],
    exprs: &mut GenericExprs,
    level: u32,
    span: Span,
    tokens: &'a [Token],
) -> Result<(ExprId, &'a [Token]), Stop>
    ensures kept { IfOk result (λ x. Reads exprs.old exprs.new x.0.0) }
    ensures read { Gives (λ x. (tree_of exprs.new x.0.0, x.1.now)) result (open_any_at (parse (places_of spans.now) level) span tokens.now) }
{
    let (id, tokens) = expression(alloc, spans, exprs, level, Kind::Any, tokens)?;
    close_any(alloc, spans, exprs, level, First { span, id }, tokens)
}

/// Behind an opening parenthesis and an expression, where a comma may be next.
#[cycle(expressions)]
fn close_any<'a>(
    alloc: Global,
    spans: &[Span],
    exprs: &mut GenericExprs,
    level: u32,
    first: First,
    tokens: &'a [Token],
) -> Result<(ExprId, &'a [Token]), Stop>
    requires { first.id.0 < length exprs.old.nodes }
    ensures kept { IfOk result (λ x. Reads exprs.old exprs.new x.0.0) }
    ensures read { Gives (λ x. (tree_of exprs.new x.0.0, x.1.now)) result (close_any_at (parse (places_of spans.now) level) first.span (tree_of exprs.old first.id.0) tokens.now) }
{
    match tokens {
        [Token::Sign(sign), ..] => match sign {
            Sign::Comma => tuple(alloc, spans, exprs, level, first, tokens),
            _ => close(alloc, spans, exprs, level, first, tokens),
        },
        _ => close(alloc, spans, exprs, level, first, tokens),
    }
}

/// Behind an opening parenthesis and an expression: its end, or an operator.
#[cycle(expressions)]
fn close<'a>(
    alloc: Global,
    spans: &[Span],
    exprs: &mut GenericExprs,
    level: u32,
    first: First,
    tokens: &'a [Token],
) -> Result<(ExprId, &'a [Token]), Stop>
    requires { first.id.0 < length exprs.old.nodes }
    ensures kept { IfOk result (λ x. Reads exprs.old exprs.new x.0.0) }
    ensures read { Gives (λ x. (tree_of exprs.new x.0.0, x.1.now)) result (close_at (parse (places_of spans.now) level) first.span (tree_of exprs.old first.id.0) tokens.now) }
{
    match tokens {
        [Token::Sign(sign), rest @ ..] => match sign {
            Sign::Close => {
                let id = exprs.put(GenericNode::Paren(first.span, first.id))?;
                Ok((id, rest))
            }
            _ => {
                let operator = operator_of(*sign);
                let begun = Begun {
                    span: first.span,
                    left: first.id,
                    operator,
                };
                operation(alloc, spans, exprs, level, begun, rest)
            }
        },
        _ => Err(Stop::At(tokens.len())),
    }
}

/// A comma, and a part behind it.
#[cycle(expressions)]
#[tactic(auto, unfolding(crate::specs::Reading::next_part_at))]
fn next_part<'a>(
    alloc: Global,
    spans: &[Span],
    exprs: &mut GenericExprs,
    level: u32,
    tokens: &'a [Token],
) -> Result<(ExprId, &'a [Token]), Stop>
    ensures kept { IfOk result (λ x. Reads exprs.old exprs.new x.0.0) }
    ensures read { Gives (λ x. (tree_of exprs.new x.0.0, x.1.now)) result (next_part_at (parse (places_of spans.now) level Any) tokens.now) }
{
    behind(alloc, spans, exprs, level, Sign::Comma, tokens)
}

/// Parts behind a comma each, as many as there are.
#[cycle(expressions)]
fn further_parts<'a>(
    alloc: Global,
    spans: &[Span],
    exprs: &mut GenericExprs,
    level: u32,
    tokens: &'a [Token],
) -> Result<(Vec<ExprId>, &'a [Token]), Stop>
    ensures kept { IfOk result (λ x. AllStand IsExpressionIn exprs.old exprs.new x.0.items) }
    ensures read { Gives (λ x. (map (expression_tree exprs.new) x.0.items, x.1.now)) result (many (is_sign s.Comma) (next_part_at (parse (places_of spans.now) level Any)) tokens.now) }
{
    let mut ids = Vec::new(alloc);
    let mut rest = tokens;
    'parts: while begins(Sign::Comma, rest) {
        let (id, after) = next_part(alloc, spans, exprs, level, rest)?;
        ids.push(id)?;
        rest = after;
    }
    Ok((ids, rest))
}

/// Behind an opening parenthesis and the first part: the further parts of a tuple, one at least, and its end.
#[cycle(expressions)]
#[tactic(auto, unfolding(crate::specs::Reading::tuple_at))]
fn tuple<'a>(
    alloc: Global,
    spans: &[Span],
    exprs: &mut GenericExprs,
    level: u32,
    first: First,
    tokens: &'a [Token],
) -> Result<(ExprId, &'a [Token]), Stop>
    requires { first.id.0 < length exprs.old.nodes }
    ensures kept { IfOk result (λ x. Reads exprs.old exprs.new x.0.0) }
    ensures read { Gives (λ x. (tree_of exprs.new x.0.0, x.1.now)) result (tuple_at (parse (places_of spans.now) level) first.span (tree_of exprs.old first.id.0) tokens.now) }
{
    let (second, tokens) = next_part(alloc, spans, exprs, level, tokens)?;
    let (further, tokens) = further_parts(alloc, spans, exprs, level, tokens)?;
    let tokens = want(Sign::Close, tokens)?;
    let parts = two_and(alloc, first.id, second, &further)?;
    let id = exprs.put(GenericNode::Tuple(first.span, parts))?;
    Ok((id, tokens))
}

/// An expression in parentheses as far as it is read: where it begins, its first part, and the operator of the
/// sign behind that.
#[derive(Clone, Copy)]
struct Begun {
    span: Span,
    left: ExprId,
    operator: Option<Operator>,
}

/// Behind a sign that follows the first expression in parentheses: the other side of an operation, if it is an
/// operator's and the first expression may be a side.
#[cycle(expressions)]
fn operation<'a>(
    alloc: Global,
    spans: &[Span],
    exprs: &mut GenericExprs,
    level: u32,
    begun: Begun,
    tokens: &'a [Token],
) -> Result<(ExprId, &'a [Token]), Stop>
    requires { begun.left.0 < length exprs.old.nodes }
    ensures kept { IfOk result (λ x. Reads exprs.old exprs.new x.0.0) }
    ensures read { Gives (λ x. (tree_of exprs.new x.0.0, x.1.now)) result (operation_at begun.operator (parse (places_of spans.now) level) begun.span (tree_of exprs.old begun.left.0) tokens.now) }
{
    let Some(operator) = begun.operator else {
        return Err(Stop::At(tokens.len() + 1));
    };
    if !may_be_side(exprs, begun.left) {
        return Err(Stop::At(tokens.len() + 1));
    }
    let (right, tokens) = expression(alloc, spans, exprs, level, Kind::Application, tokens)?;
    let tokens = want(Sign::Close, tokens)?;
    let id = exprs.put(GenericNode::Operation {
        span: begun.span,
        operator,
        left: begun.left,
        right,
    })?;
    Ok((id, tokens))
}

/// Whether an expression may stand as a side of an operation.
fn may_be_side(exprs: &GenericExprs, id: ExprId) -> bool
    requires { id.0 < length exprs.now.nodes }
    ensures { result ≡ is_generic_application (tree_of exprs.now id.0) }
{
    match exprs.node(id) {
        GenericNode::Let { .. } => false,
        GenericNode::LetPar { .. } => false,
        GenericNode::If { .. } => false,
        GenericNode::Case { .. } => false,
        GenericNode::Tuple(..) => false,
        _ => true,
    }
}

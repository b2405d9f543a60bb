//! The walk over expressions: what they use is asked for, in the order of the text.

ghost use Rattle.std.specs.Prelude.{◌<◌, ◌++◌, length, IfOk};
ghost use Rattle.std.specs.List.{AllByRecursion};
ghost use Rattle.gib_syntax.specs.{GenericArena.{ArmsBelow, arguments_from, case_from, tree_of}, GenericTree.{GenericCase}};
ghost use Rattle.gib_mono.specs.{Walk.{asks, all_asks}, Sources.{globals_in, asks_in}, Searching.{Asks}};

use crate::search::{Search, ask_call, ask_make};
use crate::source::Source;
use gib_base::{Memory, Span};
use gib_syntax::{Arm, ExprId, GenericNode, Ident};

/// What an expression uses is asked for: a function or a constructor before its type arguments, and these before its arguments.
#[cycle(ask)]
pub fn ask_expression(search: &mut Search, source: &Source, id: ExprId) -> Result<(), Memory>
    requires { id.0 < length source.now.exprs.nodes }
    ensures { IfOk result (λ _. Asks (globals_in source.now) search.old search.new (asks_in source.now id.0)) }
{
    match source.node(id) {
        GenericNode::Variable(_) => Ok(()),
        GenericNode::Whole(_, _) => Ok(()),
        GenericNode::Truth(_, _) => Ok(()),
        GenericNode::Paren(_, inner) => ask_expression(search, source, *inner),
        GenericNode::Operation { left, right, .. } => ask_two(search, source, *left, *right),
        GenericNode::Call(f, run, ids) => {
            ask_call(search, source, *f, source.words(*run))?;
            ask_arguments(search, source, id, ids)
        }
        GenericNode::Make(k, run, ids) => {
            ask_make(search, source, *k, source.words(*run))?;
            ask_arguments(search, source, id, ids)
        }
        GenericNode::Let { bound, body, .. } => ask_two(search, source, *bound, *body),
        GenericNode::LetPar {
            left,
            right,
            body,
            ..
        } => ask_three(search, source, left.value, right.value, *body),
        GenericNode::If {
            condition,
            then_part,
            else_part,
            ..
        } => ask_three(search, source, *condition, *then_part, *else_part),
        GenericNode::Case {
            span,
            variable,
            arms,
        } => ask_case(search, source, id, *span, *variable, arms),
        GenericNode::Tuple(_, ids) => ask_arguments(search, source, id, ids),
    }
}

/// What two expressions use is asked for.
#[cycle(ask)]
fn ask_two(search: &mut Search, source: &Source, left: ExprId, right: ExprId) -> Result<(), Memory>
    requires left { left.0 < length source.now.exprs.nodes }
    requires right { right.0 < length source.now.exprs.nodes }
    ensures { IfOk result (λ _. Asks (globals_in source.now) search.old search.new (λ m. asks_in source.now left.0 m ++ asks_in source.now right.0 m)) }
{
    ask_expression(search, source, left)?;
    ask_expression(search, source, right)?;
    Ok(())
}

/// What three expressions use is asked for.
#[cycle(ask)]
fn ask_three(
    search: &mut Search,
    source: &Source,
    first: ExprId,
    second: ExprId,
    third: ExprId,
) -> Result<(), Memory>
    requires first { first.0 < length source.now.exprs.nodes }
    requires second { second.0 < length source.now.exprs.nodes }
    requires third { third.0 < length source.now.exprs.nodes }
    ensures { IfOk result (λ _. Asks (globals_in source.now) search.old search.new (λ m. asks_in source.now first.0 m ++ (asks_in source.now second.0 m ++ asks_in source.now third.0 m))) }
{
    ask_expression(search, source, first)?;
    ask_two(search, source, second, third)?;
    Ok(())
}

/// What arguments use is asked for, from left to right.
#[cycle(ask)]
fn ask_arguments(
    search: &mut Search,
    source: &Source,
    id: ExprId,
    ids: &[ExprId],
) -> Result<(), Memory>
    requires inside { id.0 < length source.now.exprs.nodes }
    requires below { AllByRecursion (λ a. a.0 < id.0) ids.now }
    ensures { IfOk result (λ _. Asks (globals_in source.now) search.old search.new (λ m. all_asks (globals_in source.now).rows m (arguments_from (tree_of source.now.exprs) ids.now))) }
{
    let mut rest = ids;
    'arguments: while let [argument, after @ ..] = rest {
        ask_expression(search, source, *argument)?;
        rest = after;
    }
    Ok(())
}

/// What the arms of a `case` use is asked for. Their constructors ask nothing.
#[cycle(ask)]
fn ask_case(
    search: &mut Search,
    source: &Source,
    id: ExprId,
    span: Span,
    variable: Ident,
    arms: &[Arm],
) -> Result<(), Memory>
    requires inside { id.0 < length source.now.exprs.nodes }
    requires below { ArmsBelow arms.now id.0 }
    ensures { IfOk result (λ _. Asks (globals_in source.now) search.old search.new (λ m. asks (globals_in source.now).rows m (case_from (tree_of source.now.exprs) arms.now (GenericCase span variable)))) }
{
    let mut rest = arms;
    'arms: while let [arm, after @ ..] = rest {
        ask_expression(search, source, arm.body)?;
        rest = after;
    }
    Ok(())
}

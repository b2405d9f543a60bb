//! The second phase, expressions: each is copied with types put for its type variables.

ghost use Rattle.std.specs.Prelude.{◌≡◌, ℕ, ◌<◌, ◌^◌, List, length, IfOk};
ghost use Rattle.std.specs.List.{AllByRecursion};
ghost use Rattle.gib_types.specs.{Form.{Form}, Types.{AreBelow, ArgumentsBelow, form_from, forms_at}};
ghost use Rattle.gib_syntax.specs.GenericArena.{ArmsBelow, IsArmBelow, arguments_from, case_from, tree_of};
ghost use Rattle.gib_syntax.specs.GenericTree.{GenericGlobals, GenericVar, GenericNum, GenericBit, GenericParen, GenericOp, GenericCall, GenericMake, GenericLet, GenericPar, GenericIf, GenericCase, GenericTuple};
ghost use Rattle.gib_syntax.specs.{GenericTyping.{operator_form}, Words.{types_in}};
ghost use Rattle.gib_mono.specs.{Scenes.{forms}, Sources.{globals_in}, Made.{Copies, CopiesAll, CopiesTuple, CopiesArm, CopiesArms, Meets}};

use crate::binding::{CopiedSide, let_node, par_node};
use crate::copier::{Copied, Copier};
use crate::source::Source;
use gib_base::{Memory, Span};
use gib_check::ResultIds;
use gib_syntax::{Arm, ExprId, GenericNode, Ident, Node, Run, Side};
use gib_types::types::{TypeId, TypeNode};
use gib_types::{Operator, Ty};

/// A copied arm, with what its expression gives.
#[derive(Drop)]
pub struct CopiedArm {
    pub arm: Arm,
    pub given: ResultIds,
}

/// The copy of an expression, with what it gives.
///
/// # Errors
///
/// Want of memory.
#[cycle(copy)]
pub fn copy_expression(copier: &mut Copier, source: &Source, id: ExprId) -> Result<Copied, Memory>
    requires { id.0 < length source.now.exprs.nodes }
    ensures { IfOk result (λ c. Copies (globals_in source.now) copier.old copier.new c (tree_of source.now.exprs id.0)) }
{
    match source.node(id) {
        GenericNode::Variable(x) => copy_variable(copier, *x),
        GenericNode::Whole(span, number) => copy_whole(copier, *span, *number),
        GenericNode::Truth(span, truth) => copy_truth(copier, *span, *truth),
        GenericNode::Paren(span, inner) => copy_paren(copier, source, *span, *inner),
        GenericNode::Operation {
            span,
            operator,
            left,
            right,
        } => copy_operation(copier, source, *span, *operator, *left, *right),
        GenericNode::Call(f, run, ids) => copy_call(copier, source, id, *f, *run, ids),
        GenericNode::Make(k, run, ids) => copy_make(copier, source, id, *k, *run, ids),
        GenericNode::Let {
            span,
            names,
            bound,
            body,
        } => copy_let(copier, source, *span, names.as_slice(), *bound, *body),
        GenericNode::LetPar {
            span,
            left,
            right,
            body,
        } => copy_let_par(copier, source, *span, left, right, *body),
        GenericNode::If {
            span,
            condition,
            then_part,
            else_part,
        } => copy_if(copier, source, *span, *condition, *then_part, *else_part),
        GenericNode::Case {
            span,
            variable,
            arms,
        } => copy_case(copier, source, id, *span, *variable, arms),
        GenericNode::Tuple(span, ids) => copy_tuple(copier, source, id, *span, ids),
    }
}

/// A variable.
fn copy_variable(copier: &mut Copier, x: Ident) -> Result<Copied, Memory>
    ensures { IfOk result (λ c. (g : GenericGlobals) → Copies g copier.old copier.new c (GenericVar x)) }
{
    let ty = copier.meet_variable(x.name)?;
    let expr = copier.put(Node::Variable(x))?;
    Ok(Copied {
        expr,
        given: ResultIds::One(ty),
    })
}

/// An integer.
fn copy_whole(copier: &mut Copier, span: Span, number: u64) -> Result<Copied, Memory>
    requires { number < 2 ^ 63 }
    ensures { IfOk result (λ c. (g : GenericGlobals) → Copies g copier.old copier.new c (GenericNum span number)) }
{
    let ty = copier.meet(TypeNode::Whole)?;
    let expr = copier.put(Node::Whole(span, number))?;
    Ok(Copied {
        expr,
        given: ResultIds::One(ty),
    })
}

/// `True` or `False`.
fn copy_truth(copier: &mut Copier, span: Span, truth: bool) -> Result<Copied, Memory>
    ensures { IfOk result (λ c. (g : GenericGlobals) → Copies g copier.old copier.new c (GenericBit span truth)) }
{
    let ty = copier.meet(TypeNode::Truth)?;
    let expr = copier.put(Node::Truth(span, truth))?;
    Ok(Copied {
        expr,
        given: ResultIds::One(ty),
    })
}

/// An expression in parentheses.
#[cycle(copy)]
fn copy_paren(
    copier: &mut Copier,
    source: &Source,
    span: Span,
    inner: ExprId,
) -> Result<Copied, Memory>
    requires { inner.0 < length source.now.exprs.nodes }
    ensures { IfOk result (λ c. Copies (globals_in source.now) copier.old copier.new c (GenericParen span (tree_of source.now.exprs inner.0))) }
{
    let part = copy_expression(copier, source, inner)?;
    let expr = copier.put(Node::Paren(span, part.expr))?;
    Ok(Copied {
        expr,
        given: part.given,
    })
}

/// The type of what an operator gives.
fn operator_node(operator: Operator) -> TypeNode
    ensures form { (fs : List Form) → form_from fs result ≡ operator_form operator }
    ensures below { (n : ℕ) → ArgumentsBelow n result }
{
    match operator.result() {
        Ty::Truth => TypeNode::Truth,
        Ty::Whole | Ty::Tree(_) => TypeNode::Whole,
    }
}

/// The type of what an operator gives, with its number.
fn operator_type(copier: &mut Copier, operator: Operator) -> Result<TypeId, Memory>
    ensures { IfOk result (λ id. Meets copier.old copier.new id (operator_form operator)) }
{
    copier.meet(operator_node(operator))
}

/// An operation.
#[cycle(copy)]
fn copy_operation(
    copier: &mut Copier,
    source: &Source,
    span: Span,
    operator: Operator,
    left: ExprId,
    right: ExprId,
) -> Result<Copied, Memory>
    requires left { left.0 < length source.now.exprs.nodes }
    requires right { right.0 < length source.now.exprs.nodes }
    ensures { IfOk result (λ c. Copies (globals_in source.now) copier.old copier.new c (GenericOp span operator (tree_of source.now.exprs left.0) (tree_of source.now.exprs right.0))) }
{
    let first = copy_expression(copier, source, left)?;
    let second = copy_expression(copier, source, right)?;
    let ty = operator_type(copier, operator)?;
    let expr = copier.put(Node::Operation {
        span,
        operator,
        left: first.expr,
        right: second.expr,
    })?;
    Ok(Copied {
        expr,
        given: ResultIds::One(ty),
    })
}

/// An `if`, whose type is that of its first part.
#[cycle(copy)]
fn copy_if(
    copier: &mut Copier,
    source: &Source,
    span: Span,
    condition: ExprId,
    then_part: ExprId,
    else_part: ExprId,
) -> Result<Copied, Memory>
    requires condition { condition.0 < length source.now.exprs.nodes }
    requires then_part { then_part.0 < length source.now.exprs.nodes }
    requires else_part { else_part.0 < length source.now.exprs.nodes }
    ensures { IfOk result (λ c. Copies (globals_in source.now) copier.old copier.new c (GenericIf span (tree_of source.now.exprs condition.0) (tree_of source.now.exprs then_part.0) (tree_of source.now.exprs else_part.0))) }
{
    let first = copy_expression(copier, source, condition)?;
    let second = copy_expression(copier, source, then_part)?;
    let third = copy_expression(copier, source, else_part)?;
    let expr = copier.put(Node::If {
        span,
        condition: first.expr,
        then_part: second.expr,
        else_part: third.expr,
    })?;
    Ok(Copied {
        expr,
        given: second.given,
    })
}

/// A `let`, whose names have the types of what is bound to them.
#[cycle(copy)]
fn copy_let(
    copier: &mut Copier,
    source: &Source,
    span: Span,
    names: &[Ident],
    bound: ExprId,
    body: ExprId,
) -> Result<Copied, Memory>
    requires bound { bound.0 < length source.now.exprs.nodes }
    requires body { body.0 < length source.now.exprs.nodes }
    ensures { IfOk result (λ c. Copies (globals_in source.now) copier.old copier.new c (GenericLet span names.now (tree_of source.now.exprs bound.0) (tree_of source.now.exprs body.0))) }
{
    let copied = copy_expression(copier, source, bound)?;
    let outer = copier.scene.scope_len();
    copier.bind_given(names, copied.given)?;
    let inner = copy_expression(copier, source, body)?;
    copier.leave(outer);
    let side = CopiedSide { names, copied };
    let node = let_node(copier, span, &side, inner.expr)?;
    let expr = copier.put(node)?;
    Ok(Copied {
        expr,
        given: inner.given,
    })
}

/// A `let par`, whose names have the types of what is bound to them.
#[cycle(copy)]
fn copy_let_par(
    copier: &mut Copier,
    source: &Source,
    span: Span,
    left: &Side,
    right: &Side,
    body: ExprId,
) -> Result<Copied, Memory>
    requires left { left.now.value.0 < length source.now.exprs.nodes }
    requires right { right.now.value.0 < length source.now.exprs.nodes }
    requires body { body.0 < length source.now.exprs.nodes }
    ensures { IfOk result (λ c. Copies (globals_in source.now) copier.old copier.new c (GenericPar span left.now.names (tree_of source.now.exprs left.now.value.0) right.now.names (tree_of source.now.exprs right.now.value.0) (tree_of source.now.exprs body.0))) }
{
    let first = copy_expression(copier, source, left.value)?;
    let second = copy_expression(copier, source, right.value)?;
    let outer = copier.scene.scope_len();
    let left_names = left.names.as_slice();
    let right_names = right.names.as_slice();
    copier.bind_given(left_names, first.given)?;
    copier.bind_given(right_names, second.given)?;
    let inner = copy_expression(copier, source, body)?;
    copier.leave(outer);
    let left = CopiedSide {
        names: left_names,
        copied: first,
    };
    let right = CopiedSide {
        names: right_names,
        copied: second,
    };
    let node = par_node(copier, span, &left, &right, inner.expr)?;
    let expr = copier.put(node)?;
    Ok(Copied {
        expr,
        given: inner.given,
    })
}

/// Arguments, from left to right.
#[cycle(copy)]
fn copy_arguments(
    copier: &mut Copier,
    source: &Source,
    id: ExprId,
    ids: &[ExprId],
) -> Result<Vec<ExprId>, Memory>
    requires inside { id.0 < length source.now.exprs.nodes }
    requires below { AllByRecursion (λ a. a.0 < id.0) ids.now }
    ensures { IfOk result (λ copied. CopiesAll (globals_in source.now) copier.old copier.new copied.items (arguments_from (tree_of source.now.exprs) ids.now)) }
{
    let mut copied = Vec::new(copier.alloc);
    let mut rest = ids;
    'arguments: while let [argument, after @ ..] = rest {
        let part = copy_expression(copier, source, *argument)?;
        copied.push(part.expr)?;
        rest = after;
    }
    Ok(copied)
}

/// The parts of a tuple, from left to right, with their types.
#[cycle(copy)]
fn copy_tuple_parts(
    copier: &mut Copier,
    source: &Source,
    id: ExprId,
    ids: &[ExprId],
) -> Result<(Vec<ExprId>, Vec<TypeId>), Memory>
    requires inside { id.0 < length source.now.exprs.nodes }
    requires below { AllByRecursion (λ a. a.0 < id.0) ids.now }
    ensures { IfOk result (λ copied. CopiesTuple (globals_in source.now) copier.old copier.new copied.0.items copied.1.items (arguments_from (tree_of source.now.exprs) ids.now)) }
{
    let mut exprs = Vec::new(copier.alloc);
    let mut types = Vec::new(copier.alloc);
    let mut rest = ids;
    'parts: while let [part, after @ ..] = rest {
        let copied = copy_expression(copier, source, *part)?;
        let ty = copier.one(copied.given)?;
        exprs.push(copied.expr)?;
        types.push(ty)?;
        rest = after;
    }
    Ok((exprs, types))
}

/// A tuple, which carries the types of its parts.
#[cycle(copy)]
fn copy_tuple(
    copier: &mut Copier,
    source: &Source,
    id: ExprId,
    span: Span,
    ids: &[ExprId],
) -> Result<Copied, Memory>
    requires inside { id.0 < length source.now.exprs.nodes }
    requires below { AllByRecursion (λ a. a.0 < id.0) ids.now }
    ensures { IfOk result (λ c. Copies (globals_in source.now) copier.old copier.new c (GenericTuple span (arguments_from (tree_of source.now.exprs) ids.now))) }
{
    let (parts, forms) = copy_tuple_parts(copier, source, id, ids)?;
    let types = copier.type_names(span, &forms)?;
    let given = copier.put_parts(&forms)?;
    let expr = copier.put(Node::Tuple { span, types, parts })?;
    Ok(Copied { expr, given })
}

/// A call, of the function's copy at the types that the call says.
#[cycle(copy)]
fn copy_call(
    copier: &mut Copier,
    source: &Source,
    id: ExprId,
    f: Ident,
    run: Run,
    ids: &[ExprId],
) -> Result<Copied, Memory>
    requires inside { id.0 < length source.now.exprs.nodes }
    requires below { AllByRecursion (λ a. a.0 < id.0) ids.now }
    ensures { IfOk result (λ c. Copies (globals_in source.now) copier.old copier.new c (GenericCall f (types_in source.now.exprs.words run) (arguments_from (tree_of source.now.exprs) ids.now))) }
{
    let types = copier.meet_types(source.words(run))?;
    let name = copier.name(f, &types)?;
    let arguments = copy_arguments(copier, source, id, ids)?;
    let given = copier.meet_result(source, f.name, &types)?;
    let expr = copier.put(Node::Call(name, arguments))?;
    Ok(Copied { expr, given })
}

/// A constructor, of the copy of its type at the types that it says.
#[cycle(copy)]
fn copy_make(
    copier: &mut Copier,
    source: &Source,
    id: ExprId,
    k: Ident,
    run: Run,
    ids: &[ExprId],
) -> Result<Copied, Memory>
    requires inside { id.0 < length source.now.exprs.nodes }
    requires below { AllByRecursion (λ a. a.0 < id.0) ids.now }
    ensures { IfOk result (λ c. Copies (globals_in source.now) copier.old copier.new c (GenericMake k (types_in source.now.exprs.words run) (arguments_from (tree_of source.now.exprs) ids.now))) }
{
    let types = copier.meet_types(source.words(run))?;
    let name = copier.name(k, &types)?;
    let arguments = copy_arguments(copier, source, id, ids)?;
    let ty = copier.meet(TypeNode::Data(source.owner(k.name).0, types))?;
    let expr = copier.put(Node::Make(name, arguments))?;
    Ok(Copied {
        expr,
        given: ResultIds::One(ty),
    })
}

/// An arm of a `case` on a variable whose type has these arguments.
#[cycle(copy)]
fn copy_arm(
    copier: &mut Copier,
    source: &Source,
    id: ExprId,
    arm: &Arm,
    types: &[TypeId],
) -> Result<CopiedArm, Memory>
    requires inside { id.0 < length source.now.exprs.nodes }
    requires below { IsArmBelow id.0 arm.now }
    requires types { AreBelow (length copier.old.scene.types) types.now }
    ensures { IfOk result (λ c. CopiesArm (globals_in source.now) copier.old copier.new c.arm c.given arm.now (tree_of source.now.exprs arm.now.body.0) (forms_at (forms copier.old.scene) types.now)) }
{
    let constructor = copier.name(arm.constructor, types)?;
    let outer = copier.scene.scope_len();
    copier.bind_fields(source, arm.constructor.name, &arm.variables, types)?;
    let inner = copy_expression(copier, source, arm.body)?;
    copier.leave(outer);
    let variables = Vec::from_slice(copier.alloc, &arm.variables)?;
    Ok(CopiedArm {
        arm: Arm {
            constructor,
            variables,
            body: inner.expr,
        },
        given: inner.given,
    })
}

/// Arms are copied behind others, from the first to the last.
#[cycle(copy)]
fn copy_arms(
    copier: &mut Copier,
    source: &Source,
    id: ExprId,
    arms: &[Arm],
    types: &[TypeId],
    copied: &mut Vec<Arm>,
) -> Result<(), Memory>
    requires inside { id.0 < length source.now.exprs.nodes }
    requires below { AllByRecursion (IsArmBelow id.0) arms.now }
    requires types { AreBelow (length copier.old.scene.types) types.now }
    ensures { IfOk result (λ _. CopiesArms (globals_in source.now) (tree_of source.now.exprs) copier.old copier.new (forms_at (forms copier.old.scene) types.now) copied.old.items copied.new.items arms.now) }
{
    let mut rest = arms;
    'arms: while let [arm, after @ ..] = rest {
        let part = copy_arm(copier, source, id, arm, types)?;
        copied.push(part.arm)?;
        rest = after;
    }
    Ok(())
}

/// A `case`: its arms are those of the copy of the variable's type, and its type is that of the first one.
#[cycle(copy)]
fn copy_case(
    copier: &mut Copier,
    source: &Source,
    id: ExprId,
    span: Span,
    variable: Ident,
    arms: &[Arm],
) -> Result<Copied, Memory>
    requires inside { id.0 < length source.now.exprs.nodes }
    requires below { ArmsBelow arms.now id.0 }
    ensures { IfOk result (λ c. Copies (globals_in source.now) copier.old copier.new c (case_from (tree_of source.now.exprs) arms.now (GenericCase span variable))) }
{
    let [first, further @ ..] = arms else {
        unreachable!()
    };
    let of = copier.meet_variable(variable.name)?;
    let types = copier.arguments(of)?;
    let part = copy_arm(copier, source, id, first, &types)?;
    let given = part.given;
    let mut copied = Vec::new(copier.alloc);
    copied.push(part.arm)?;
    copy_arms(copier, source, id, further, &types, &mut copied)?;
    let expr = copier.put(Node::Case {
        span,
        variable,
        arms: copied,
    })?;
    Ok(Copied { expr, given })
}

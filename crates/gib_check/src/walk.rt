//! The check of one expression.

ghost use Rattle.std.specs.Prelude.{◌≡◌, ◌<◌, List, Ok, length, map, IfOk};
ghost use Rattle.std.specs.List.{AllByRecursion};
ghost use Rattle.gib_types.specs.{Form.{Form}, Types.{forms_at, form_from, AreBelow}};
ghost use Rattle.gib_syntax.specs.{GenericArena.{IsArmBelow, Opens, arguments_from}, GenericTyping.{variable_numbers, opaque, operator_form}};
ghost use Rattle.gib_syntax.specs.Words.{IsTypesRun, types_in};
ghost use Rattle.gib_syntax.specs.GenericTree as tree;
ghost use Rattle.gib_check.specs.Answers.{Gives};
ghost use Rattle.gib_check.specs.Judging.{forms, in_scope, forms_given, Met, AllMet, parts_in, ArePartsMet, arm_head, infer_each_arm, family_of, Binding, Choosing, IsClosed};
ghost use Rattle.gib_check.specs.NameViews.{generic_globals, generic_tree};
ghost use Rattle.gib_check.specs.Faults as rule;

use crate::arms::{all_counted, all_declared, covered};
use crate::bindings::{bind_given, bind_sides};
use crate::fault::TypeFault;
use crate::named::Around;
use crate::parts::part;
use crate::rules::{
    Part, ResultIds, all_of, all_single, declared_type, wanted, wanted_truth, wanted_whole,
};
use crate::standing::{Standing, may_stand, standing_for};
use crate::state::State;
use crate::uses::{Due, Use, call_results, fields_named, make_result, use_types};
use gib_base::Span;
use gib_syntax::{Arm, ExprId, GenericNode, Ident};
use gib_types::Operator;
use gib_types::types::{TypeId, TypeNode};

/// An expression's number, and where it stands.
#[derive(Clone, Copy)]
struct At {
    id: ExprId,
    span: Span,
    standing: Standing,
}

impl At {
    // The expression of a number.
    fn new(id: ExprId, span: Span, standing: Standing) -> At
        ensures { result ≡ record { id = id; span = span; standing = standing } }
    {
        At { id, span, standing }
    }
}

/// Two parts.
#[derive(Clone, Copy)]
struct Sides {
    left: ExprId,
    right: ExprId,
}

impl Sides {
    // A part on the left, and one on the right.
    fn new(left: ExprId, right: ExprId) -> Sides
        ensures { result ≡ record { left = left; right = right } }
    {
        Sides { left, right }
    }
}

/// Two parts that are bound, and the part in which they are.
#[derive(Clone, Copy)]
struct BoundParts {
    left: ExprId,
    right: ExprId,
    body: ExprId,
}

/// The variables of two sides.
#[derive(Drop)]
struct SideNames<'a> {
    left: &'a [Ident],
    right: &'a [Ident],
}

/// The node of an operator's result.
fn result_node(operator: Operator) -> TypeNode
    ensures form { (fs : List Form) → form_from fs result ≡ operator_form operator }
    ensures closed { IsClosed result }
{
    match operator {
        Operator::Add
        | Operator::Subtract
        | Operator::Multiply
        | Operator::Quotient
        | Operator::Remainder => TypeNode::Whole,
        Operator::Equal | Operator::Less => TypeNode::Truth,
    }
}

/// The type of a variable.
fn variable(state: &mut State, x: Ident) -> Result<ResultIds, TypeFault>
    ensures read { Gives (λ r. (forms_given state.new r, state.new.counts)) result (rule.infer_variable (in_scope state.old) state.old.counts x) }
    ensures kept { (in_scope state.new) ≡ (in_scope state.old) }
    ensures met { IfOk result (λ r. Met state.old state.new r) }
{
    state.one_more(x.span)?;
    let ty = state.type_of(x)?;
    Ok(ResultIds::One(ty))
}

/// The type of a literal.
fn literal(state: &mut State, at: Span, node: TypeNode) -> Result<ResultIds, TypeFault>
    requires { IsClosed node }
    ensures read { (fs : List Form) → Gives (λ r. (forms_given state.new r, state.new.counts)) result (rule.infer_literal state.old.counts at (form_from fs node)) }
    ensures kept { (in_scope state.new) ≡ (in_scope state.old) }
    ensures met { IfOk result (λ r. Met state.old state.new r) }
{
    state.one_more(at)?;
    let id = state.put(node)?;
    Ok(ResultIds::One(id))
}

/// What an expression gives.
#[cycle(infer)]
pub fn infer(
    around: &Around,
    state: &mut State,
    standing: Standing,
    id: ExprId,
) -> Result<ResultIds, TypeFault>
    requires { id.0 < length around.now.named.now.exprs.nodes }
    ensures read { Gives (λ r. (forms_given state.new r, state.new.counts)) result (rule.infer (generic_globals around.now.named.now) (variable_numbers around.now.variables.now) opaque standing (in_scope state.old) state.old.counts (generic_tree around.now.named.now id.0)) }
    ensures kept { IfOk result (λ _. (in_scope state.new) ≡ (in_scope state.old)) }
    ensures met { IfOk result (λ r. Met state.old state.new r) }
{
    let node = around.named.node(id);
    match node {
        GenericNode::Variable(x) => variable(state, *x),
        GenericNode::Whole(span, _) => literal(state, *span, TypeNode::Whole),
        GenericNode::Truth(span, _) => literal(state, *span, TypeNode::Truth),
        GenericNode::Paren(_, inner) => infer(around, state, standing, *inner),
        GenericNode::Operation {
            span,
            operator,
            left,
            right,
        } => {
            let at = At::new(id, *span, standing);
            let sides = Sides::new(*left, *right);
            operation(around, state, at, *operator, sides)
        }
        GenericNode::Call(f, types, ids) => {
            let called = Use::new(*f, *types);
            call(around, state, id, called, ids)
        }
        GenericNode::Make(k, types, ids) => {
            let made = Use::new(*k, *types);
            make(around, state, id, made, ids)
        }
        GenericNode::Tuple(span, parts) => {
            let at = At::new(id, *span, standing);
            tuple(around, state, at, parts)
        }
        GenericNode::Let { .. } | GenericNode::LetPar { .. } => {
            infer_binding(around, state, standing, id, node)
        }
        GenericNode::If { .. } | GenericNode::Case { .. } => {
            infer_choice(around, state, standing, id, node)
        }
    }
}

/// What an expression gives that has several ways on.
#[cycle(infer)]
fn infer_choice(
    around: &Around,
    state: &mut State,
    standing: Standing,
    id: ExprId,
    node: &GenericNode,
) -> Result<ResultIds, TypeFault>
    requires inside { id.0 < length around.now.named.now.exprs.nodes }
    requires opens { Opens around.now.named.now.exprs id.0 node.now }
    requires choosing { family_of node.now ≡ Choosing }
    ensures read { Gives (λ r. (forms_given state.new r, state.new.counts)) result (rule.infer (generic_globals around.now.named.now) (variable_numbers around.now.variables.now) opaque standing (in_scope state.old) state.old.counts (generic_tree around.now.named.now id.0)) }
    ensures kept { IfOk result (λ _. (in_scope state.new) ≡ (in_scope state.old)) }
    ensures met { IfOk result (λ r. Met state.old state.new r) }
{
    match node {
        GenericNode::If {
            span,
            condition,
            then_part,
            else_part,
        } => {
            let at = At::new(id, *span, standing);
            let branches = Sides::new(*then_part, *else_part);
            if_else(around, state, at, *condition, branches)
        }
        GenericNode::Case {
            span,
            variable,
            arms,
        } => {
            let at = At::new(id, *span, standing);
            case(around, state, at, *variable, arms)
        }
        _ => unreachable!(),
    }
}

/// What an expression gives that binds variables.
#[cycle(infer)]
fn infer_binding(
    around: &Around,
    state: &mut State,
    standing: Standing,
    id: ExprId,
    node: &GenericNode,
) -> Result<ResultIds, TypeFault>
    requires inside { id.0 < length around.now.named.now.exprs.nodes }
    requires opens { Opens around.now.named.now.exprs id.0 node.now }
    requires binding { family_of node.now ≡ Binding }
    ensures read { Gives (λ r. (forms_given state.new r, state.new.counts)) result (rule.infer (generic_globals around.now.named.now) (variable_numbers around.now.variables.now) opaque standing (in_scope state.old) state.old.counts (generic_tree around.now.named.now id.0)) }
    ensures kept { IfOk result (λ _. (in_scope state.new) ≡ (in_scope state.old)) }
    ensures met { IfOk result (λ r. Met state.old state.new r) }
{
    match node {
        GenericNode::Let {
            span,
            names,
            bound,
            body,
        } => {
            let at = At::new(id, *span, standing);
            let sides = Sides::new(*bound, *body);
            infer_let(around, state, at, names.as_slice(), sides)
        }
        GenericNode::LetPar {
            span,
            left,
            right,
            body,
        } => {
            let at = At::new(id, *span, standing);
            let names = SideNames {
                left: left.names.as_slice(),
                right: right.names.as_slice(),
            };
            let parts = BoundParts {
                left: left.value,
                right: right.value,
                body: *body,
            };
            infer_par(around, state, at, &names, parts)
        }
        _ => unreachable!(),
    }
}

/// The type of an operation.
#[cycle(infer)]
fn operation(
    around: &Around,
    state: &mut State,
    at: At,
    operator: Operator,
    sides: Sides,
) -> Result<ResultIds, TypeFault>
    requires inside { at.id.0 < length around.now.named.now.exprs.nodes }
    requires left { sides.left.0 < at.id.0 }
    requires right { sides.right.0 < at.id.0 }
    ensures read { Gives (λ r. (forms_given state.new r, state.new.counts)) result (rule.infer (generic_globals around.now.named.now) (variable_numbers around.now.variables.now) opaque at.standing (in_scope state.old) state.old.counts (tree.GenericOp at.span operator (generic_tree around.now.named.now sides.left.0) (generic_tree around.now.named.now sides.right.0))) }
    ensures kept { IfOk result (λ _. (in_scope state.new) ≡ (in_scope state.old)) }
    ensures met { IfOk result (λ r. Met state.old state.new r) }
{
    state.one_more(at.span)?;
    let left_ty = infer(around, state, Standing::NoTuple, sides.left)?;
    let right_ty = infer(around, state, Standing::NoTuple, sides.right)?;
    wanted_whole(state, part(around.named, sides.left, left_ty))?;
    wanted_whole(state, part(around.named, sides.right, right_ty))?;
    let id = state.put(result_node(operator))?;
    Ok(ResultIds::One(id))
}

/// The types of arguments, from left to right.
#[cycle(infer)]
fn arguments(
    around: &Around,
    state: &mut State,
    id: ExprId,
    ids: &[ExprId],
) -> Result<Vec<Part>, TypeFault>
    requires inside { id.0 < length around.now.named.now.exprs.nodes }
    requires below { AllByRecursion (λ a. a.0 < id.0) ids.now }
    ensures read { Gives (λ parts. (parts_in state.new parts.items, state.new.counts)) result (rule.infer_all (generic_globals around.now.named.now) (variable_numbers around.now.variables.now) opaque (in_scope state.old) state.old.counts (arguments_from (generic_tree around.now.named.now) ids.now)) }
    ensures kept { IfOk result (λ _. (in_scope state.new) ≡ (in_scope state.old)) }
    ensures met { IfOk result (λ parts. AllMet state.old state.new parts.items) }
{
    let mut parts = Vec::new(state.alloc());
    let mut rest = ids;
    'arguments: while let [first, after @ ..] = rest {
        let ty = infer(around, state, Standing::NoTuple, *first)?;
        parts.push(part(around.named, *first, ty))?;
        rest = after;
    }
    Ok(parts)
}

/// The type of a call.
#[cycle(infer)]
fn call(
    around: &Around,
    state: &mut State,
    id: ExprId,
    called: Use,
    ids: &[ExprId],
) -> Result<ResultIds, TypeFault>
    requires inside { id.0 < length around.now.named.now.exprs.nodes }
    requires below { AllByRecursion (λ a. a.0 < id.0) ids.now }
    requires types { IsTypesRun around.now.named.now.exprs.words called.types }
    ensures read { Gives (λ r. (forms_given state.new r, state.new.counts)) result (rule.infer_call (generic_globals around.now.named.now) (variable_numbers around.now.variables.now) opaque state.old.counts called.name (types_in around.now.named.now.exprs.words called.types) (length ids.now) (λ n. rule.infer_all (generic_globals around.now.named.now) (variable_numbers around.now.variables.now) opaque (in_scope state.old) n (arguments_from (generic_tree around.now.named.now) ids.now))) }
    ensures kept { IfOk result (λ _. (in_scope state.new) ≡ (in_scope state.old)) }
    ensures met { IfOk result (λ r. Met state.old state.new r) }
{
    state.one_more(called.name.span)?;
    let function = around.named.function(called.name)?;
    let due = Due {
        types: function.variables.len(),
        arguments: function.parameters.len(),
    };
    let types = use_types(around, state, called, ids.len(), due)?;
    let parts = arguments(around, state, id, ids)?;
    let given = call_results(around.named, state, function, &types, &parts)?;
    Ok(given)
}

/// The type of a constructor with its arguments.
#[cycle(infer)]
fn make(
    around: &Around,
    state: &mut State,
    id: ExprId,
    made: Use,
    ids: &[ExprId],
) -> Result<ResultIds, TypeFault>
    requires inside { id.0 < length around.now.named.now.exprs.nodes }
    requires below { AllByRecursion (λ a. a.0 < id.0) ids.now }
    requires types { IsTypesRun around.now.named.now.exprs.words made.types }
    ensures read { Gives (λ r. (forms_given state.new r, state.new.counts)) result (rule.infer_make (generic_globals around.now.named.now) (variable_numbers around.now.variables.now) opaque state.old.counts made.name (types_in around.now.named.now.exprs.words made.types) (length ids.now) (λ n. rule.infer_all (generic_globals around.now.named.now) (variable_numbers around.now.variables.now) opaque (in_scope state.old) n (arguments_from (generic_tree around.now.named.now) ids.now))) }
    ensures kept { IfOk result (λ _. (in_scope state.new) ≡ (in_scope state.old)) }
    ensures met { IfOk result (λ r. Met state.old state.new r) }
{
    state.one_more(made.name.span)?;
    let row = around.named.constructor(made.name)?;
    let due = Due {
        types: around.named.variables(row.declaration).len(),
        arguments: row.count,
    };
    let types = use_types(around, state, made, ids.len(), due)?;
    let parts = arguments(around, state, id, ids)?;
    let given = make_result(around.named, state, row, types, &parts)?;
    Ok(given)
}

/// The types of the parts of a tuple.
#[cycle(infer)]
fn tuple(around: &Around, state: &mut State, at: At, ids: &[ExprId]) -> Result<ResultIds, TypeFault>
    requires inside { at.id.0 < length around.now.named.now.exprs.nodes }
    requires below { AllByRecursion (λ a. a.0 < at.id.0) ids.now }
    ensures read { Gives (λ r. (forms_given state.new r, state.new.counts)) result (rule.infer_tuple at.standing state.old.counts at.span (length ids.now) (λ n. rule.infer_all (generic_globals around.now.named.now) (variable_numbers around.now.variables.now) opaque (in_scope state.old) n (arguments_from (generic_tree around.now.named.now) ids.now))) }
    ensures kept { IfOk result (λ _. (in_scope state.new) ≡ (in_scope state.old)) }
    ensures met { IfOk result (λ r. Met state.old state.new r) }
{
    state.one_more(at.span)?;
    may_stand(at.standing, ids.len(), at.span)?;
    let parts = arguments(around, state, at.id, ids)?;
    let types = all_single(state, &parts)?;
    let given = state.put_parts(&types)?;
    Ok(given)
}

/// What a `let` gives: its value is on the left, its body on the right.
#[cycle(infer)]
fn infer_let(
    around: &Around,
    state: &mut State,
    at: At,
    names: &[Ident],
    sides: Sides,
) -> Result<ResultIds, TypeFault>
    requires inside { at.id.0 < length around.now.named.now.exprs.nodes }
    requires value { sides.left.0 < at.id.0 }
    requires body { sides.right.0 < at.id.0 }
    ensures read { Gives (λ r. (forms_given state.new r, state.new.counts)) result (rule.infer (generic_globals around.now.named.now) (variable_numbers around.now.variables.now) opaque at.standing (in_scope state.old) state.old.counts (tree.GenericLet at.span names.now (generic_tree around.now.named.now sides.left.0) (generic_tree around.now.named.now sides.right.0))) }
    ensures kept { IfOk result (λ _. (in_scope state.new) ≡ (in_scope state.old)) }
    ensures met { IfOk result (λ r. Met state.old state.new r) }
{
    state.one_more(at.span)?;
    let value = infer(around, state, standing_for(names), sides.left)?;
    let len = state.len();
    bind_given(state, names, part(around.named, sides.left, value))?;
    let given = infer(around, state, at.standing, sides.right)?;
    state.truncate(len)?;
    Ok(given)
}

/// What a `let par` gives.
#[cycle(infer)]
fn infer_par(
    around: &Around,
    state: &mut State,
    at: At,
    names: &SideNames,
    parts: BoundParts,
) -> Result<ResultIds, TypeFault>
    requires inside { at.id.0 < length around.now.named.now.exprs.nodes }
    requires left { parts.left.0 < at.id.0 }
    requires right { parts.right.0 < at.id.0 }
    requires body { parts.body.0 < at.id.0 }
    ensures read { Gives (λ r. (forms_given state.new r, state.new.counts)) result (rule.infer (generic_globals around.now.named.now) (variable_numbers around.now.variables.now) opaque at.standing (in_scope state.old) state.old.counts (tree.GenericPar at.span names.now.left.now (generic_tree around.now.named.now parts.left.0) names.now.right.now (generic_tree around.now.named.now parts.right.0) (generic_tree around.now.named.now parts.body.0))) }
    ensures kept { IfOk result (λ _. (in_scope state.new) ≡ (in_scope state.old)) }
    ensures met { IfOk result (λ r. Met state.old state.new r) }
{
    state.one_more(at.span)?;
    let left = infer(around, state, standing_for(names.left), parts.left)?;
    let right = infer(around, state, standing_for(names.right), parts.right)?;
    let len = state.len();
    let left = part(around.named, parts.left, left);
    let right = part(around.named, parts.right, right);
    bind_sides(state, names.left, left, names.right, right)?;
    let given = infer(around, state, at.standing, parts.body)?;
    state.truncate(len)?;
    Ok(given)
}

/// The type of an `if`.
#[cycle(infer)]
fn if_else(
    around: &Around,
    state: &mut State,
    at: At,
    condition: ExprId,
    branches: Sides,
) -> Result<ResultIds, TypeFault>
    requires inside { at.id.0 < length around.now.named.now.exprs.nodes }
    requires condition { condition.0 < at.id.0 }
    requires then_part { branches.left.0 < at.id.0 }
    requires else_part { branches.right.0 < at.id.0 }
    ensures read { Gives (λ r. (forms_given state.new r, state.new.counts)) result (rule.infer (generic_globals around.now.named.now) (variable_numbers around.now.variables.now) opaque at.standing (in_scope state.old) state.old.counts (tree.GenericIf at.span (generic_tree around.now.named.now condition.0) (generic_tree around.now.named.now branches.left.0) (generic_tree around.now.named.now branches.right.0))) }
    ensures kept { IfOk result (λ _. (in_scope state.new) ≡ (in_scope state.old)) }
    ensures met { IfOk result (λ r. Met state.old state.new r) }
{
    state.one_more(at.span)?;
    let condition_ty = infer(around, state, Standing::NoTuple, condition)?;
    let then_ty = infer(around, state, at.standing, branches.left)?;
    let else_ty = infer(around, state, at.standing, branches.right)?;
    wanted_truth(state, part(around.named, condition, condition_ty))?;
    wanted(state, then_ty, part(around.named, branches.right, else_ty))?;
    Ok(then_ty)
}

/// The type of an arm, where the type's variables stand for these types.
#[cycle(infer)]
fn arm_result(
    around: &Around,
    state: &mut State,
    at: At,
    types: &[TypeId],
    arm: &Arm,
) -> Result<ResultIds, TypeFault>
    requires inside { at.id.0 < length around.now.named.now.exprs.nodes }
    requires below { arm.now.body.0 < at.id.0 }
    requires types { AreBelow (length state.old.types) types.now }
    ensures read { Gives (λ r. (forms_given state.new r, state.new.counts)) result (rule.infer_arm (generic_globals around.now.named.now).rows (forms_at (forms state.old) types.now) (in_scope state.old) state.old.counts arm.now.constructor arm.now.variables.items (λ inner n. rule.infer (generic_globals around.now.named.now) (variable_numbers around.now.variables.now) opaque at.standing inner n (generic_tree around.now.named.now arm.now.body.0))) }
    ensures kept { IfOk result (λ _. (in_scope state.new) ≡ (in_scope state.old)) }
    ensures met { IfOk result (λ r. Met state.old state.new r) }
{
    let fields = fields_named(around.named, state, arm.constructor.name, types)?;
    let len = state.len();
    state.bind_all(&arm.variables, &fields)?;
    let given = infer(around, state, at.standing, arm.body)?;
    state.truncate(len)?;
    Ok(given)
}

/// The types of arms, in the order of the text.
#[cycle(infer)]
fn arm_results(
    around: &Around,
    state: &mut State,
    at: At,
    types: &[TypeId],
    arms: &[Arm],
) -> Result<Vec<Part>, TypeFault>
    requires inside { at.id.0 < length around.now.named.now.exprs.nodes }
    requires below { AllByRecursion (IsArmBelow at.id.0) arms.now }
    requires types { AreBelow (length state.old.types) types.now }
    ensures read { Gives (λ parts. (parts_in state.new parts.items, state.new.counts)) result (infer_each_arm (generic_globals around.now.named.now) (variable_numbers around.now.variables.now) at.standing (forms_at (forms state.old) types.now) (generic_tree around.now.named.now) (in_scope state.old) state.old.counts arms.now) }
    ensures kept { IfOk result (λ _. (in_scope state.new) ≡ (in_scope state.old)) }
    ensures met { IfOk result (λ parts. AllMet state.old state.new parts.items) }
{
    let mut parts = Vec::new(state.alloc());
    let mut rest = arms;
    'arms: while let [first, after @ ..] = rest {
        let ty = arm_result(around, state, at, types, first)?;
        parts.push(part(around.named, first.body, ty))?;
        rest = after;
    }
    Ok(parts)
}

/// What the first part gives, and that all give such a thing.
fn common_type(state: &mut State, parts: &[Part]) -> Result<ResultIds, TypeFault>
    requires { ArePartsMet state.old parts.now }
    ensures read { Gives (λ r. forms_given state.new r) result (rule.and_then (rule.all_of (rule.first_type (parts_in state.old parts.now)) (parts_in state.old parts.now)) (λ _. Ok (rule.first_type (parts_in state.old parts.now)))) }
    ensures met { IfOk result (λ r. Met state.old state.new r) }
    ensures counts { state.new.counts ≡ state.old.counts }
    ensures scope { (in_scope state.new) ≡ (in_scope state.old) }
{
    match parts {
        [] => {
            let ty = state.put(TypeNode::Whole)?;
            Ok(ResultIds::One(ty))
        }
        [first, ..] => {
            all_of(state, first.ty, parts)?;
            Ok(first.ty)
        }
    }
}

/// The type of a `case`.
#[cycle(infer)]
fn case(
    around: &Around,
    state: &mut State,
    at: At,
    variable: Ident,
    arms: &[Arm],
) -> Result<ResultIds, TypeFault>
    requires inside { at.id.0 < length around.now.named.now.exprs.nodes }
    requires below { AllByRecursion (IsArmBelow at.id.0) arms.now }
    ensures read { Gives (λ r. (forms_given state.new r, state.new.counts)) result (rule.infer_case (generic_globals around.now.named.now).rows (in_scope state.old) state.old.counts at.span variable (map arm_head arms.now) (λ ts n. infer_each_arm (generic_globals around.now.named.now) (variable_numbers around.now.variables.now) at.standing ts (generic_tree around.now.named.now) (in_scope state.old) n arms.now)) }
    ensures kept { IfOk result (λ _. (in_scope state.new) ≡ (in_scope state.old)) }
    ensures met { IfOk result (λ r. Met state.old state.new r) }
{
    state.one_more(at.span)?;
    let ty = state.type_of(variable)?;
    let ty = declared_type(state.alloc(), state.types(), ty, variable)?;
    all_declared(around.named, arms)?;
    covered(around.named, ty.name, arms, at.span)?;
    all_counted(around.named, arms)?;
    let parts = arm_results(around, state, at, &ty.arguments, arms)?;
    let common = common_type(state, &parts)?;
    Ok(common)
}

//! What is known of each expression, wherever it stands.

ghost use Rattle.std.specs.Prelude.{◌≡◌, ◌<◌, ℕ, Some, length, IfOk};
ghost use Rattle.gib_base.specs.declared.Span.{Span};
ghost use Rattle.gib_syntax.specs.{declared.tree.Ident.{Ident}, Arena.{layer, case_from, PartsBelow, ArmsBelow}, Tree.{Expression, Case}};
ghost use Rattle.gib_syntax.specs.Typing.{Globals, names_of, types_of};
ghost use Rattle.gib_check.specs.{ArmPlaces.{place_named, place_in, case_names}, NodeFacts.{AreFacts}, Origins.{origin, outside_arm}};
ghost use Rattle.gib_check.specs.Views.{table_in, tree_in, globals_in};

use crate::arm_index::{ArmIndex, index_arms};
use crate::declared::Declared;
use crate::origin::{TypeOrigin, outside, outside_arm};
use gib_base::Memory;
use gib_syntax::{Arm, ExprId, Node, Parameter};
use gib_types::Ty;
use std::alloc::{AllocError, Global};

/// What is known of an expression: where its type comes from, and the places of its arms.
#[derive(Drop)]
pub struct NodeFacts {
    pub origin: TypeOrigin,
    pub arms: ArmIndex,
}

/// Where the type of an expression comes from.
fn origin_at(facts: &[NodeFacts], id: ExprId) -> TypeOrigin
    requires { id.0 < length facts.now }
    ensures { (g : Globals) (f : ℕ → Expression) → AreFacts g f facts.now → result ≡ origin g (f id.0) }
{
    facts[id.0 as usize].origin
}

/// Where the type of a `case` comes from: from its first arm.
fn case_origin(declared: &Declared, facts: &[NodeFacts], arms: &[Arm]) -> TypeOrigin
    requires below { ArmsBelow arms.now (length facts.now) }
    requires known { AreFacts (globals_in declared.now) (tree_in declared.now) facts.now }
    ensures { (p : Span) (x : Ident) → result ≡ origin (globals_in declared.now) (case_from (tree_in declared.now) arms.now (Case p x)) }
{
    match arms {
        [] => TypeOrigin::Fixed(Ty::Truth),
        [first, ..] => outside_arm(
            &first.variables,
            declared.fields_named(first.constructor),
            origin_at(facts, first.body),
        ),
    }
}

/// Where a type comes from, seen from outside of a binding of parts.
fn outside_parts(declared: &Declared, names: &[Parameter], body: TypeOrigin) -> TypeOrigin
    ensures { result ≡ outside_arm (names_of names.now) (types_of (table_in declared.now).types names.now) body }
{
    let mut origin = body;
    let mut place = names.len();
    'variables: while place > 0 {
        place -= 1;
        let variable = names[place];
        let ty = declared.type_named(variable.ty);
        origin = outside(variable.name, TypeOrigin::Fixed(ty), origin);
    }
    origin
}

/// Where a type comes from, seen from outside of a binding of the parts of two sides.
fn outside_sides(
    declared: &Declared,
    left: &[Parameter],
    right: &[Parameter],
    body: TypeOrigin,
) -> TypeOrigin
    ensures { result ≡ outside_arm (names_of left.now) (types_of (table_in declared.now).types left.now) (outside_arm (names_of right.now) (types_of (table_in declared.now).types right.now) body) }
{
    let inner = outside_parts(declared, right, body);
    outside_parts(declared, left, inner)
}

/// Where the type of a node comes from, where it is known of its parts.
fn node_origin(declared: &Declared, facts: &[NodeFacts], node: &Node) -> TypeOrigin
    requires below { PartsBelow node.now (length facts.now) }
    requires known { AreFacts (globals_in declared.now) (tree_in declared.now) facts.now }
    ensures { result ≡ origin (globals_in declared.now) (layer (tree_in declared.now) (Some node.now)) }
{
    match node {
        Node::Variable(x) => TypeOrigin::Variable(x.name),
        Node::Whole(_, _) | Node::Tuple { .. } => TypeOrigin::Fixed(Ty::Whole),
        Node::Truth(_, _) => TypeOrigin::Fixed(Ty::Truth),
        Node::Paren(_, inner) => origin_at(facts, *inner),
        Node::Operation { operator, .. } => TypeOrigin::Fixed(operator.result()),
        Node::Call(f, _) => TypeOrigin::Fixed(declared.given_type(f.name)),
        Node::Make(k, _) => TypeOrigin::Fixed(declared.made_type(k.name)),
        Node::Let {
            name,
            bound,
            body,
            ..
        } => outside(*name, origin_at(facts, *bound), origin_at(facts, *body)),
        Node::LetPar {
            left_name,
            left,
            right_name,
            right,
            body,
            ..
        } => {
            let right = origin_at(facts, *right);
            let body = outside(*right_name, right, origin_at(facts, *body));
            outside(*left_name, origin_at(facts, *left), body)
        }
        Node::If { then_part, .. } => origin_at(facts, *then_part),
        Node::Case { arms, .. } => case_origin(declared, facts, arms),
        Node::LetSeveral { names, body, .. } => {
            outside_parts(declared, names, origin_at(facts, *body))
        }
        Node::ParSeveral {
            left_names,
            right_names,
            body,
            ..
        } => outside_sides(declared, left_names, right_names, origin_at(facts, *body)),
    }
}

/// The places of the arms of a node, none where it is no `case`.
fn node_arms(alloc: Global, declared: &Declared, node: &Node) -> Result<ArmIndex, Memory>
    ensures { (f : ℕ → Expression) → IfOk result (λ index. (con : ℕ) → place_in index con ≡ place_named (table_in declared.now) (case_names (layer f (Some node.now))) con) }
{
    match node {
        Node::Case { arms, .. } => index_arms(alloc, declared, arms),
        Node::Variable(_)
        | Node::Whole(..)
        | Node::Truth(..)
        | Node::Paren(..)
        | Node::Operation { .. }
        | Node::Call(..)
        | Node::Make(..)
        | Node::Let { .. }
        | Node::LetPar { .. }
        | Node::If { .. }
        | Node::Tuple { .. }
        | Node::LetSeveral { .. }
        | Node::ParSeveral { .. } => index_arms(alloc, declared, &[]),
    }
}

/// What is known of each expression.
pub fn list_facts(alloc: Global, declared: &Declared) -> Result<Vec<NodeFacts>, Memory>
    ensures known { IfOk result (λ facts. AreFacts (globals_in declared.now) (tree_in declared.now) facts.items) }
    ensures all { IfOk result (λ facts. length facts.items ≡ length declared.now.exprs) }
{
    let count = declared.expr_count();
    let mut facts = Vec::new(alloc);
    let mut id = 0_u32;
    'nodes: while (id as usize) < count {
        let node = declared.node(ExprId(id));
        let origin = node_origin(declared, &facts, node);
        let arms = node_arms(alloc, declared, node)?;
        facts.push(NodeFacts { origin, arms })?;
        let Some(next) = id.checked_add(1) else {
            return Err(AllocError);
        };
        id = next;
    }
    Ok(facts)
}

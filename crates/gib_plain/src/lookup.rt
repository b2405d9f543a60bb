//! What the names and parts of a program are.

ghost use Rattle.std.specs.Prelude.{◌≡◌, ◌<◌, ◌+◌, ℕ, [], ◌∷◌, ◌++◌, None, Some, MatchOption, OnOk, IfOk, drop, length};
ghost use Rattle.gib_base.specs.declared.Span.{Span};
ghost use Rattle.gib_syntax.specs.{declared.tree.Ident.{Ident}, Tree.{Expression, Case}, Arena.{layer, tree_of, arguments_from, case_from}};
ghost use Rattle.gib_syntax.specs.{Parts.{program_of, function_tree}, Declarations.{table_of_program, constructor_named, function_named}};
ghost use Rattle.gib_plain.specs.{Running.{IsNext, expressions_of, fields_made, types_in, arm_of}, Turns.{in_turn}};

use crate::turns::argument_at;
use gib_base::{Memory, Name};
use gib_check::Typed;
use gib_syntax::{Arm, ExprId, FunctionDecl, Node, TypeName};
use gib_types::{ConId, Ty};

/// What comes next of an expression.
pub enum Next<'a> {
    /// The next part, if one is left.
    Part(Option<ExprId>),
    /// The expression is a tuple of these types and parts, whose turn is sought by `tuple_part`.
    Tuple(&'a [TypeName], &'a [ExprId]),
}

/// The function of a name.
pub fn function(typed: &Typed, name: Name) -> Option<&FunctionDecl>
    ensures { MatchOption result
        (function_named (program_of typed.now).functions name.0 ≡ None)
        (λ f. function_named (program_of typed.now).functions name.0 ≡ Some (function_tree (tree_of typed.now.exprs) f.now)) }
{
    match typed.function(name) {
        Some(id) => Some(typed.declaration(id)),
        None => None,
    }
}

/// The first arm of a constructor, where these are the arms of the expression.
pub fn arm<'a>(typed: &Typed, id: ExprId, arms: &'a [Arm], con: ConId) -> Option<&'a Arm>
    requires { id.0 < length typed.now.exprs }
    ensures { (span : Span) (x : Ident) → tree_of typed.now.exprs id.0 ≡ case_from (tree_of typed.now.exprs) arms.now (Case span x) → MatchOption result
        (arm_of (table_of_program (program_of typed.now)) arms.now con.0 ≡ None)
        (λ a. arm_of (table_of_program (program_of typed.now)) arms.now con.0 ≡ Some a.now) }
{
    match typed.arm_place(id, con) {
        Some(place) => arms.get(place as usize),
        None => None,
    }
}

/// The part at a place where there is one part.
fn part_of_one(only: ExprId, at: usize) -> Option<ExprId>
    ensures { (f : ℕ → Expression) → MatchOption result
        (drop at (f only.0 ∷ []) ≡ [])
        (λ i. drop at (f only.0 ∷ []) ≡ f i.0 ∷ drop (at + 1) (f only.0 ∷ [])) }
{
    if at == 0 { Some(only) } else { None }
}

/// The part at a place where there are two parts.
fn part_of_two(left: ExprId, right: ExprId, at: usize) -> Option<ExprId>
    ensures { (f : ℕ → Expression) → MatchOption result
        (drop at (f left.0 ∷ f right.0 ∷ []) ≡ [])
        (λ i. drop at (f left.0 ∷ f right.0 ∷ []) ≡ f i.0 ∷ drop (at + 1) (f left.0 ∷ f right.0 ∷ [])) }
{
    if at == 0 {
        Some(left)
    } else if at == 1 {
        Some(right)
    } else {
        None
    }
}

/// The part at a place among these.
fn part_of_all(parts: &[ExprId], at: usize) -> Option<ExprId>
    ensures { (f : ℕ → Expression) → MatchOption result
        (drop at (expressions_of (arguments_from f parts.now)) ≡ [])
        (λ i. drop at (expressions_of (arguments_from f parts.now)) ≡ f i.0 ∷ drop (at + 1) (expressions_of (arguments_from f parts.now))) }
{
    if at < parts.len() {
        Some(parts[at])
    } else {
        None
    }
}

/// The types of a constructor's fields; of a name that is no constructor's, none.
fn field_types(typed: &Typed, name: Name) -> &[Ty]
    ensures { result.now ≡ fields_made (table_of_program (program_of typed.now)) (constructor_named (table_of_program (program_of typed.now)) name.0) }
{
    match typed.constructor(name) {
        Some(con) => typed.types().fields(con),
        None => &[],
    }
}

/// Types that are written are put behind others.
pub fn push_types(types: &mut Vec<Ty>, typed: &Typed, names: &[TypeName]) -> Result<(), Memory>
    ensures { OnOk result (types.new.items ≡ types.old.items ++ types_in (table_of_program (program_of typed.now)) names.now) }
{
    let mut rest = names;
    'names: while let [name, after @ ..] = rest {
        types.push(typed.type_named(*name))?;
        rest = after;
    }
    Ok(())
}

/// The part at a place among a constructor's arguments, in the order in which they are evaluated.
fn part_in_turn(types: &[Ty], parts: &[ExprId], at: usize) -> Option<ExprId>
    ensures { (f : ℕ → Expression) → MatchOption result
        (drop at (in_turn types.now (expressions_of (arguments_from f parts.now))) ≡ [])
        (λ i. drop at (in_turn types.now (expressions_of (arguments_from f parts.now))) ≡ f i.0 ∷ drop (at + 1) (in_turn types.now (expressions_of (arguments_from f parts.now)))) }
{
    argument_at(types, parts, at)
}

/// The part at a place among those of a tuple whose types are written so. In `types` the types are put, each time anew.
///
/// # Errors
///
/// Want of memory.
pub fn tuple_part(
    typed: &Typed,
    types: &mut Vec<Ty>,
    names: &[TypeName],
    parts: &[ExprId],
    at: usize,
) -> Result<Option<ExprId>, Memory>
    ensures { (f : ℕ → Expression) → IfOk result (λ next. MatchOption next
        (drop at (in_turn (types_in (table_of_program (program_of typed.now)) names.now) (expressions_of (arguments_from f parts.now))) ≡ [])
        (λ i. drop at (in_turn (types_in (table_of_program (program_of typed.now)) names.now) (expressions_of (arguments_from f parts.now))) ≡ f i.0 ∷ drop (at + 1) (in_turn (types_in (table_of_program (program_of typed.now)) names.now) (expressions_of (arguments_from f parts.now))))) }
{
    types.clear();
    push_types(types, typed, names)?;
    Ok(part_in_turn(types, parts, at))
}

/// The part at a place among those of an expression that are evaluated first; of a tuple, what it is made of.
fn next_at<'a>(typed: &Typed, node: &'a Node, at: usize) -> Next<'a>
    ensures { (f : ℕ → Expression) → IsNext f (table_of_program (program_of typed.now)) (layer f (Some node.now)) at result }
{
    let found = match node {
        Node::Variable(_) => None,
        Node::Whole(_, _) => None,
        Node::Truth(_, _) => None,
        Node::Paren(_, _) => None,
        Node::Operation { left, right, .. } => part_of_two(*left, *right, at),
        Node::Call(_, parts) => part_of_all(parts, at),
        Node::Make(name, parts) => part_in_turn(field_types(typed, name.name), parts, at),
        Node::Let { bound, .. } => part_of_one(*bound, at),
        Node::LetPar { left, right, .. } => part_of_two(*left, *right, at),
        Node::If { condition, .. } => part_of_one(*condition, at),
        Node::Case { .. } => None,
        Node::Tuple { types, parts, .. } => return Next::Tuple(types, parts),
        Node::LetSeveral { bound, .. } => part_of_one(*bound, at),
        Node::ParSeveral { left, right, .. } => part_of_two(*left, *right, at),
    };
    Next::Part(found)
}

/// The part at a place among those of the expression of a number that are evaluated first; of a tuple, what it is made of.
pub fn next_part(typed: &Typed, id: ExprId, at: usize) -> Next<'_>
    ensures { IsNext (tree_of typed.now.exprs) (table_of_program (program_of typed.now)) (tree_of typed.now.exprs id.0) at result }
{
    let exprs = typed.program().exprs();
    if id.0 as usize >= exprs.len() {
        return Next::Part(None);
    }
    next_at(typed, exprs.node(id), at)
}

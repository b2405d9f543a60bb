//! The walk over one body.

ghost use Rattle.std.specs.Prelude.{◌≡◌, ℕ, ◌+◌, ◌<◌, ◌++◌, ◌∷◌, List, Option, [], map, length, IfOk};
ghost use Rattle.std.specs.Option.{option_or};
ghost use Rattle.gib_types.specs.declared.table.Ty.{Ty};
ghost use Rattle.gib_syntax.specs.{Tree.{Call, Make}, Arena.{Opens, tree_of, arguments_from, ArmsBelow, IsArmBelow}, Declarations.{type_of_name}};
ghost use Rattle.gib_syntax.specs.Typing.{names_of, types_of};
ghost use Rattle.gib_core.specs.Inferring.{Branched, infer, several, boxed, given, operation_atom, let_line, par_line, if_line, case_line, tuple_line, part_lines, several_line, sides_line, several_side, bound_side as of_names};
ghost use Rattle.gib_infer.specs.Made.{scope_of, globals_in, code_at, codes_at, arms_at, AreBelow, AreBindingsBelow, MakesLine, MakesAtom, MakesAtoms, MakesParts, MakesSide, MakesNamed, MakesBranch, BranchesSoFar};
ghost use Rattle.gib_infer.specs.declared.work.Work.{Work};

use crate::fields::{bind, bind_fields, packed_types};
use crate::names::{
    arm_of, constructor, constructors_of, fields_of, first_constructor, owner_of, result_of,
    scalar_of,
};
use crate::parts::{
    BoundNames, NamedSide, bound_types, enter, new_slots, one_slot, only_name, part_types,
    types_named,
};
use crate::steps::{
    Construction, bind_call, end_call, end_make, end_side, give, plain_line, variable_line,
};
use crate::work::{Work, find, kind, new_variable, push_bound};
use gib_base::Memory;
use gib_check::Typed;
use gib_core::{
    Atom, Binding, BoundParts, BoundSide, BoundTerm, Branch, Node as TermNode, TermId, Variable,
};
use gib_syntax::{Arm, Bound, ExprId, Ident, Node, TypeName};
use gib_types::{ConId, Operator, Ty, items_at};

/// The expression of a number.
fn node_at(typed: &Typed, id: ExprId) -> &Node
    requires { id.0 < length typed.now.exprs }
    ensures { Opens typed.now.exprs id.0 result.now }
{
    typed.program().exprs().node(id)
}

/// The expression in result place.
#[cycle(infer)]
pub fn line(typed: &Typed, work: &mut Work, id: ExprId) -> Result<(TermId, Ty), Memory>
    requires { id.0 < length typed.now.exprs }
    ensures { IfOk result (λ r. MakesLine work.old work.new r.0 r.1 ((code_at typed.now typed.now.exprs id.0).line (scope_of work.old.scope.items) work.old.fresh)) }
{
    match node_at(typed, id) {
        Node::Variable(x) => variable_line(work, x.name),
        Node::Whole(_, number) => plain_line(work, Atom::literal(*number), Ty::Whole),
        Node::Truth(_, truth) => plain_line(work, Atom::Truth(*truth), Ty::Truth),
        Node::Paren(_, inner) => line(typed, work, *inner),
        Node::Operation {
            operator,
            left,
            right,
            ..
        } => operation_line(typed, work, *operator, *left, *right),
        Node::Call(f, ids) => call_line(typed, work, id, *f, ids),
        Node::Make(k, ids) => make(typed, work, id, *k, ids),
        Node::Let {
            name,
            bound,
            body,
            ..
        } => let_in(typed, work, Bound::new(*name, *bound), *body),
        Node::LetPar {
            left_name,
            left,
            right_name,
            right,
            body,
            ..
        } => let_par(
            typed,
            work,
            Bound::new(*left_name, *left),
            Bound::new(*right_name, *right),
            *body,
        ),
        Node::If {
            condition,
            then_part,
            else_part,
            ..
        } => if_else(typed, work, *condition, *then_part, *else_part),
        Node::Case { variable, arms, .. } => case(typed, work, id, *variable, arms),
        Node::Tuple { types, parts, .. } => tuple(typed, work, id, types, parts),
        Node::LetSeveral {
            names,
            bound,
            body,
            ..
        } => {
            let bound = BoundNames {
                names,
                value: *bound,
            };
            let_several(typed, work, &bound, *body)
        }
        Node::ParSeveral {
            left_names,
            left,
            right_names,
            right,
            body,
            ..
        } => {
            let left = BoundNames {
                names: left_names,
                value: *left,
            };
            let right = BoundNames {
                names: right_names,
                value: *right,
            };
            par_several(typed, work, &left, &right, *body)
        }
    }
}

/// The expression as a side of a `let par`.
#[cycle(infer)]
fn side(typed: &Typed, work: &mut Work, id: ExprId) -> Result<(TermId, Ty), Memory>
    requires { id.0 < length typed.now.exprs }
    ensures { IfOk result (λ r. MakesLine work.old work.new r.0 r.1 ((code_at typed.now typed.now.exprs id.0).side (scope_of work.old.scope.items) work.old.fresh)) }
{
    match node_at(typed, id) {
        Node::Paren(_, inner) => side(typed, work, *inner),
        Node::Call(f, ids) => call_side(typed, work, id, *f, ids),
        Node::Variable(_) => line(typed, work, id),
        Node::Whole(_, _) => line(typed, work, id),
        Node::Truth(_, _) => line(typed, work, id),
        Node::Operation { .. } => line(typed, work, id),
        Node::Make(_, _) => line(typed, work, id),
        Node::Let { .. } => line(typed, work, id),
        Node::LetPar { .. } => line(typed, work, id),
        Node::If { .. } => line(typed, work, id),
        Node::Case { .. } => line(typed, work, id),
        Node::Tuple { .. } => line(typed, work, id),
        Node::LetSeveral { .. } => line(typed, work, id),
        Node::ParSeveral { .. } => line(typed, work, id),
    }
}

/// The expression as an argument, operand or condition.
#[cycle(infer)]
fn atom(
    typed: &Typed,
    work: &mut Work,
    bindings: &mut Vec<Binding>,
    id: ExprId,
) -> Result<(Atom, Ty), Memory>
    requires inside { id.0 < length typed.now.exprs }
    requires bindings { AreBindingsBelow (length work.old.terms) bindings.old.items }
    ensures { IfOk result (λ r. MakesAtom work.old work.new bindings.old.items bindings.new.items r.0 r.1 ((code_at typed.now typed.now.exprs id.0).atom (scope_of work.old.scope.items) work.old.fresh)) }
{
    match node_at(typed, id) {
        Node::Variable(x) => Ok(find(&work.scope, x.name)),
        Node::Whole(_, number) => Ok((Atom::literal(*number), Ty::Whole)),
        Node::Truth(_, truth) => Ok((Atom::Truth(*truth), Ty::Truth)),
        Node::Paren(_, inner) => atom(typed, work, bindings, *inner),
        Node::Operation {
            operator,
            left,
            right,
            ..
        } => operation(typed, work, bindings, *operator, *left, *right),
        Node::Call(f, ids) => call_atom(typed, work, bindings, id, *f, ids),
        Node::Make(_, _) => bound_line(typed, work, bindings, id),
        Node::Let { .. } => bound_line(typed, work, bindings, id),
        Node::LetPar { .. } => bound_line(typed, work, bindings, id),
        Node::If { .. } => bound_line(typed, work, bindings, id),
        Node::Case { .. } => bound_line(typed, work, bindings, id),
        Node::Tuple { .. } => bound_line(typed, work, bindings, id),
        Node::LetSeveral { .. } => bound_line(typed, work, bindings, id),
        Node::ParSeveral { .. } => bound_line(typed, work, bindings, id),
    }
}

/// The expression as the right side of a `let`.
#[cycle(infer)]
fn right_side(
    typed: &Typed,
    work: &mut Work,
    bindings: &mut Vec<Binding>,
    id: ExprId,
) -> Result<(Atom, Ty), Memory>
    requires inside { id.0 < length typed.now.exprs }
    requires bindings { AreBindingsBelow (length work.old.terms) bindings.old.items }
    ensures { IfOk result (λ r. MakesAtom work.old work.new bindings.old.items bindings.new.items r.0 r.1 ((code_at typed.now typed.now.exprs id.0).bound (scope_of work.old.scope.items) work.old.fresh)) }
{
    match node_at(typed, id) {
        Node::Variable(_) => bound_line(typed, work, bindings, id),
        Node::Whole(_, _) => bound_line(typed, work, bindings, id),
        Node::Truth(_, _) => bound_line(typed, work, bindings, id),
        Node::Paren(_, inner) => right_side(typed, work, bindings, *inner),
        Node::Operation { .. } => atom(typed, work, bindings, id),
        Node::Call(f, ids) => call_atom(typed, work, bindings, id, *f, ids),
        Node::Make(_, _) => atom(typed, work, bindings, id),
        Node::Let { .. } => atom(typed, work, bindings, id),
        Node::LetPar { .. } => atom(typed, work, bindings, id),
        Node::If { .. } => atom(typed, work, bindings, id),
        Node::Case { .. } => atom(typed, work, bindings, id),
        Node::Tuple { .. } => atom(typed, work, bindings, id),
        Node::LetSeveral { .. } => atom(typed, work, bindings, id),
        Node::ParSeveral { .. } => atom(typed, work, bindings, id),
    }
}

/// A line that is bound to a new variable.
#[cycle(infer)]
fn bound_line(
    typed: &Typed,
    work: &mut Work,
    bindings: &mut Vec<Binding>,
    id: ExprId,
) -> Result<(Atom, Ty), Memory>
    requires inside { id.0 < length typed.now.exprs }
    requires bindings { AreBindingsBelow (length work.old.terms) bindings.old.items }
    ensures { IfOk result (λ r. MakesAtom work.old work.new bindings.old.items bindings.new.items r.0 r.1 (boxed (code_at typed.now typed.now.exprs id.0).line (scope_of work.old.scope.items) work.old.fresh)) }
{
    let variable = new_variable(work)?;
    let (term, ty) = line(typed, work, id)?;
    push_bound(bindings, variable, ty, term)?;
    Ok((Atom::Variable(variable), ty))
}

/// An operation on two operands.
#[cycle(infer)]
fn operation(
    typed: &Typed,
    work: &mut Work,
    bindings: &mut Vec<Binding>,
    operator: Operator,
    left: ExprId,
    right: ExprId,
) -> Result<(Atom, Ty), Memory>
    requires left { left.0 < length typed.now.exprs }
    requires right { right.0 < length typed.now.exprs }
    requires bindings { AreBindingsBelow (length work.old.terms) bindings.old.items }
    ensures { IfOk result (λ r. MakesAtom work.old work.new bindings.old.items bindings.new.items r.0 r.1 (operation_atom operator (code_at typed.now typed.now.exprs left.0).atom (code_at typed.now typed.now.exprs right.0).atom (scope_of work.old.scope.items) work.old.fresh)) }
{
    let (left, _) = atom(typed, work, bindings, left)?;
    let (right, _) = atom(typed, work, bindings, right)?;
    let ty = operator.result();
    let variable = new_variable(work)?;
    bindings.push(Binding::Prim {
        variable,
        operator,
        left,
        right,
    })?;
    Ok((Atom::Variable(variable), ty))
}

/// An operation in result place.
#[cycle(infer)]
fn operation_line(
    typed: &Typed,
    work: &mut Work,
    operator: Operator,
    left: ExprId,
    right: ExprId,
) -> Result<(TermId, Ty), Memory>
    requires left { left.0 < length typed.now.exprs }
    requires right { right.0 < length typed.now.exprs }
    ensures { IfOk result (λ r. MakesLine work.old work.new r.0 r.1 (given (operation_atom operator (code_at typed.now typed.now.exprs left.0).atom (code_at typed.now typed.now.exprs right.0).atom) (scope_of work.old.scope.items) work.old.fresh)) }
{
    let mut bindings = Vec::new(work.alloc);
    let (atom, ty) = operation(typed, work, &mut bindings, operator, left, right)?;
    let term = give(work, bindings, atom, ty)?;
    Ok((term, ty))
}

/// Arguments, from left to right.
#[cycle(infer)]
fn arguments(
    typed: &Typed,
    work: &mut Work,
    bindings: &mut Vec<Binding>,
    id: ExprId,
    ids: &[ExprId],
) -> Result<Vec<Atom>, Memory>
    requires inside { id.0 < length typed.now.exprs }
    requires below { AreBelow id.0 ids.now }
    requires bindings { AreBindingsBelow (length work.old.terms) bindings.old.items }
    ensures { IfOk result (λ v. MakesAtoms work.old work.new bindings.old.items bindings.new.items v.items (several (codes_at typed.now typed.now.exprs ids.now) (scope_of work.old.scope.items) work.old.fresh)) }
{
    let mut atoms = Vec::new(work.alloc);
    let mut left = ids;
    'arguments: while let [argument, after @ ..] = left {
        let (argument, _) = atom(typed, work, bindings, *argument)?;
        atoms.push(argument)?;
        left = after;
    }
    Ok(atoms)
}

/// A call in result place.
#[cycle(infer)]
fn call_line(
    typed: &Typed,
    work: &mut Work,
    id: ExprId,
    f: Ident,
    ids: &[ExprId],
) -> Result<(TermId, Ty), Memory>
    requires inside { id.0 < length typed.now.exprs }
    requires below { AreBelow id.0 ids.now }
    ensures { IfOk result (λ r. MakesLine work.old work.new r.0 r.1 ((infer (globals_in typed.now) (Call f (arguments_from (tree_of typed.now.exprs) ids.now))).line (scope_of work.old.scope.items) work.old.fresh)) }
{
    let mut bindings = Vec::new(work.alloc);
    let atoms = arguments(typed, work, &mut bindings, id, ids)?;
    let given = result_of(typed, f);
    let term = end_call(work, bindings, f.name, atoms, given)?;
    Ok((term, given.unwrap_or(Ty::Whole)))
}

/// A call as a side.
#[cycle(infer)]
fn call_side(
    typed: &Typed,
    work: &mut Work,
    id: ExprId,
    f: Ident,
    ids: &[ExprId],
) -> Result<(TermId, Ty), Memory>
    requires inside { id.0 < length typed.now.exprs }
    requires below { AreBelow id.0 ids.now }
    ensures { IfOk result (λ r. MakesLine work.old work.new r.0 r.1 ((infer (globals_in typed.now) (Call f (arguments_from (tree_of typed.now.exprs) ids.now))).side (scope_of work.old.scope.items) work.old.fresh)) }
{
    let mut bindings = Vec::new(work.alloc);
    let atoms = arguments(typed, work, &mut bindings, id, ids)?;
    let given = result_of(typed, f);
    let term = end_side(work, bindings, f.name, atoms, given)?;
    Ok((term, given.unwrap_or(Ty::Whole)))
}

/// A call as an argument, operand, condition or right side of a `let`.
#[cycle(infer)]
fn call_atom(
    typed: &Typed,
    work: &mut Work,
    bindings: &mut Vec<Binding>,
    id: ExprId,
    f: Ident,
    ids: &[ExprId],
) -> Result<(Atom, Ty), Memory>
    requires inside { id.0 < length typed.now.exprs }
    requires below { AreBelow id.0 ids.now }
    requires bindings { AreBindingsBelow (length work.old.terms) bindings.old.items }
    ensures { IfOk result (λ r. MakesAtom work.old work.new bindings.old.items bindings.new.items r.0 r.1 ((infer (globals_in typed.now) (Call f (arguments_from (tree_of typed.now.exprs) ids.now))).atom (scope_of work.old.scope.items) work.old.fresh)) }
{
    match scalar_of(result_of(typed, f)) {
        Some(ty) => {
            let atoms = arguments(typed, work, bindings, id, ids)?;
            let atom = bind_call(work, bindings, f.name, atoms, ty)?;
            Ok((atom, ty))
        }
        None => {
            let variable = new_variable(work)?;
            let (term, ty) = call_line(typed, work, id, f, ids)?;
            push_bound(bindings, variable, ty, term)?;
            Ok((Atom::Variable(variable), ty))
        }
    }
}

/// A constructor with its arguments: scalar arguments first, then packed ones.
#[cycle(infer)]
fn make(
    typed: &Typed,
    work: &mut Work,
    id: ExprId,
    k: Ident,
    ids: &[ExprId],
) -> Result<(TermId, Ty), Memory>
    requires inside { id.0 < length typed.now.exprs }
    requires below { AreBelow id.0 ids.now }
    ensures { IfOk result (λ r. MakesLine work.old work.new r.0 r.1 ((infer (globals_in typed.now) (Make k (arguments_from (tree_of typed.now.exprs) ids.now))).line (scope_of work.old.scope.items) work.old.fresh)) }
{
    let constructor = constructor(typed, k);
    let types = fields_of(typed, constructor);
    let mut bindings = Vec::new(work.alloc);
    let scalars = items_at(work.alloc, true, types, ids)?;
    let scalars = arguments(typed, work, &mut bindings, id, &scalars)?;
    let packed = items_at(work.alloc, false, types, ids)?;
    let packed = arguments(typed, work, &mut bindings, id, &packed)?;
    let packed_types = packed_types(work.alloc, types)?;
    let ty = Ty::Tree(owner_of(typed, constructor));
    let made = Construction {
        ty,
        constructor,
        types: packed_types,
        scalars,
        packed,
    };
    let term = end_make(work, bindings, made)?;
    Ok((term, ty))
}

/// A `let` in result place.
#[cycle(infer)]
fn let_in(
    typed: &Typed,
    work: &mut Work,
    bound: Bound,
    body: ExprId,
) -> Result<(TermId, Ty), Memory>
    requires bound { bound.value.0 < length typed.now.exprs }
    requires body { body.0 < length typed.now.exprs }
    ensures { IfOk result (λ r. MakesLine work.old work.new r.0 r.1 (let_line bound.name (code_at typed.now typed.now.exprs bound.value.0).bound (code_at typed.now typed.now.exprs body.0).line (scope_of work.old.scope.items) work.old.fresh)) }
{
    let mut bindings = Vec::new(work.alloc);
    let (atom, ty) = right_side(typed, work, &mut bindings, bound.value)?;
    let outer = work.scope.len();
    bind(work, bound.name, atom, ty)?;
    let (rest, ty) = line(typed, work, body)?;
    work.scope.truncate(outer);
    let term = work.terms.put_before(bindings, rest)?;
    Ok((term, ty))
}

/// A `let par` in result place.
#[cycle(infer)]
fn let_par(
    typed: &Typed,
    work: &mut Work,
    left: Bound,
    right: Bound,
    body: ExprId,
) -> Result<(TermId, Ty), Memory>
    requires left { left.value.0 < length typed.now.exprs }
    requires right { right.value.0 < length typed.now.exprs }
    requires body { body.0 < length typed.now.exprs }
    ensures { IfOk result (λ r. MakesLine work.old work.new r.0 r.1 (par_line left.name
        (code_at typed.now typed.now.exprs left.value.0).side right.name (code_at typed.now typed.now.exprs right.value.0).side
        (code_at typed.now typed.now.exprs body.0).line (scope_of work.old.scope.items) work.old.fresh)) }
{
    let first = bound_side(typed, work, left.value)?;
    let second = bound_side(typed, work, right.value)?;
    let outer = work.scope.len();
    bind(work, left.name, Atom::Variable(first.variable), first.ty)?;
    bind(work, right.name, Atom::Variable(second.variable), second.ty)?;
    let (rest, ty) = line(typed, work, body)?;
    work.scope.truncate(outer);
    let sides = Binding::Par {
        fork: false,
        left: BoundSide::One(first),
        right: BoundSide::One(second),
    };
    let term = work.terms.put(TermNode::Then(sides, rest))?;
    Ok((term, ty))
}

/// A side of a `let par` with its variable.
#[cycle(infer)]
fn bound_side(typed: &Typed, work: &mut Work, id: ExprId) -> Result<BoundTerm, Memory>
    requires { id.0 < length typed.now.exprs }
    ensures { IfOk result (λ s. MakesSide work.old work.new s ((code_at typed.now typed.now.exprs id.0).side (scope_of work.old.scope.items) (work.old.fresh + 1))) }
{
    let variable = new_variable(work)?;
    let (term, ty) = side(typed, work, id)?;
    Ok(BoundTerm {
        kind: kind(ty),
        variable,
        ty,
        term,
    })
}

/// Several parts: the scalar ones are bound first, then each packed one is a line of its own.
#[cycle(infer)]
fn tuple(
    typed: &Typed,
    work: &mut Work,
    id: ExprId,
    types: &[TypeName],
    ids: &[ExprId],
) -> Result<(TermId, Ty), Memory>
    requires inside { id.0 < length typed.now.exprs }
    requires below { AreBelow id.0 ids.now }
    ensures { IfOk result (λ r. MakesLine work.old work.new r.0 r.1 (tuple_line (map (type_of_name (globals_in typed.now).table.types) types.now) (codes_at typed.now typed.now.exprs ids.now) (scope_of work.old.scope.items) work.old.fresh)) }
{
    let types = types_named(work.alloc, typed, types)?;
    let mut bindings = Vec::new(work.alloc);
    let scalars = items_at(work.alloc, true, &types, ids)?;
    let scalars = arguments(typed, work, &mut bindings, id, &scalars)?;
    let packed = items_at(work.alloc, false, &types, ids)?;
    let parts = part_terms(typed, work, id, &packed)?;
    let types = part_types(&types)?;
    let end = TermNode::Tuple {
        types,
        scalars,
        parts,
    };
    let term = work.terms.put_line(bindings, end)?;
    Ok((term, Ty::Whole))
}

/// Packed parts, from left to right.
#[cycle(infer)]
fn part_terms(
    typed: &Typed,
    work: &mut Work,
    id: ExprId,
    ids: &[ExprId],
) -> Result<Vec<TermId>, Memory>
    requires inside { id.0 < length typed.now.exprs }
    requires below { AreBelow id.0 ids.now }
    ensures { IfOk result (λ v. MakesParts work.old work.new v.items (part_lines (codes_at typed.now typed.now.exprs ids.now) (scope_of work.old.scope.items) work.old.fresh)) }
{
    let mut terms = Vec::new(work.alloc);
    let mut left = ids;
    'parts: while let [part, after @ ..] = left {
        let (term, _) = line(typed, work, *part)?;
        terms.push(term)?;
        left = after;
    }
    Ok(terms)
}

/// A `let` of several names in result place.
#[cycle(infer)]
fn let_several(
    typed: &Typed,
    work: &mut Work,
    bound: &BoundNames,
    body: ExprId,
) -> Result<(TermId, Ty), Memory>
    requires bound { bound.now.value.0 < length typed.now.exprs }
    requires body { body.0 < length typed.now.exprs }
    ensures { IfOk result (λ r. MakesLine work.old work.new r.0 r.1 (several_line (names_of bound.now.names.now) (types_of
        (globals_in typed.now).table.types bound.now.names.now) (code_at typed.now typed.now.exprs bound.now.value.0)
        (code_at typed.now typed.now.exprs body.0).line (scope_of work.old.scope.items) work.old.fresh)) }
{
    let bound = bound_names(typed, work, bound)?;
    let outer = work.scope.len();
    enter(work, &bound.slots)?;
    let (rest, ty) = line(typed, work, body)?;
    work.scope.truncate(outer);
    let binding = Binding::One(bound.side);
    let term = work.terms.put(TermNode::Then(binding, rest))?;
    Ok((term, ty))
}

/// A `let par` of which a side has several names, in result place.
#[cycle(infer)]
fn par_several(
    typed: &Typed,
    work: &mut Work,
    left: &BoundNames,
    right: &BoundNames,
    body: ExprId,
) -> Result<(TermId, Ty), Memory>
    requires left { left.now.value.0 < length typed.now.exprs }
    requires right { right.now.value.0 < length typed.now.exprs }
    requires body { body.0 < length typed.now.exprs }
    ensures { IfOk result (λ r. MakesLine work.old work.new r.0 r.1 (sides_line (names_of left.now.names.now) (types_of
        (globals_in typed.now).table.types left.now.names.now) (code_at typed.now typed.now.exprs left.now.value.0) (names_of right.now.names.now)
        (types_of (globals_in typed.now).table.types right.now.names.now) (code_at typed.now typed.now.exprs right.now.value.0)
        (code_at typed.now typed.now.exprs body.0).line (scope_of work.old.scope.items) work.old.fresh)) }
{
    let first = bound_names(typed, work, left)?;
    let second = bound_names(typed, work, right)?;
    let outer = work.scope.len();
    enter(work, &first.slots)?;
    enter(work, &second.slots)?;
    let (rest, ty) = line(typed, work, body)?;
    work.scope.truncate(outer);
    let sides = Binding::Par {
        fork: false,
        left: first.side,
        right: second.side,
    };
    let term = work.terms.put(TermNode::Then(sides, rest))?;
    Ok((term, ty))
}

/// What names are bound to: one name as a side of a `let par`.
#[cycle(infer)]
fn bound_names(typed: &Typed, work: &mut Work, bound: &BoundNames) -> Result<NamedSide, Memory>
    requires { bound.now.value.0 < length typed.now.exprs }
    ensures { IfOk result (λ s. MakesNamed work.old work.new s (of_names (names_of bound.now.names.now) (types_of (globals_in typed.now).table.types bound.now.names.now) (code_at typed.now typed.now.exprs bound.now.value.0) (scope_of work.old.scope.items) work.old.fresh)) }
{
    match only_name(bound.names) {
        Some(name) => {
            let side = bound_side(typed, work, bound.value)?;
            let slots = one_slot(work.alloc, name, side)?;
            Ok(NamedSide {
                side: BoundSide::One(side),
                slots,
            })
        }
        None => several_names(typed, work, bound),
    }
}

/// What names are bound to whose variables are the parts of an expression.
#[cycle(infer)]
fn several_names(typed: &Typed, work: &mut Work, bound: &BoundNames) -> Result<NamedSide, Memory>
    requires { bound.now.value.0 < length typed.now.exprs }
    ensures { IfOk result (λ s. MakesNamed work.old work.new s (several_side (names_of bound.now.names.now) (types_of (globals_in typed.now).table.types bound.now.names.now) (code_at typed.now typed.now.exprs bound.now.value.0).line (scope_of work.old.scope.items) work.old.fresh)) }
{
    let first = Variable(work.fresh);
    let slots = new_slots(typed, work, bound.names)?;
    let types = bound_types(work.alloc, typed, bound.names)?;
    let types = part_types(&types)?;
    let (term, _) = line(typed, work, bound.value)?;
    let side = BoundParts { first, types, term };
    Ok(NamedSide {
        side: BoundSide::Several(side),
        slots,
    })
}

/// An `if` in result place.
#[cycle(infer)]
fn if_else(
    typed: &Typed,
    work: &mut Work,
    condition: ExprId,
    then_part: ExprId,
    else_part: ExprId,
) -> Result<(TermId, Ty), Memory>
    requires condition { condition.0 < length typed.now.exprs }
    requires then_part { then_part.0 < length typed.now.exprs }
    requires else_part { else_part.0 < length typed.now.exprs }
    ensures { IfOk result (λ r. MakesLine work.old work.new r.0 r.1 (if_line (code_at typed.now typed.now.exprs condition.0).atom (code_at typed.now typed.now.exprs then_part.0).line (code_at typed.now typed.now.exprs else_part.0).line (scope_of work.old.scope.items) work.old.fresh)) }
{
    let mut bindings = Vec::new(work.alloc);
    let (condition, _) = atom(typed, work, &mut bindings, condition)?;
    let (then_part, ty) = line(typed, work, then_part)?;
    let (else_part, _) = line(typed, work, else_part)?;
    let end = TermNode::If {
        condition,
        then_part,
        else_part,
    };
    let term = work.terms.put_line(bindings, end)?;
    Ok((term, ty))
}

/// A `case` in result place: its branches stand in the declared order.
#[cycle(infer)]
fn case(
    typed: &Typed,
    work: &mut Work,
    id: ExprId,
    variable: Ident,
    arms: &[Arm],
) -> Result<(TermId, Ty), Memory>
    requires inside { id.0 < length typed.now.exprs }
    requires below { ArmsBelow arms.now id.0 }
    ensures { IfOk result (λ r. MakesLine work.old work.new r.0 r.1 (case_line (globals_in typed.now).table variable (arms_at typed.now typed.now.exprs arms.now) (scope_of work.old.scope.items) work.old.fresh)) }
{
    let (subject, _) = find(&work.scope, variable.name);
    let ty = owner_of(typed, first_constructor(typed, arms));
    let (mut next, mut left) = constructors_of(typed, ty);
    let mut branches = Vec::new(work.alloc);
    let mut ty = None;
    'constructors: while left > 0 {
        let constructor = ConId(next);
        let made = put_branch(typed, work, &mut branches, id, arms, constructor)?;
        ty = ty.or(made);
        next += 1;
        left -= 1;
    }
    let term = work.terms.put(TermNode::Case { subject, branches })?;
    Ok((term, ty.unwrap_or(Ty::Whole)))
}

/// The branch of a constructor, where it has an arm, behind others.
#[cycle(infer)]
fn put_branch(
    typed: &Typed,
    work: &mut Work,
    branches: &mut Vec<Branch>,
    id: ExprId,
    arms: &[Arm],
    constructor: ConId,
) -> Result<Option<Ty>, Memory>
    requires inside { id.0 < length typed.now.exprs }
    requires below { ArmsBelow arms.now id.0 }
    ensures { (start : Work) (of : Option Ty) (ks : List ℕ) (all : Branched)
        → BranchesSoFar typed.now typed.now.exprs arms.now start work.old branches.old.items of (constructor.0 ∷ ks) all → IfOk result
        (λ ty. BranchesSoFar typed.now typed.now.exprs arms.now start work.new branches.new.items (option_or of ty) ks all) }
{
    match arm_of(typed, arms, constructor) {
        None => Ok(None),
        Some(arm) => {
            let (branch, ty) = branch(typed, work, id, arm, constructor)?;
            branches.push(branch)?;
            Ok(Some(ty))
        }
    }
}

/// The branch of a constructor.
#[cycle(infer)]
fn branch(
    typed: &Typed,
    work: &mut Work,
    id: ExprId,
    arm: &Arm,
    constructor: ConId,
) -> Result<(Branch, Ty), Memory>
    requires inside { id.0 < length typed.now.exprs }
    requires below { IsArmBelow id.0 arm.now }
    ensures { IfOk result (λ r. MakesBranch work.old work.new r.0 r.1 typed.now typed.now.exprs arm.now constructor) }
{
    let outer = work.scope.len();
    let variables = bind_fields(work, &arm.variables, fields_of(typed, constructor))?;
    let (term, ty) = line(typed, work, arm.body)?;
    work.scope.truncate(outer);
    let branch = Branch {
        constructor,
        variables,
        term,
    };
    Ok((branch, ty))
}

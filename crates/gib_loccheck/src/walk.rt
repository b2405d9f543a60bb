//! The walk over the terms of one body, in the order of the text.

ghost use Rattle.std.specs.Prelude.{◌<◌, length, false, Some};
ghost use Rattle.std.specs.List.{AllByRecursion};
ghost use Rattle.gib_types.specs.Table.{tree_types};
ghost use Rattle.gib_core.specs.{PartTypes.{types_in}, Tree.{CaseTerm, IfTerm, Tuple as TupleTerm, One, Both}};
ghost use Rattle.gib_core.specs.Arena.{Opens, IsEnd, IsBindingBelow, IsBranchBelow, IsPartBelow, layer, term_in, term_of, side_from, bind_from, parts_from, branches_from};
ghost use Rattle.gib_core.specs.{Parts.{core_of}, Met.{met, met_bind, met_side, met_parts, met_branches, left_of, in_arm}};
ghost use Rattle.gib_loccheck.specs.{Views.{setting_of, at_line}, Judging.{Checks, ChecksBinding, part_lines}};

use crate::fault::LocFault;
use crate::index::indexed::IndexedCore;
use crate::lines::arm::open_arm;
use crate::lines::atom::{AtomLine, judge_atom};
use crate::lines::bound::{enter_side, open_side, tell_side};
use crate::lines::call::judge_call;
use crate::lines::case::judge_case;
use crate::lines::par::{add_others, enter_sides, judge_par};
use crate::lines::part::judge_part;
use crate::lines::past::open_head;
use crate::lines::prim::behind_operation;
use crate::lines::reach::reach_field;
use crate::lines::tuple::{Tuple, judge_tuple};
use crate::lines::write::{Head, judge_write};
use crate::lines::{begin_line, leave, leave_line};
use crate::state::Walk;
use crate::table::packed_at;
use crate::target::Target;
use gib_core::{Atom, Binding, BoundSide, Branch, Node, TermId};
use gib_types::Ty;

/// The term of a number.
fn node_at(core: &IndexedCore, id: TermId) -> &Node
    requires { id.0 < length core.now.terms }
    ensures { Opens core.now.terms id.0 result.now }
{
    core.terms().node(id)
}

/// Checks the lines of a term. This recurses as deep as terms are nested in bindings and branches, and not along a line.
#[cycle(lines)]
pub fn check_term(
    core: &IndexedCore,
    walk: &mut Walk,
    target: Target,
    id: TermId,
) -> Result<(), LocFault>
    requires { id.0 < length core.now.terms }
    ensures { Checks (core_of core.now) walk.old walk.new (met core.now.table (at_line (setting_of walk.old target)) (term_of core.now.terms id.0)) result }
{
    let outer = walk.scope.len();
    let calls = begin_line(walk);
    let mut inner = target;
    let mut rest = id;
    let mut node = node_at(core, id);
    'bindings: while let Node::Then(binding, after) = node {
        inner = check_binding(core, walk, &inner, rest, *binding)?;
        rest = *after;
        node = node_at(core, rest);
    }
    check_end(core, walk, &inner, rest, node)?;
    leave_line(walk, outer, calls)?;
    Ok(())
}

/// Checks the end of a line.
#[cycle(lines)]
fn check_end(
    core: &IndexedCore,
    walk: &mut Walk,
    target: &Target,
    id: TermId,
    node: &Node,
) -> Result<(), LocFault>
    requires inside { id.0 < length core.now.terms }
    requires node { Opens core.now.terms id.0 node.now }
    requires end { IsEnd (layer (term_of core.now.terms) (Some node.now)) }
    ensures { Checks (core_of core.now) walk.old walk.new (met core.now.table (setting_of walk.old target.now) (term_of core.now.terms id.0)) result }
{
    match node {
        Node::Then(_, _) => unreachable!(),
        Node::Write {
            head,
            constructor,
            scalars,
            packed,
        } => {
            let head = Head {
                variable: *head,
                constructor: *constructor,
                scalars,
                packed,
            };
            judge_write(core, walk, target, &head)
        }
        Node::Point(atom) => judge_atom(core, walk, target, AtomLine::Point, *atom),
        Node::Call(name, arguments) => judge_call(core, walk, target, *name, arguments),
        Node::Give(atom) => judge_atom(core, walk, target, AtomLine::Give, *atom),
        Node::Case { subject, branches } => {
            check_case(core, walk, target, id, *subject, branches)
        }
        Node::If {
            condition,
            then_part,
            else_part,
        } => check_if(core, walk, target, *condition, *then_part, *else_part),
        Node::Tuple {
            types,
            scalars,
            parts,
        } => {
            let tuple = Tuple {
                types: *types,
                scalars,
                parts,
            };
            check_tuple(core, walk, target, id, &tuple)
        }
    }
}

/// Checks a binding; what is due at its rest.
#[cycle(lines)]
fn check_binding(
    core: &IndexedCore,
    walk: &mut Walk,
    target: &Target,
    parent: TermId,
    binding: Binding,
) -> Result<Target, LocFault>
    requires inside { parent.0 < length core.now.terms }
    requires below { IsBindingBelow parent.0 binding }
    ensures { ChecksBinding (core_of core.now) walk.old walk.new (setting_of walk.old target.now) (bind_from (term_of core.now.terms) binding) result }
{
    match binding {
        Binding::Past { head, constructor } => { open_head(core, walk, target, head, constructor) }
        Binding::One(side) => bind_side(core, walk, target, parent, side),
        Binding::Par { left, right, .. } => { bind_sides(core, walk, target, parent, left, right) }
        Binding::Prim {
            variable,
            operator,
            left,
            right,
        } => behind_operation(walk, target, variable, operator, left, right),
        Binding::Reach { field, access } => reach_field(core, walk, target, field, access),
    }
}

/// Checks what is bound to a term: its line, and the term's.
#[cycle(lines)]
fn check_side(
    core: &IndexedCore,
    walk: &mut Walk,
    target: &Target,
    parent: TermId,
    side: BoundSide,
) -> Result<(), LocFault>
    requires inside { parent.0 < length core.now.terms }
    requires below { (term_in side).0 < parent.0 }
    ensures { Checks (core_of core.now) walk.old walk.new (met_side core.now.table (setting_of walk.old target.now) (side_from (term_of core.now.terms) side)) result }
{
    let inner = open_side(core, walk, target, side)?;
    check_term(core, walk, inner, side.term())
}

/// Checks what is bound to a term and comes into scope; what is due behind it.
#[cycle(lines)]
fn bind_side(
    core: &IndexedCore,
    walk: &mut Walk,
    target: &Target,
    parent: TermId,
    side: BoundSide,
) -> Result<Target, LocFault>
    requires inside { parent.0 < length core.now.terms }
    requires below { (term_in side).0 < parent.0 }
    ensures { ChecksBinding (core_of core.now) walk.old walk.new (setting_of walk.old target.now) (One (side_from (term_of core.now.terms) side)) result }
{
    check_side(core, walk, target, parent, side)?;
    let next = enter_side(walk, target, side)?;
    tell_side(core, walk, side)?;
    Ok(next)
}

/// Checks a side of a par, beside the other one.
#[cycle(lines)]
fn check_beside(
    core: &IndexedCore,
    walk: &mut Walk,
    target: &Target,
    parent: TermId,
    side: BoundSide,
    other: BoundSide,
) -> Result<(), LocFault>
    requires inside { parent.0 < length core.now.terms }
    requires below { (term_in side).0 < parent.0 }
    ensures { Checks (core_of core.now) walk.old walk.new (met_side core.now.table (left_of (setting_of walk.old target.now) (side_from (term_of core.now.terms) other)) (side_from (term_of core.now.terms) side)) result }
{
    let outer = walk.others.len();
    add_others(walk, other)?;
    check_side(core, walk, target, parent, side)?;
    walk.others.truncate(outer);
    Ok(())
}

/// Checks the lines of two sides. Whether they may run at the same time changes no rule.
#[cycle(lines)]
fn check_sides(
    core: &IndexedCore,
    walk: &mut Walk,
    target: &Target,
    parent: TermId,
    left: BoundSide,
    right: BoundSide,
) -> Result<(), LocFault>
    requires inside { parent.0 < length core.now.terms }
    requires left { (term_in left).0 < parent.0 }
    requires right { (term_in right).0 < parent.0 }
    ensures { Checks (core_of core.now) walk.old walk.new (met_bind core.now.table (setting_of walk.old target.now) (Both false (side_from (term_of core.now.terms) left) (side_from (term_of core.now.terms) right))) result }
{
    judge_par(walk)?;
    check_beside(core, walk, target, parent, left, right)?;
    let next = target.behind_side(left)?;
    check_beside(core, walk, &next, parent, right, left)
}

/// Checks two sides, whose variables come into scope; what is due behind them.
#[cycle(lines)]
fn bind_sides(
    core: &IndexedCore,
    walk: &mut Walk,
    target: &Target,
    parent: TermId,
    left: BoundSide,
    right: BoundSide,
) -> Result<Target, LocFault>
    requires inside { parent.0 < length core.now.terms }
    requires left { (term_in left).0 < parent.0 }
    requires right { (term_in right).0 < parent.0 }
    ensures { ChecksBinding (core_of core.now) walk.old walk.new (setting_of walk.old target.now) (Both false (side_from (term_of core.now.terms) left) (side_from (term_of core.now.terms) right)) result }
{
    check_sides(core, walk, target, parent, left, right)?;
    let next = enter_sides(walk, target, left, right)?;
    Ok(next)
}

/// Checks a tuple: its line, and its parts.
#[cycle(lines)]
fn check_tuple(
    core: &IndexedCore,
    walk: &mut Walk,
    target: &Target,
    parent: TermId,
    tuple: &Tuple<'_>,
) -> Result<(), LocFault>
    requires inside { parent.0 < length core.now.terms }
    requires below { AllByRecursion (IsPartBelow parent.0) tuple.now.parts.now }
    ensures { Checks (core_of core.now) walk.old walk.new (met core.now.table (setting_of walk.old target.now) (TupleTerm (types_in tuple.now.types) tuple.now.scalars.now (parts_from (term_of core.now.terms) tuple.now.parts.now))) result }
{
    judge_tuple(core, walk, target, tuple)?;
    check_parts(core, walk, target, parent, tuple)
}

/// Checks the packed parts of a tuple, one after another.
#[cycle(lines)]
fn check_parts(
    core: &IndexedCore,
    walk: &mut Walk,
    target: &Target,
    parent: TermId,
    tuple: &Tuple<'_>,
) -> Result<(), LocFault>
    requires inside { parent.0 < length core.now.terms }
    requires below { AllByRecursion (IsPartBelow parent.0) tuple.now.parts.now }
    ensures { Checks (core_of core.now) walk.old walk.new (met_parts core.now.table (setting_of walk.old target.now) (tree_types (types_in tuple.now.types)) (parts_from (term_of core.now.terms) tuple.now.parts.now)) result }
{
    let listed = tuple.types.unpacked();
    let types = listed.as_slice();
    let mut place = 0;
    let mut left = tuple.parts;
    'parts: while let [part, after @ ..] = left {
        let ty = packed_at(types, place);
        check_part(core, walk, target, *part, ty)?;
        place += 1;
        left = after;
    }
    Ok(())
}

/// Checks a packed part of this type: its line, and its term.
#[cycle(lines)]
fn check_part(
    core: &IndexedCore,
    walk: &mut Walk,
    target: &Target,
    part: TermId,
    ty: Ty,
) -> Result<(), LocFault>
    requires { part.0 < length core.now.terms }
    ensures { Checks (core_of core.now) walk.old walk.new (part_lines core.now.table (setting_of walk.old target.now) ty (term_of core.now.terms part.0)) result }
{
    judge_part(walk)?;
    check_term(core, walk, Target::of_part(ty), part)
}

/// Checks a case: its subject, and its branches.
#[cycle(lines)]
fn check_case(
    core: &IndexedCore,
    walk: &mut Walk,
    target: &Target,
    parent: TermId,
    atom: Atom,
    branches: &[Branch],
) -> Result<(), LocFault>
    requires inside { parent.0 < length core.now.terms }
    requires below { AllByRecursion (IsBranchBelow parent.0) branches.now }
    ensures { Checks (core_of core.now) walk.old walk.new (met core.now.table (setting_of walk.old target.now) (CaseTerm atom (branches_from (term_of core.now.terms) branches.now))) result }
{
    judge_case(core, walk, target, atom, branches)?;
    check_branches(core, walk, target, parent, branches)
}

/// Checks the branches of a case, one after another.
#[cycle(lines)]
fn check_branches(
    core: &IndexedCore,
    walk: &mut Walk,
    target: &Target,
    parent: TermId,
    branches: &[Branch],
) -> Result<(), LocFault>
    requires inside { parent.0 < length core.now.terms }
    requires below { AllByRecursion (IsBranchBelow parent.0) branches.now }
    ensures { Checks (core_of core.now) walk.old walk.new (met_branches core.now.table (setting_of walk.old target.now) (branches_from (term_of core.now.terms) branches.now)) result }
{
    let mut left = branches;
    'branches: while let [branch, after @ ..] = left {
        check_branch(core, walk, target, parent, branch)?;
        left = after;
    }
    Ok(())
}

/// Checks a branch, whose fields are in scope in it.
#[cycle(lines)]
fn check_branch(
    core: &IndexedCore,
    walk: &mut Walk,
    target: &Target,
    parent: TermId,
    branch: &Branch,
) -> Result<(), LocFault>
    requires inside { parent.0 < length core.now.terms }
    requires below { branch.now.term.0 < parent.0 }
    ensures { Checks (core_of core.now) walk.old walk.new (met core.now.table (in_arm core.now.table (setting_of walk.old target.now) branch.now.constructor branch.now.variables.items) (term_of core.now.terms branch.now.term.0)) result }
{
    let outer = walk.scope.len();
    let inner = open_arm(core, walk, target, branch)?;
    check_term(core, walk, inner, branch.term)?;
    leave(walk, outer)?;
    Ok(())
}

/// Checks an `if`: its condition, and its branches.
#[cycle(lines)]
fn check_if(
    core: &IndexedCore,
    walk: &mut Walk,
    target: &Target,
    atom: Atom,
    then_part: TermId,
    else_part: TermId,
) -> Result<(), LocFault>
    requires first { then_part.0 < length core.now.terms }
    requires second { else_part.0 < length core.now.terms }
    ensures { Checks (core_of core.now) walk.old walk.new (met core.now.table (setting_of walk.old target.now) (IfTerm atom (term_of core.now.terms then_part.0) (term_of core.now.terms else_part.0))) result }
{
    judge_atom(core, walk, target, AtomLine::Condition, atom)?;
    let first = target.without_call()?;
    check_term(core, walk, first, then_part)?;
    let second = target.without_call()?;
    check_term(core, walk, second, else_part)
}

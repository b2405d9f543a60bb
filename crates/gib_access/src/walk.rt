//! The walk that reaches the fields of all arms.
//!
//! It goes from the last part of a term to the first: an arm is listed when its term is done, in front of what
//! was listed before, and so constructors stand in the order of the text.

ghost use Rattle.std.specs.Prelude.{◌≡◌, ◌<◌, [], length, map, IfOk};
ghost use Rattle.std.specs.List.{AllByRecursion};
ghost use Rattle.gib_core.specs.Arena.{IsBindingBelow, IsBranchBelow, IsPartBelow, IsEnd, IsLine, term_in, term_of, side_from, bind_from, binds_from, branches_from, parts_from};
ghost use Rattle.gib_core.specs.{PartTypes.{types_in}, Tree.{CaseTerm, IfTerm, Tuple}};
ghost use Rattle.gib_access.specs.{Planned.{ArePlanned, later_of}, Sources.{way_of}};
ghost use Rattle.gib_access.specs.Made.{ReachesTerm, ReachesBinding, ReachesSide, ReachesParts, ReachesBranches, ReachesBranch};

use crate::fields::{list_constructor, packed_variables, put_ends, put_reaches};
use crate::planning::{Line, Planned, plan_line};
use crate::source::{Source, in_par};
use crate::stamps::{enter, mark_atom, mark_atoms};
use crate::work::{Work, put_call, put_give, put_point, put_write};
use gib_base::Memory;
use gib_core::{Atom, Binding, BoundParts, BoundSide, BoundTerm, Branch, Node, PartTypes, TermId};

/// A term with the fields of all its arms reached. This recurses as deep as terms are nested in bindings and
/// branches, and not along a line.
#[cycle(reach)]
pub fn reach_term(source: &Source, work: &mut Work, id: TermId) -> Result<TermId, Memory>
    requires { id.0 < length source.now.terms.now }
    ensures { IfOk result (λ made. ReachesTerm (way_of source.now) [] work.old work.new made (term_of source.now.terms.now id.0)) }
{
    let (bindings, last) = source.terms.line(source.alloc, id)?;
    let line = Line {
        id,
        bindings: &bindings,
        last,
    };
    reach_line(source, work, &line, &[])
}

/// A line, in which some fields are reached by ends too.
#[cycle(reach)]
fn reach_line(
    source: &Source,
    work: &mut Work,
    line: &Line,
    ends: &[Planned],
) -> Result<TermId, Memory>
    requires inside { line.now.id.0 < length source.now.terms.now }
    requires line { IsLine source.now.terms.now line.now.id.0 line.now.bindings.now line.now.last.0 }
    requires planned { ArePlanned (binds_from (term_of source.now.terms.now) line.now.bindings.now) (term_of source.now.terms.now line.now.last.0) ends.now }
    ensures { IfOk result (λ made. ReachesTerm (way_of source.now) (map later_of ends.now) work.old work.new made (term_of source.now.terms.now line.now.id.0)) }
{
    let mut i = line.bindings.len();
    let end = reach_end(source, work, line.last)?;
    let mut made = put_ends(&mut work.terms, ends, i, end)?;
    'bindings: while i > 0 {
        i -= 1;
        let binding = reach_binding(source, work, line.id, line.bindings[i])?;
        let put = work.terms.put(Node::Then(binding, made))?;
        made = put_ends(&mut work.terms, ends, i, put)?;
    }
    Ok(made)
}

/// The end of a line.
#[cycle(reach)]
fn reach_end(source: &Source, work: &mut Work, id: TermId) -> Result<TermId, Memory>
    requires inside { id.0 < length source.now.terms.now }
    requires end { IsEnd (term_of source.now.terms.now id.0) }
    ensures { IfOk result (λ made. ReachesTerm (way_of source.now) [] work.old work.new made (term_of source.now.terms.now id.0)) }
{
    match source.terms.node(id) {
        Node::Then(_, _) => unreachable!(),
        Node::Write {
            head,
            constructor,
            scalars,
            packed,
        } => put_write(source.alloc, work, *head, *constructor, scalars, packed),
        Node::Point(atom) => put_point(work, *atom),
        Node::Call(name, arguments) => put_call(source.alloc, work, *name, arguments),
        Node::Give(atom) => put_give(work, *atom),
        Node::Case { subject, branches } => { reach_case(source, work, id, *subject, branches) }
        Node::If {
            condition,
            then_part,
            else_part,
        } => reach_if(source, work, id, *condition, *then_part, *else_part),
        Node::Tuple {
            types,
            scalars,
            parts,
        } => reach_tuple(source, work, id, *types, scalars, parts),
    }
}

/// A binding of the term of a number, whose terms stand below it.
#[cycle(reach)]
fn reach_binding(
    source: &Source,
    work: &mut Work,
    parent: TermId,
    binding: Binding,
) -> Result<Binding, Memory>
    requires inside { parent.0 < length source.now.terms.now }
    requires below { IsBindingBelow parent.0 binding }
    ensures { IfOk result (λ made. ReachesBinding (way_of source.now) work.old work.new made (bind_from (term_of source.now.terms.now) binding)) }
{
    match binding {
        Binding::Past { .. } => Ok(binding),
        Binding::One(side) => {
            let side = reach_side(source, work, side)?;
            Ok(Binding::One(side))
        }
        Binding::Par { fork, left, right } => {
            let inside = Source {
                mode: in_par(source.mode),
                ..*source
            };
            let right = reach_side(&inside, work, right)?;
            let left = reach_side(&inside, work, left)?;
            Ok(Binding::Par { fork, left, right })
        }
        Binding::Prim { left, right, .. } => {
            mark_atom(&mut work.stamps, right)?;
            mark_atom(&mut work.stamps, left)?;
            Ok(binding)
        }
        Binding::Reach { .. } => Ok(binding),
    }
}

/// What is bound to a term.
#[cycle(reach)]
fn reach_side(source: &Source, work: &mut Work, side: BoundSide) -> Result<BoundSide, Memory>
    requires { (term_in side).0 < length source.now.terms.now }
    ensures { IfOk result (λ made. ReachesSide (way_of source.now) work.old work.new made (side_from (term_of source.now.terms.now) side)) }
{
    let term = reach_term(source, work, side.term())?;
    match side {
        BoundSide::One(side) => Ok(BoundSide::One(BoundTerm { term, ..side })),
        BoundSide::Several(side) => Ok(BoundSide::Several(BoundParts { term, ..side })),
    }
}

/// The `if` of a number, whose parts stand below it.
#[cycle(reach)]
fn reach_if(
    source: &Source,
    work: &mut Work,
    parent: TermId,
    condition: Atom,
    then_part: TermId,
    else_part: TermId,
) -> Result<TermId, Memory>
    requires inside { parent.0 < length source.now.terms.now }
    requires then_part { then_part.0 < parent.0 }
    requires else_part { else_part.0 < parent.0 }
    ensures { IfOk result (λ made. ReachesTerm (way_of source.now) [] work.old work.new made (IfTerm condition (term_of source.now.terms.now then_part.0) (term_of source.now.terms.now else_part.0))) }
{
    let else_part = reach_term(source, work, else_part)?;
    let then_part = reach_term(source, work, then_part)?;
    mark_atom(&mut work.stamps, condition)?;
    let made = work.terms.put(Node::If {
        condition,
        then_part,
        else_part,
    })?;
    Ok(made)
}

/// The tuple of a number, whose parts stand below it.
#[cycle(reach)]
fn reach_tuple(
    source: &Source,
    work: &mut Work,
    parent: TermId,
    types: PartTypes,
    scalars: &[Atom],
    parts: &[TermId],
) -> Result<TermId, Memory>
    requires inside { parent.0 < length source.now.terms.now }
    requires below { AllByRecursion (IsPartBelow parent.0) parts.now }
    ensures { IfOk result (λ made. ReachesTerm (way_of source.now) [] work.old work.new made (Tuple (types_in types) scalars.now (parts_from (term_of source.now.terms.now) parts.now))) }
{
    let parts = reach_parts(source, work, parent, parts)?;
    mark_atoms(&mut work.stamps, scalars)?;
    let scalars = Vec::from_slice(source.alloc, scalars)?;
    let made = work.terms.put(Node::Tuple {
        types,
        scalars,
        parts,
    })?;
    Ok(made)
}

/// The parts of the tuple of a number.
#[cycle(reach)]
fn reach_parts(
    source: &Source,
    work: &mut Work,
    parent: TermId,
    parts: &[TermId],
) -> Result<Vec<TermId>, Memory>
    requires inside { parent.0 < length source.now.terms.now }
    requires below { AllByRecursion (IsPartBelow parent.0) parts.now }
    ensures { IfOk result (λ made. ReachesParts (way_of source.now) work.old work.new made.items (parts_from (term_of source.now.terms.now) parts.now)) }
{
    let mut reversed = Vec::new(source.alloc);
    let mut i = parts.len();
    'parts: while i > 0 {
        i -= 1;
        let part = reach_term(source, work, parts[i])?;
        reversed.push(part)?;
    }
    reversed.reverse();
    Ok(reversed)
}

/// The case of a number, whose branches' terms stand below it.
#[cycle(reach)]
fn reach_case(
    source: &Source,
    work: &mut Work,
    parent: TermId,
    subject: Atom,
    branches: &[Branch],
) -> Result<TermId, Memory>
    requires inside { parent.0 < length source.now.terms.now }
    requires below { AllByRecursion (IsBranchBelow parent.0) branches.now }
    ensures { IfOk result (λ made. ReachesTerm (way_of source.now) [] work.old work.new made (CaseTerm subject (branches_from (term_of source.now.terms.now) branches.now))) }
{
    let branches = reach_branches(source, work, parent, branches)?;
    mark_atom(&mut work.stamps, subject)?;
    let made = work.terms.put(Node::Case { subject, branches })?;
    Ok(made)
}

/// The branches of the case of a number.
#[cycle(reach)]
fn reach_branches(
    source: &Source,
    work: &mut Work,
    parent: TermId,
    branches: &[Branch],
) -> Result<Vec<Branch>, Memory>
    requires inside { parent.0 < length source.now.terms.now }
    requires below { AllByRecursion (IsBranchBelow parent.0) branches.now }
    ensures { IfOk result (λ made. ReachesBranches (way_of source.now) work.old work.new made.items (branches_from (term_of source.now.terms.now) branches.now)) }
{
    let mut reversed = Vec::new(source.alloc);
    let mut i = branches.len();
    'branches: while i > 0 {
        i -= 1;
        let branch = reach_branch(source, work, &branches[i])?;
        reversed.push(branch)?;
    }
    reversed.reverse();
    Ok(reversed)
}

/// A branch: its fields are reached where its term uses them.
#[cycle(reach)]
fn reach_branch(source: &Source, work: &mut Work, branch: &Branch) -> Result<Branch, Memory>
    requires { branch.now.term.0 < length source.now.terms.now }
    ensures { IfOk result (λ made. ReachesBranch (way_of source.now) work.old work.new made branch.now (term_of source.now.terms.now branch.now.term.0)) }
{
    let start = enter(&mut work.stamps)?;
    let (bindings, last) = source.terms.line(source.alloc, branch.term)?;
    let line = Line {
        id: branch.term,
        bindings: &bindings,
        last,
    };
    let packed = packed_variables(
        source.alloc,
        source.types,
        branch.constructor,
        &branch.variables,
    )?;
    let plan = plan_line(source, &line, &packed)?;
    let body = reach_line(source, work, &line, &plan.ends)?;
    list_constructor(
        &mut work.offsets,
        &work.stamps,
        start,
        branch.constructor,
        &plan.others,
    )?;
    let term = put_reaches(source.mode, work, start, &packed, &plan.others, body)?;
    let variables = Vec::from_slice(source.alloc, &branch.variables)?;
    Ok(Branch {
        constructor: branch.constructor,
        variables,
        term,
    })
}

//! The walk that places the fields of all lines of a term. The lines that are nested in a line come first.

ghost use Rattle.std.specs.Prelude.{◌≡◌, ◌<◌, map, length, Some, IfOk};
ghost use Rattle.std.specs.List.{AllByRecursion};
ghost use Rattle.gib_core.specs.Arena.{IsBindingBelow, IsBranchBelow, IsPartBelow, PartsBelow, IsEnd, term_in, term_of, side_from, bind_from, binds_from, parts_from, branches_from, layer};
ghost use Rattle.gib_core.specs.Tree.{prepend};
ghost use Rattle.gib_place.specs.{Placing.{place, place_line, place_inner, inner_bind, inner_side, inner_parts, inner_branches}, Filled.{once_by, IsBranching}};
ghost use Rattle.gib_place.specs.Made.{MakesTerm, MakesBinding, MakesBindings, MakesSide, MakesEnd, MakesParts, MakesBranch, MakesBranches};

use crate::filling::{fill, put_other_line};
use crate::line::Head;
use crate::placing::{Placing, Scratch};
use gib_base::Memory;
use gib_core::{Binding, BoundParts, BoundSide, BoundTerm, Branch, Node, TermId};

/// A term with the fields of all its lines placed. This recurses as deep as terms are nested in bindings, parts and
/// branches, and not along a line.
#[cycle(place)]
pub fn place_term(placing: &Placing, scratch: &mut Scratch, id: TermId) -> Result<TermId, Memory>
    requires { id.0 < length placing.now.terms.now }
    ensures { IfOk result (λ made. MakesTerm scratch.old.terms scratch.new.terms made (place (once_by placing.now.once.now) (term_of placing.now.terms.now id.0))) }
{
    let (bindings, last) = placing.terms.line(placing.alloc, id)?;
    let bindings = place_bindings(placing, scratch, id, &bindings)?;
    place_end(placing, scratch, bindings, last)
}

/// The bindings of the line of a number, whose terms stand below it.
#[cycle(place)]
fn place_bindings(
    placing: &Placing,
    scratch: &mut Scratch,
    parent: TermId,
    bindings: &[Binding],
) -> Result<Vec<Binding>, Memory>
    requires inside { parent.0 < length placing.now.terms.now }
    requires below { AllByRecursion (IsBindingBelow parent.0) bindings.now }
    ensures { IfOk result (λ made. MakesBindings scratch.old.terms scratch.new.terms made.items (map (inner_bind (once_by placing.now.once.now)) (binds_from (term_of placing.now.terms.now) bindings.now))) }
{
    let mut placed = Vec::new(placing.alloc);
    let mut i = 0;
    'bindings: while i < bindings.len() {
        let binding = place_binding(placing, scratch, parent, bindings[i])?;
        placed.push(binding)?;
        i += 1;
    }
    Ok(placed)
}

/// A binding of the line of a number.
#[cycle(place)]
fn place_binding(
    placing: &Placing,
    scratch: &mut Scratch,
    parent: TermId,
    binding: Binding,
) -> Result<Binding, Memory>
    requires inside { parent.0 < length placing.now.terms.now }
    requires below { IsBindingBelow parent.0 binding }
    ensures { IfOk result (λ made. MakesBinding scratch.old.terms scratch.new.terms made (inner_bind (once_by placing.now.once.now) (bind_from (term_of placing.now.terms.now) binding))) }
{
    match binding {
        Binding::Past { .. } => Ok(binding),
        Binding::One(side) => {
            let side = place_side(placing, scratch, side)?;
            Ok(Binding::One(side))
        }
        Binding::Par { fork, left, right } => {
            let left = place_side(placing, scratch, left)?;
            let right = place_side(placing, scratch, right)?;
            Ok(Binding::Par { fork, left, right })
        }
        Binding::Prim { .. } => Ok(binding),
        Binding::Reach { .. } => Ok(binding),
    }
}

/// What is bound to a term.
#[cycle(place)]
fn place_side(
    placing: &Placing,
    scratch: &mut Scratch,
    side: BoundSide,
) -> Result<BoundSide, Memory>
    requires { (term_in side).0 < length placing.now.terms.now }
    ensures { IfOk result (λ made. MakesSide scratch.old.terms scratch.new.terms made (inner_side (once_by placing.now.once.now) (side_from (term_of placing.now.terms.now) side))) }
{
    let term = place_term(placing, scratch, side.term())?;
    match side {
        BoundSide::One(side) => Ok(BoundSide::One(BoundTerm { term, ..side })),
        BoundSide::Several(side) => Ok(BoundSide::Several(BoundParts { term, ..side })),
    }
}

/// The end of a line, with its bindings in front, whose nested lines are placed.
#[cycle(place)]
fn place_end(
    placing: &Placing,
    scratch: &mut Scratch,
    bindings: Vec<Binding>,
    id: TermId,
) -> Result<TermId, Memory>
    requires inside { id.0 < length placing.now.terms.now }
    requires end { IsEnd (term_of placing.now.terms.now id.0) }
    requires below { AllByRecursion (IsBindingBelow (length scratch.old.terms)) bindings.items }
    ensures { IfOk result (λ made. MakesTerm scratch.old.terms scratch.new.terms made (place_line (once_by placing.now.once.now) (prepend (binds_from (term_of scratch.old.terms) bindings.items) (place_inner (once_by placing.now.once.now) (term_of placing.now.terms.now id.0))))) }
{
    let node = placing.terms.node(id);
    match node {
        Node::Then(_, _) => unreachable!(),
        Node::Write {
            head,
            constructor,
            scalars,
            packed,
        } => {
            let head = Head::copied(placing.alloc, *head, *constructor, scalars, packed)?;
            fill(placing, scratch, bindings, head)
        }
        Node::Point(atom) => put_other_line(scratch, bindings, Node::Point(*atom)),
        Node::Call(name, arguments) => {
            let arguments = Vec::from_slice(placing.alloc, arguments)?;
            put_other_line(scratch, bindings, Node::Call(*name, arguments))
        }
        Node::Give(atom) => put_other_line(scratch, bindings, Node::Give(*atom)),
        Node::Case { .. } | Node::If { .. } | Node::Tuple { .. } => {
            let end = place_branching(placing, scratch, id, node)?;
            put_other_line(scratch, bindings, end)
        }
    }
}

/// The node of a number, which goes on in other terms.
#[cycle(place)]
fn place_branching(
    placing: &Placing,
    scratch: &mut Scratch,
    parent: TermId,
    node: &Node,
) -> Result<Node, Memory>
    requires inside { parent.0 < length placing.now.terms.now }
    requires below { PartsBelow node.now parent.0 }
    requires branching { IsBranching node.now }
    ensures { IfOk result (λ made. MakesEnd scratch.old.terms scratch.new.terms made (place_inner (once_by placing.now.once.now) (layer (term_of placing.now.terms.now) (Some node.now)))) }
{
    match node {
        Node::Case { subject, branches } => {
            let branches = place_branches(placing, scratch, parent, branches)?;
            let subject = *subject;
            Ok(Node::Case { subject, branches })
        }
        Node::If {
            condition,
            then_part,
            else_part,
        } => {
            let then_part = place_term(placing, scratch, *then_part)?;
            let else_part = place_term(placing, scratch, *else_part)?;
            Ok(Node::If {
                condition: *condition,
                then_part,
                else_part,
            })
        }
        Node::Tuple {
            types,
            scalars,
            parts,
        } => {
            let scalars = Vec::from_slice(placing.alloc, scalars)?;
            let parts = place_parts(placing, scratch, parent, parts)?;
            Ok(Node::Tuple {
                types: *types,
                scalars,
                parts,
            })
        }
        _ => unreachable!(),
    }
}

/// The parts of the tuple of a number, from the last one to the first.
#[cycle(place)]
fn place_parts(
    placing: &Placing,
    scratch: &mut Scratch,
    parent: TermId,
    parts: &[TermId],
) -> Result<Vec<TermId>, Memory>
    requires inside { parent.0 < length placing.now.terms.now }
    requires below { AllByRecursion (IsPartBelow parent.0) parts.now }
    ensures { IfOk result (λ made. MakesParts scratch.old.terms scratch.new.terms made.items (inner_parts (once_by placing.now.once.now) (parts_from (term_of placing.now.terms.now) parts.now))) }
{
    let mut reversed = Vec::new(placing.alloc);
    let mut i = parts.len();
    'parts: while i > 0 {
        i -= 1;
        let part = place_term(placing, scratch, parts[i])?;
        reversed.push(part)?;
    }
    reversed.reverse();
    Ok(reversed)
}

/// The branches of the case of a number.
#[cycle(place)]
fn place_branches(
    placing: &Placing,
    scratch: &mut Scratch,
    parent: TermId,
    branches: &[Branch],
) -> Result<Vec<Branch>, Memory>
    requires inside { parent.0 < length placing.now.terms.now }
    requires below { AllByRecursion (IsBranchBelow parent.0) branches.now }
    ensures { IfOk result (λ made. MakesBranches scratch.old.terms scratch.new.terms made.items (inner_branches (once_by placing.now.once.now) (branches_from (term_of placing.now.terms.now) branches.now))) }
{
    let mut reversed = Vec::new(placing.alloc);
    let mut i = branches.len();
    'branches: while i > 0 {
        i -= 1;
        let branch = place_branch(placing, scratch, &branches[i])?;
        reversed.push(branch)?;
    }
    reversed.reverse();
    Ok(reversed)
}

/// A branch.
#[cycle(place)]
fn place_branch(placing: &Placing, scratch: &mut Scratch, branch: &Branch) -> Result<Branch, Memory>
    requires { branch.now.term.0 < length placing.now.terms.now }
    ensures { IfOk result (λ made. MakesBranch scratch.old.terms scratch.new.terms made branch.now (place (once_by placing.now.once.now) (term_of placing.now.terms.now branch.now.term.0))) }
{
    let term = place_term(placing, scratch, branch.term)?;
    let variables = Vec::from_slice(placing.alloc, &branch.variables)?;
    Ok(Branch {
        constructor: branch.constructor,
        variables,
        term,
    })
}

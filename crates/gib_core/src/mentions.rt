//! What bodies say of variables, in the order of the text.

ghost use Rattle.std.specs.Prelude.{◌≡◌, ◌<◌, ◌++◌, [], length, IfOk, OnOk};
ghost use Rattle.std.specs.List.{AllByRecursion};
ghost use Rattle.gib_core.specs.Arena.{IsBindingBelow, IsBranchBelow, IsPartBelow, IsEnd, term_in, term_of, side_from, bind_from, parts_from, branches_from};
ghost use Rattle.gib_core.specs.{Tree.{variables_from}, PartTypes.{types_in}, Numbering.{binders}, declared.atom.Variable.{Variable as X}, Counting.{count}};
ghost use Rattle.gib_core.specs.Mentioned.{all_bound, all_used, mentions as said, binder, binders_in, uses_in, says};
ghost use Rattle.gib_core.specs.Walk.{walk_bind, walk_side, walk_parts, walk_branches};

use crate::atom::{Atom, Variable};
use crate::node::{Binding, BoundSide, Branch, Node, TermId, Terms};
use crate::part_types::PartTypes;
use gib_base::Memory;
use std::alloc::{AllocError, Global};

/// A variable that is bound, or an atom that is used.
#[derive(Clone, Copy)]
pub enum Mention {
    Bound(Variable),
    Used(Atom),
}

/// Variables that are bound.
fn list_variables(mentions: &mut Vec<Mention>, variables: &[Variable]) -> Result<(), Memory>
    ensures { OnOk result (mentions.new.items ≡ mentions.old.items ++ all_bound variables.now) }
{
    let mut i = 0;
    'variables: while i < variables.len() {
        mentions.push(Mention::Bound(variables[i]))?;
        i += 1;
    }
    Ok(())
}

/// A variable that is bound for each of these types, one behind another.
#[tactic(auto, using(crate::proofs::Listed::variables_start, crate::proofs::Listed::variables_next, crate::proofs::Listed::variables_end))]
fn list_variables_from(
    mentions: &mut Vec<Mention>,
    first: Variable,
    types: PartTypes,
) -> Result<(), Memory>
    ensures { OnOk result (mentions.new.items ≡ mentions.old.items ++ all_bound (variables_from first.0 (types_in types))) }
{
    let mut i = 0;
    'variables: while i < types.len() {
        let number = u64::from(first.0) + i as u64;
        let Ok(number) = u32::try_from(number) else {
            return Err(AllocError);
        };
        mentions.push(Mention::Bound(Variable(number)))?;
        i += 1;
    }
    Ok(())
}

/// Atoms that are used.
fn list_atoms(mentions: &mut Vec<Mention>, atoms: &[Atom]) -> Result<(), Memory>
    ensures { OnOk result (mentions.new.items ≡ mentions.old.items ++ all_used atoms.now) }
{
    let mut i = 0;
    'atoms: while i < atoms.len() {
        mentions.push(Mention::Used(atoms[i]))?;
        i += 1;
    }
    Ok(())
}

/// A term. This recurses as deep as terms are nested in bindings, branches and parts, and not along a line.
#[cycle(list)]
fn list_term(
    alloc: Global,
    mentions: &mut Vec<Mention>,
    terms: &Terms,
    id: TermId,
) -> Result<(), Memory>
    requires { id.0 < length terms.now }
    ensures { OnOk result (mentions.new.items ≡ mentions.old.items ++ said (term_of terms.now id.0)) }
{
    let (bindings, last) = terms.line(alloc, id)?;
    let mut i = 0;
    'bindings: while i < bindings.len() {
        list_binding(alloc, mentions, terms, id, bindings[i])?;
        i += 1;
    }
    list_end(alloc, mentions, terms, last)
}

/// The end of a line.
#[cycle(list)]
fn list_end(
    alloc: Global,
    mentions: &mut Vec<Mention>,
    terms: &Terms,
    id: TermId,
) -> Result<(), Memory>
    requires inside { id.0 < length terms.now }
    requires end { IsEnd (term_of terms.now id.0) }
    ensures { OnOk result (mentions.new.items ≡ mentions.old.items ++ said (term_of terms.now id.0)) }
{
    match terms.node(id) {
        Node::Then(_, _) => unreachable!(),
        Node::Write {
            head: _,
            constructor: _,
            scalars,
            packed,
        } => {
            list_atoms(mentions, scalars)?;
            list_atoms(mentions, packed)
        }
        Node::Point(atom) => {
            mentions.push(Mention::Used(*atom))?;
            Ok(())
        }
        Node::Call(_, arguments) => list_atoms(mentions, arguments),
        Node::Give(atom) => {
            mentions.push(Mention::Used(*atom))?;
            Ok(())
        }
        Node::Case { subject, branches } => {
            mentions.push(Mention::Used(*subject))?;
            list_branches(alloc, mentions, terms, id, branches)
        }
        Node::If {
            condition,
            then_part,
            else_part,
        } => {
            mentions.push(Mention::Used(*condition))?;
            list_term(alloc, mentions, terms, *then_part)?;
            list_term(alloc, mentions, terms, *else_part)
        }
        Node::Tuple { scalars, parts, .. } => {
            list_atoms(mentions, scalars)?;
            list_parts(alloc, mentions, terms, id, parts)
        }
    }
}

/// A binding of the term of a number, whose terms stand below it.
#[cycle(list)]
fn list_binding(
    alloc: Global,
    mentions: &mut Vec<Mention>,
    terms: &Terms,
    parent: TermId,
    binding: Binding,
) -> Result<(), Memory>
    requires inside { parent.0 < length terms.now }
    requires below { IsBindingBelow parent.0 binding }
    ensures { OnOk result (mentions.new.items ≡ mentions.old.items ++ walk_bind (◌++◌) [] says (bind_from (term_of terms.now) binding)) }
{
    match binding {
        Binding::Past { head, .. } => {
            mentions.push(Mention::Bound(head))?;
            Ok(())
        }
        Binding::One(side) => list_side(alloc, mentions, terms, side),
        Binding::Par { left, right, .. } => {
            list_side(alloc, mentions, terms, left)?;
            list_side(alloc, mentions, terms, right)
        }
        Binding::Prim {
            variable,
            left,
            right,
            ..
        } => {
            mentions.push(Mention::Bound(variable))?;
            mentions.push(Mention::Used(left))?;
            mentions.push(Mention::Used(right))?;
            Ok(())
        }
        Binding::Reach { .. } => Ok(()),
    }
}

/// A side.
#[cycle(list)]
fn list_side(
    alloc: Global,
    mentions: &mut Vec<Mention>,
    terms: &Terms,
    side: BoundSide,
) -> Result<(), Memory>
    requires { (term_in side).0 < length terms.now }
    ensures { OnOk result (mentions.new.items ≡ mentions.old.items ++ walk_side (◌++◌) [] says (side_from (term_of terms.now) side)) }
{
    match side {
        BoundSide::One(bound) => {
            mentions.push(Mention::Bound(bound.variable))?;
            list_term(alloc, mentions, terms, bound.term)
        }
        BoundSide::Several(bound) => {
            list_variables_from(mentions, bound.first, bound.types)?;
            list_term(alloc, mentions, terms, bound.term)
        }
    }
}

/// The parts of the tuple of a number.
#[cycle(list)]
fn list_parts(
    alloc: Global,
    mentions: &mut Vec<Mention>,
    terms: &Terms,
    parent: TermId,
    parts: &[TermId],
) -> Result<(), Memory>
    requires inside { parent.0 < length terms.now }
    requires below { AllByRecursion (IsPartBelow parent.0) parts.now }
    ensures { OnOk result (mentions.new.items ≡ mentions.old.items ++ walk_parts (◌++◌) [] says (parts_from (term_of terms.now) parts.now)) }
{
    let mut i = 0;
    'parts: while i < parts.len() {
        list_term(alloc, mentions, terms, parts[i])?;
        i += 1;
    }
    Ok(())
}

/// The branches of the case of a number.
#[cycle(list)]
fn list_branches(
    alloc: Global,
    mentions: &mut Vec<Mention>,
    terms: &Terms,
    parent: TermId,
    branches: &[Branch],
) -> Result<(), Memory>
    requires inside { parent.0 < length terms.now }
    requires below { AllByRecursion (IsBranchBelow parent.0) branches.now }
    ensures { OnOk result (mentions.new.items ≡ mentions.old.items ++ walk_branches (◌++◌) [] says (branches_from (term_of terms.now) branches.now)) }
{
    let mut i = 0;
    'branches: while i < branches.len() {
        list_branch(alloc, mentions, terms, &branches[i])?;
        i += 1;
    }
    Ok(())
}

/// A branch.
#[cycle(list)]
fn list_branch(
    alloc: Global,
    mentions: &mut Vec<Mention>,
    terms: &Terms,
    branch: &Branch,
) -> Result<(), Memory>
    requires { branch.now.term.0 < length terms.now }
    ensures { OnOk result (mentions.new.items ≡ mentions.old.items ++ (all_bound branch.now.variables.items ++ said (term_of terms.now branch.now.term.0))) }
{
    list_variables(mentions, &branch.variables)?;
    list_term(alloc, mentions, terms, branch.term)
}

/// What a body says of its variables, in the order of the text.
///
/// # Errors
///
/// Want of memory.
pub fn mentions_of(alloc: Global, terms: &Terms, id: TermId) -> Result<Vec<Mention>, Memory>
    requires { id.0 < length terms.now }
    ensures binders { IfOk result (λ mentions. binders_in mentions.items ≡ binders (term_of terms.now id.0)) }
    ensures uses { IfOk result (λ mentions. (x : X) → uses_in mentions.items x ≡ count (term_of terms.now id.0) x) }
{
    let mut mentions = Vec::new(alloc);
    list_term(alloc, &mut mentions, terms, id)?;
    Ok(mentions)
}

/// The number of a variable that is bound, behind others.
fn push_bound(order: &mut Vec<u32>, mention: Mention) -> Result<(), Memory>
    ensures { OnOk result (order.new.items ≡ order.old.items ++ binder mention) }
{
    match mention {
        Mention::Bound(x) => {
            order.push(x.0)?;
            Ok(())
        }
        Mention::Used(_) => Ok(()),
    }
}

/// The numbers of the variables that are bound, behind others.
fn push_all_bound(order: &mut Vec<u32>, mentions: &[Mention]) -> Result<(), Memory>
    ensures { OnOk result (order.new.items ≡ order.old.items ++ binders_in mentions.now) }
{
    let mut i = 0;
    'mentions: while i < mentions.len() {
        push_bound(order, mentions[i])?;
        i += 1;
    }
    Ok(())
}

/// The numbers of the variables that a body binds, in the order of the text, behind others.
///
/// # Errors
///
/// Want of memory.
pub fn push_binders(
    alloc: Global,
    order: &mut Vec<u32>,
    terms: &Terms,
    id: TermId,
) -> Result<(), Memory>
    requires { id.0 < length terms.now }
    ensures { OnOk result (order.new.items ≡ order.old.items ++ binders (term_of terms.now id.0)) }
{
    let mentions = mentions_of(alloc, terms, id)?;
    push_all_bound(order, &mentions)
}

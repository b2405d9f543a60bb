//! Which ends are known at the end of a term.

ghost use Rattle.std.specs.Prelude.{◌≡◌, ◌<◌, length, MatchOption, None, Some};
ghost use Rattle.std.specs.List.{AllByRecursion};
ghost use Rattle.gib_core.specs.Arena.{IsBindingBelow, IsBranchBelow, IsEnd, term_of, bind_from, branches_from};
ghost use Rattle.gib_types.specs.Table.{fields_at};
ghost use Rattle.gib_core.specs.Ending.{tells as term_tells, is_telling as telling, last_packed as last, if_some, is_known as known, all_known as all_of, lasts_known as lasts};

use crate::atom::Variable;
use crate::ended::{EndedSet, is_variable};
use crate::node::{Binding, BoundSide, Branch, Node, TermId, Terms};
use gib_types::{Ty, TypeTable};

/// Whether a whole term is a call that tells the end of a variable.
pub fn tells(terms: &Terms, ended: &EndedSet, id: TermId, z: Variable) -> bool
    requires { id.0 < length terms.now }
    ensures { result ≡ term_tells ended.now (term_of terms.now id.0) z }
{
    match terms.node(id) {
        Node::Then(_, _) => false,
        Node::Write { .. } => false,
        Node::Point(_) => false,
        Node::Call(function, arguments) => ended.has_among(*function, arguments, z),
        Node::Give(_) => false,
        Node::Case { .. } => false,
        Node::If { .. } => false,
        Node::Tuple { .. } => false,
    }
}

/// Whether a binding of the term of a number tells the end of a variable.
pub fn is_telling(
    terms: &Terms,
    ended: &EndedSet,
    parent: TermId,
    binding: Binding,
    z: Variable,
) -> bool
    requires inside { parent.0 < length terms.now }
    requires below { IsBindingBelow parent.0 binding }
    ensures { result ≡ telling ended.now (bind_from (term_of terms.now) binding) z }
{
    match binding {
        Binding::Past { .. } => false,
        Binding::One(BoundSide::One(side)) => tells(terms, ended, side.term, z),
        Binding::One(BoundSide::Several(_)) => false,
        Binding::Par { .. } => false,
        Binding::Prim { .. } => false,
        Binding::Reach { .. } => false,
    }
}

/// The last packed one of an arm's variables.
#[tactic(auto, using(crate::proofs::LastPacked::last_scalar, crate::proofs::LastPacked::last_tree, crate::proofs::LastPacked::last_short))]
pub fn last_packed(fields: &[Ty], variables: &[Variable]) -> Option<Variable>
    ensures { MatchOption result (last None fields.now variables.now ≡ None) (λ y. last None fields.now variables.now ≡ Some y) }
{
    let mut found = None;
    let mut i = 0;
    'fields: while i < fields.len() && i < variables.len() {
        if !fields[i].is_scalar() {
            found = Some(variables[i]);
        }
        i += 1;
    }
    found
}

/// Whether the end of a variable is known at the end of a term. This recurses as deep as branches are nested.
#[cycle(known)]
pub fn is_known(types: &TypeTable, terms: &Terms, ended: &EndedSet, id: TermId, z: Variable) -> bool
    requires { id.0 < length terms.now }
    ensures { result ≡ known types.now ended.now (term_of terms.now id.0) z }
{
    let mut last = id;
    let mut node = terms.node(id);
    'line: while let Node::Then(binding, rest) = node {
        if is_telling(terms, ended, last, *binding, z) {
            return true;
        }
        last = *rest;
        node = terms.node(last);
    }
    end_known(types, terms, ended, last, z)
}

/// The end of a line.
#[cycle(known)]
fn end_known(types: &TypeTable, terms: &Terms, ended: &EndedSet, id: TermId, z: Variable) -> bool
    requires inside { id.0 < length terms.now }
    requires end { IsEnd (term_of terms.now id.0) }
    ensures { result ≡ known types.now ended.now (term_of terms.now id.0) z }
{
    match terms.node(id) {
        Node::Then(_, _) => unreachable!(),
        Node::Write { .. } => false,
        Node::Point(_) => false,
        Node::Call(function, arguments) => ended.has_among(*function, arguments, z),
        Node::Give(_) => false,
        Node::Case { subject, branches } => {
            all_known(types, terms, ended, id, branches, z)
                || (is_variable(z, *subject) && lasts_known(types, terms, ended, id, branches))
        }
        Node::If {
            then_part,
            else_part,
            ..
        } => {
            is_known(types, terms, ended, *then_part, z)
                && is_known(types, terms, ended, *else_part, z)
        }
        Node::Tuple { .. } => false,
    }
}

/// Whether it is in each branch of the case of a number.
#[cycle(known)]
fn all_known(
    types: &TypeTable,
    terms: &Terms,
    ended: &EndedSet,
    parent: TermId,
    branches: &[Branch],
    z: Variable,
) -> bool
    requires inside { parent.0 < length terms.now }
    requires below { AllByRecursion (IsBranchBelow parent.0) branches.now }
    ensures { result ≡ all_of types.now ended.now (branches_from (term_of terms.now) branches.now) z }
{
    let mut i = 0;
    'branches: while i < branches.len() {
        if !is_known(types, terms, ended, branches[i].term, z) {
            return false;
        }
        i += 1;
    }
    true
}

/// Whether in each branch of the case of a number the end of its last packed field is known, where it has one.
#[cycle(known)]
fn lasts_known(
    types: &TypeTable,
    terms: &Terms,
    ended: &EndedSet,
    parent: TermId,
    branches: &[Branch],
) -> bool
    requires inside { parent.0 < length terms.now }
    requires below { AllByRecursion (IsBranchBelow parent.0) branches.now }
    ensures { result ≡ lasts types.now ended.now (branches_from (term_of terms.now) branches.now) }
{
    let mut i = 0;
    'branches: while i < branches.len() {
        if !last_known(types, terms, ended, parent, &branches[i]) {
            return false;
        }
        i += 1;
    }
    true
}

/// Whether the end of a branch's last packed field is known, where it has one.
#[cycle(known)]
fn last_known(
    types: &TypeTable,
    terms: &Terms,
    ended: &EndedSet,
    parent: TermId,
    branch: &Branch,
) -> bool
    requires inside { parent.0 < length terms.now }
    requires below { IsBranchBelow parent.0 branch.now }
    ensures { result ≡ if_some (last None (fields_at types.now branch.now.constructor.0) branch.now.variables.items) (λ y. known types.now ended.now (term_of terms.now branch.now.term.0) y) }
{
    match last_packed(types.fields(branch.constructor), &branch.variables) {
        None => true,
        Some(y) => is_known(types, terms, ended, branch.term, y),
    }
}

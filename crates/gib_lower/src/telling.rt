//! Whether a function tells ends: whether a term has a call that gives the end of some variable, outside the sides of each `par`.

ghost use Rattle.std.specs.Prelude.{◌≡◌, ◌<◌, length, IfOk};
ghost use Rattle.std.specs.List.{AllByRecursion};
ghost use Rattle.gib_core.specs.Arena.{IsBindingBelow, IsBranchBelow, IsPartBelow, IsEnd, term_of, bind_from, branches_from, parts_from};
ghost use Rattle.gib_core.specs.Ending.{call_ends_some, has_telling as telling, bind_telling, branches_telling, parts_telling};

use gib_base::{Memory, Name};
use gib_core::{Atom, Binding, Branch, EndedSet, Node, TermId, Terms};
use std::alloc::Global;

/// Whether a call has some variable at an ended parameter.
fn call_tells(ended: &EndedSet, function: Name, arguments: &[Atom]) -> bool
    ensures { result ≡ call_ends_some ended.now function.0 0 arguments.now }
{
    let mut i = 0;
    'arguments: while i < arguments.len() {
        match arguments[i] {
            Atom::Variable(_) => {
                if ended.has(function, i) {
                    return true;
                }
            }
            Atom::Whole(_) => {}
            Atom::Truth(_) => {}
        }
        i += 1;
    }
    false
}

/// Whether a term has such a call. This recurses as deep as terms are nested in bindings and branches, and not along a line.
#[cycle(telling)]
pub(crate) fn has_telling(
    alloc: Global,
    terms: &Terms,
    ended: &EndedSet,
    id: TermId,
) -> Result<bool, Memory>
    requires { id.0 < length terms.now }
    ensures { IfOk result (λ tells. tells ≡ telling ended.now (term_of terms.now id.0)) }
{
    let (bindings, last) = terms.line(alloc, id)?;
    let mut tells = end_tells(alloc, terms, ended, last)?;
    let mut i = bindings.len();
    'bindings: while i > 0 {
        i -= 1;
        if binding_tells(alloc, terms, ended, id, bindings[i])? {
            tells = true;
        }
    }
    Ok(tells)
}

/// Whether a binding of the term of a number has.
#[cycle(telling)]
fn binding_tells(
    alloc: Global,
    terms: &Terms,
    ended: &EndedSet,
    parent: TermId,
    binding: Binding,
) -> Result<bool, Memory>
    requires inside { parent.0 < length terms.now }
    requires below { IsBindingBelow parent.0 binding }
    ensures { IfOk result (λ tells. tells ≡ bind_telling ended.now (bind_from (term_of terms.now) binding)) }
{
    match binding {
        Binding::Past { .. } => Ok(false),
        Binding::One(side) => has_telling(alloc, terms, ended, side.term()),
        Binding::Par { .. } => Ok(false),
        Binding::Prim { .. } => Ok(false),
        Binding::Reach { .. } => Ok(false),
    }
}

/// Whether the end of a line has.
#[cycle(telling)]
fn end_tells(alloc: Global, terms: &Terms, ended: &EndedSet, id: TermId) -> Result<bool, Memory>
    requires inside { id.0 < length terms.now }
    requires end { IsEnd (term_of terms.now id.0) }
    ensures { IfOk result (λ tells. tells ≡ telling ended.now (term_of terms.now id.0)) }
{
    match terms.node(id) {
        Node::Then(_, _) => unreachable!(),
        Node::Write { .. } => Ok(false),
        Node::Point(_) => Ok(false),
        Node::Call(function, arguments) => Ok(call_tells(ended, *function, arguments)),
        Node::Give(_) => Ok(false),
        Node::Case { branches, .. } => branches_tell(alloc, terms, ended, id, branches),
        Node::If {
            then_part,
            else_part,
            ..
        } => {
            if has_telling(alloc, terms, ended, *then_part)? {
                return Ok(true);
            }
            has_telling(alloc, terms, ended, *else_part)
        }
        Node::Tuple { parts, .. } => parts_tell(alloc, terms, ended, id, parts),
    }
}

/// Whether a part of the tuple of a number has.
#[cycle(telling)]
fn parts_tell(
    alloc: Global,
    terms: &Terms,
    ended: &EndedSet,
    parent: TermId,
    parts: &[TermId],
) -> Result<bool, Memory>
    requires inside { parent.0 < length terms.now }
    requires below { AllByRecursion (IsPartBelow parent.0) parts.now }
    ensures { IfOk result (λ tells. tells ≡ parts_telling ended.now (parts_from (term_of terms.now) parts.now)) }
{
    let mut i = 0;
    'parts: while i < parts.len() {
        if has_telling(alloc, terms, ended, parts[i])? {
            return Ok(true);
        }
        i += 1;
    }
    Ok(false)
}

/// Whether a branch of the case of a number has.
#[cycle(telling)]
fn branches_tell(
    alloc: Global,
    terms: &Terms,
    ended: &EndedSet,
    parent: TermId,
    branches: &[Branch],
) -> Result<bool, Memory>
    requires inside { parent.0 < length terms.now }
    requires below { AllByRecursion (IsBranchBelow parent.0) branches.now }
    ensures { IfOk result (λ tells. tells ≡ branches_telling ended.now (branches_from (term_of terms.now) branches.now)) }
{
    let mut i = 0;
    'branches: while i < branches.len() {
        if has_telling(alloc, terms, ended, branches[i].term)? {
            return Ok(true);
        }
        i += 1;
    }
    Ok(false)
}

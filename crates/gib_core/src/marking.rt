//! Marks of the pars whose sides may run at the same time.

ghost use Rattle.std.specs.Prelude.{◌≡◌, ◌<◌, ℕ, length};
ghost use Rattle.std.specs.List.{AllByRecursion};
ghost use Rattle.gib_core.specs.Arena.{IsBindingBelow, IsBranchBelow, IsPartBelow, IsEnd, term_of, term_in, side_from, bind_from, parts_from, branches_from};
ghost use Rattle.gib_core.specs.Marking.{has_call, side_has_call, bind_has_call, parts_have_call, branches_have_call, bind_may_fork, may_fork, mark};

use crate::node::{Binding, BoundSide, Branch, Node, TermId, Terms};

/// Whether a term contains a call. This recurses as deep as terms are nested in bindings and branches, and not along a
/// line.
#[cycle(calls)]
fn has_call(terms: &Terms, id: TermId) -> bool
    requires { id.0 < length terms.now }
    ensures { result ≡ has_call (term_of terms.now id.0) }
{
    let mut last = id;
    let mut node = terms.node(id);
    'line: while let Node::Then(binding, rest) = node {
        if binding_has_call(terms, last, *binding) {
            return true;
        }
        last = *rest;
        node = terms.node(last);
    }
    end_has_call(terms, last)
}

/// The end of a line.
#[cycle(calls)]
fn end_has_call(terms: &Terms, id: TermId) -> bool
    requires inside { id.0 < length terms.now }
    requires end { IsEnd (term_of terms.now id.0) }
    ensures { result ≡ has_call (term_of terms.now id.0) }
{
    match terms.node(id) {
        Node::Then(_, _) => unreachable!(),
        Node::Write { .. } => false,
        Node::Point(_) => false,
        Node::Call(_, _) => true,
        Node::Give(_) => false,
        Node::Case { branches, .. } => branches_have_call(terms, id, branches),
        Node::If {
            then_part,
            else_part,
            ..
        } => has_call(terms, *then_part) || has_call(terms, *else_part),
        Node::Tuple { parts, .. } => parts_have_call(terms, id, parts),
    }
}

/// A side, whose term stands below a number.
#[cycle(calls)]
fn side_has_call(terms: &Terms, side: BoundSide) -> bool
    requires { (term_in side).0 < length terms.now }
    ensures { result ≡ side_has_call (side_from (term_of terms.now) side) }
{
    match side {
        BoundSide::One(bound) => has_call(terms, bound.term),
        BoundSide::Several(bound) => has_call(terms, bound.term),
    }
}

/// A binding of the term of a number, whose terms stand below it.
#[cycle(calls)]
fn binding_has_call(terms: &Terms, parent: TermId, binding: Binding) -> bool
    requires inside { parent.0 < length terms.now }
    requires below { IsBindingBelow parent.0 binding }
    ensures { result ≡ bind_has_call (bind_from (term_of terms.now) binding) }
{
    match binding {
        Binding::Past { .. } => false,
        Binding::One(side) => side_has_call(terms, side),
        Binding::Par { left, right, .. } => {
            side_has_call(terms, left) || side_has_call(terms, right)
        }
        Binding::Prim { .. } => false,
        Binding::Reach { .. } => false,
    }
}

/// The branches of the case of a number, whose terms stand below it.
#[cycle(calls)]
fn branches_have_call(terms: &Terms, parent: TermId, branches: &[Branch]) -> bool
    requires inside { parent.0 < length terms.now }
    requires below { AllByRecursion (IsBranchBelow parent.0) branches.now }
    ensures { result ≡ branches_have_call (branches_from (term_of terms.now) branches.now) }
{
    let mut i = 0;
    'branches: while i < branches.len() {
        if has_call(terms, branches[i].term) {
            return true;
        }
        i += 1;
    }
    false
}

/// The parts of the tuple of a number, which stand below it.
#[cycle(calls)]
fn parts_have_call(terms: &Terms, parent: TermId, parts: &[TermId]) -> bool
    requires inside { parent.0 < length terms.now }
    requires below { AllByRecursion (IsPartBelow parent.0) parts.now }
    ensures { result ≡ parts_have_call (parts_from (term_of terms.now) parts.now) }
{
    let mut i = 0;
    'parts: while i < parts.len() {
        if has_call(terms, parts[i]) {
            return true;
        }
        i += 1;
    }
    false
}

/// Whether a binding of the term of a number is a par that is to be marked.
fn binding_may_fork(terms: &Terms, parent: usize, binding: Binding) -> bool
    requires inside { parent < length terms.now }
    requires below { IsBindingBelow parent binding }
    ensures { result ≡ bind_may_fork (bind_from (term_of terms.now) binding) }
{
    match binding {
        Binding::Past { .. } => false,
        Binding::One(_) => false,
        Binding::Par { left, right, .. } => {
            side_has_call(terms, left) && side_has_call(terms, right)
        }
        Binding::Prim { .. } => false,
        Binding::Reach { .. } => false,
    }
}

/// Whether the term at a place begins with a par that is to be marked.
fn may_fork(terms: &Terms, place: usize) -> bool
    requires { place < length terms.now }
    ensures { result ≡ may_fork (term_of terms.now place) }
{
    match terms.node_at(place) {
        Node::Then(binding, _) => binding_may_fork(terms, place, *binding),
        Node::Write { .. } => false,
        Node::Point(_) => false,
        Node::Call(_, _) => false,
        Node::Give(_) => false,
        Node::Case { .. } => false,
        Node::If { .. } => false,
        Node::Tuple { .. } => false,
    }
}

impl Terms {
    /// Marks each par exactly where both its sides contain a call. This takes no memory.
    pub fn mark_pars(&mut self)
        ensures marked { (id : ℕ) → id < length self.old → term_of self.new id ≡ mark (term_of self.old id) }
        ensures long { length self.new ≡ length self.old }
    {
        self.rules();
        let mut place = 0;
        'terms: while place < self.len() {
            let fork = may_fork(self, place);
            self.set_fork(place, fork);
            place += 1;
        }
    }
}

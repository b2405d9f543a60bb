//! What stands before a term.

ghost use Rattle.std.specs.Prelude.{◌≡◌, reverse};
ghost use Rattle.gib_core.specs.Rules.{is_among, is_usable as usable, is_other as other, one_tells, type_of as type_in_atom, has_type as typed};
ghost use Rattle.gib_loccheck.specs.Views.{in_scope, before_of, calls_of};

use crate::index::bound::{BoundVariables, MarkedVariables};
use crate::index::scope::Scope;
use gib_base::Name;
use gib_core::ended::EndedSet;
use gib_core::{Atom, Variable};
use gib_types::Ty;
use std::alloc::Global;

/// A call to which a variable was bound.
#[derive(Drop)]
pub struct Told {
    pub name: Name,
    pub arguments: Vec<Atom>,
}

/// What stands before a term, with the newest last.
#[derive(Drop)]
pub struct Walk {
    pub alloc: Global,
    /// The variables that were bound in this function.
    pub bound: BoundVariables,
    /// The variables that a `case` of this function was on.
    pub cased: MarkedVariables,
    /// The variables in scope.
    pub scope: Scope,
    /// The variables of the other sides of the pars around the term.
    pub others: Vec<Variable>,
    /// The calls to which variables were bound before in the line.
    pub calls: Vec<Told>,
    /// The number of the term in the order of the text.
    pub place: u64,
}

/// Whether a variable is one of these.
pub fn is_listed(variables: &[Variable], variable: Variable) -> bool
    ensures { result ≡ is_among (reverse variables.now) variable }
{
    variables.iter().rev().any(|known| known.0 == variable.0)
}

impl Walk {
    /// Whether one of the calls before in the line tells the end of a variable. The newest is looked at first.
    #[tactic(auto, using(crate::proofs::Telling::told_next, crate::proofs::Telling::told_all, crate::proofs::Telling::told_none))]
    pub fn tells(&self, ended: &EndedSet, z: Variable) -> bool
        ensures { result ≡ one_tells ended.now (calls_of self.now) z }
    {
        let mut i = self.calls.len();
        'calls: while i > 0 {
            i -= 1;
            let call = &self.calls[i];
            if ended.has_among(call.name, &call.arguments, z) {
                return true;
            }
        }
        false
    }

    /// Whether an atom can be used here: it is a literal, or a variable in scope that is reached.
    pub fn is_usable(&self, atom: Atom) -> bool
        ensures { result ≡ usable (in_scope self.now) atom }
    {
        match atom {
            Atom::Variable(x) => match self.scope.find(x) {
                Some(known) => known.reached,
                None => false,
            },
            Atom::Whole(_) => true,
            Atom::Truth(_) => true,
        }
    }

    /// Whether an atom is the variable of another side.
    pub fn is_other(&self, atom: Atom) -> bool
        ensures { result ≡ other (in_scope self.now) atom }
    {
        match atom {
            Atom::Variable(x) => is_listed(&self.others, x),
            Atom::Whole(_) => false,
            Atom::Truth(_) => false,
        }
    }

    /// The type of an atom.
    pub fn type_of(&self, atom: Atom) -> Option<Ty>
        ensures { result ≡ type_in_atom (before_of self.now) atom }
    {
        match atom {
            Atom::Variable(x) => self.bound.type_of(x),
            Atom::Whole(_) => Some(Ty::Whole),
            Atom::Truth(_) => Some(Ty::Truth),
        }
    }

    /// Whether an atom has the type.
    pub fn has_type(&self, atom: Atom, ty: Ty) -> bool
        ensures { result ≡ typed (before_of self.now) atom ty }
    {
        match self.type_of(atom) {
            Some(found) => found.is(ty),
            None => false,
        }
    }
}

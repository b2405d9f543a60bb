//! What the walk keeps, and the small steps that it is made of.

ghost use Rattle.std.specs.Prelude.{◌≡◌, ℕ, ◌+◌, ◌-◌, ◌^◌, ◌<◌, ◌++◌, ◌∷◌, [], length, Some, IfOk, IfErr};
ghost use Rattle.gib_core.specs.declared.node.Binding.TheVariants as b;
ghost use Rattle.gib_core.specs.declared.node.BoundSide.TheVariants as s;
ghost use Rattle.gib_core.specs.{Arena.{Grows, term_of}, Inferring.{atom_at, type_at, kind_of, result_of}};
ghost use Rattle.gib_infer.specs.Made.{scope_of};

use gib_base::{Memory, Name};
use gib_core::{Atom, Binding, BoundSide, BoundTerm, Kind, Node, Slot, TermId, Terms, Variable};
use gib_types::Ty;
use std::alloc::{AllocError, Global};

/// The terms so far, the names in scope with the newest last, and the number of the next variable.
#[derive(Drop)]
pub struct Work {
    pub alloc: Global,
    pub terms: Terms,
    pub scope: Vec<Slot>,
    pub fresh: u32,
}

/// A new variable.
pub fn new_variable(work: &mut Work) -> Result<Variable, Memory>
    ensures variable { IfOk result (λ x. x.0 ≡ work.old.fresh) }
    ensures new { IfOk result (λ _. work.new ≡ record work.old { fresh = work.old.fresh + 1 }) }
    ensures last { IfErr result (λ _. work.old.fresh ≡ 2 ^ 32 - 1) }
{
    if work.fresh == u32::MAX {
        return Err(AllocError);
    }
    let variable = Variable(work.fresh);
    work.fresh += 1;
    Ok(variable)
}

/// What a name became, with its type: the newest one counts.
pub fn find(scope: &[Slot], name: Name) -> (Atom, Ty)
    ensures atom { result.0 ≡ atom_at (scope_of scope.now) name.0 }
    ensures ty { result.1 ≡ type_at (scope_of scope.now) name.0 }
{
    let mut atom = Atom::Whole(0);
    let mut ty = Ty::Whole;
    for slot in scope {
        if slot.name.0 == name.0 {
            atom = slot.atom;
            ty = slot.ty;
        }
    }
    (atom, ty)
}

/// How a value of a type is bound.
pub fn kind(ty: Ty) -> Kind
    ensures { result ≡ kind_of ty }
{
    match ty {
        Ty::Whole => Kind::Scalar,
        Ty::Truth => Kind::Scalar,
        Ty::Tree(_) => Kind::Region,
    }
}

/// Binds a variable to a term, behind other bindings.
pub fn push_bound(
    bindings: &mut Vec<Binding>,
    variable: Variable,
    ty: Ty,
    term: TermId,
) -> Result<(), Memory>
    ensures { IfOk result (λ _. bindings.new.items ≡ bindings.old.items ++ b.One (s.One (record { kind = kind_of ty; variable = variable; ty = ty; term = term })) ∷ []) }
{
    bindings.push(Binding::One(BoundSide::One(BoundTerm {
        kind: kind(ty),
        variable,
        ty,
        term,
    })))?;
    Ok(())
}

/// A variable or literal in result place.
pub fn put_plain(terms: &mut Terms, atom: Atom, ty: Ty) -> Result<TermId, Memory>
    ensures grows { IfOk result (λ _. Grows terms.old terms.new) }
    ensures inside { IfOk result (λ t. t.0 < length terms.new) }
    ensures term { IfOk result (λ t. term_of terms.new t.0 ≡ result_of ty atom) }
{
    match ty {
        Ty::Tree(_) => terms.put(Node::Point(atom)),
        Ty::Whole => terms.put(Node::Give(atom)),
        Ty::Truth => terms.put(Node::Give(atom)),
    }
}

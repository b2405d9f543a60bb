//! The ends of constructs, once the code of their parts stands.

ghost use Rattle.std.specs.Prelude.{◌≡◌, ℕ, ◌+◌, ◌<◌, ◌++◌, ◌∷◌, [], length, IfOk};
ghost use Rattle.std.specs.Option.{unwrap_or};
ghost use Rattle.gib_types.specs.declared.table.Ty.TheVariants as ty;
ghost use Rattle.gib_core.specs.Inferring.{atom_at, type_at, plain_line as plainly, call_atom, make_from};
ghost use Rattle.gib_infer.specs.Made.{scope_of, AreBindingsBelow, MakesLine, MakesAtom, PointsFields, pending, pending_atom, plain_atoms, given_atom, ended_call, side_call};

use crate::names::scalar_of;
use crate::work::{Work, find, new_variable, put_plain};
use gib_base::{Memory, Name};
use gib_core::{Atom, Binding, BoundSide, BoundTerm, Kind, Node, TermId};
use gib_types::{ConId, Ty, first_type, further_types};

/// A constructor with the atoms at its fields: the scalars, and the packed ones with their types.
#[derive(Drop)]
pub struct Construction {
    pub ty: Ty,
    pub constructor: ConId,
    pub types: Vec<Ty>,
    pub scalars: Vec<Atom>,
    pub packed: Vec<Atom>,
}

/// An atom of a type in result place.
pub fn plain_line(work: &mut Work, atom: Atom, ty: Ty) -> Result<(TermId, Ty), Memory>
    ensures { IfOk result (λ r. MakesLine work.old work.new r.0 r.1 (plainly (λ _. ty) (λ _. atom) (scope_of work.old.scope.items) work.old.fresh)) }
{
    let term = put_plain(&mut work.terms, atom, ty)?;
    Ok((term, ty))
}

/// A variable in result place.
pub fn variable_line(work: &mut Work, name: Name) -> Result<(TermId, Ty), Memory>
    ensures { IfOk result (λ r. MakesLine work.old work.new r.0 r.1 (plainly (λ scope. type_at scope name.0) (λ scope. atom_at scope name.0) (scope_of work.old.scope.items) work.old.fresh)) }
{
    let (atom, ty) = find(&work.scope, name);
    plain_line(work, atom, ty)
}

/// A scalar that is given, behind its bindings.
pub fn give(work: &mut Work, bindings: Vec<Binding>, atom: Atom, ty: Ty) -> Result<TermId, Memory>
    requires { AreBindingsBelow (length work.old.terms) bindings.items }
    ensures { IfOk result (λ t. MakesLine work.old work.new t ty (given_atom (pending_atom work.old bindings.items atom ty))) }
{
    let term = work.terms.put_line(bindings, Node::Give(atom))?;
    Ok(term)
}

/// A scalar call that is bound, behind the bindings of its arguments.
pub fn bind_call(
    work: &mut Work,
    bindings: &mut Vec<Binding>,
    function: Name,
    arguments: Vec<Atom>,
    ty: Ty,
) -> Result<Atom, Memory>
    requires { AreBindingsBelow (length work.old.terms) bindings.old.items }
    ensures { IfOk result (λ x. MakesAtom work.old work.new bindings.old.items bindings.new.items x ty (call_atom ty function (plain_atoms work.old arguments.items))) }
{
    let variable = new_variable(work)?;
    let term = work.terms.put(Node::Call(function, arguments))?;
    bindings.push(Binding::One(BoundSide::One(BoundTerm {
        kind: Kind::Scalar,
        variable,
        ty,
        term,
    })))?;
    Ok(Atom::Variable(variable))
}

/// A scalar call that is bound and given.
fn give_call(
    work: &mut Work,
    mut bindings: Vec<Binding>,
    function: Name,
    arguments: Vec<Atom>,
    ty: Ty,
) -> Result<TermId, Memory>
    requires { AreBindingsBelow (length work.old.terms) bindings.items }
    ensures { IfOk result (λ t. MakesLine work.old work.new t ty (given_atom (call_atom ty function (pending work.old bindings.items arguments.items)))) }
{
    let atom = bind_call(work, &mut bindings, function, arguments, ty)?;
    let term = give(work, bindings, atom, ty)?;
    Ok(term)
}

/// A call in result place, by the type that it gives; of several parts there is none.
pub fn end_call(
    work: &mut Work,
    bindings: Vec<Binding>,
    function: Name,
    arguments: Vec<Atom>,
    given: Option<Ty>,
) -> Result<TermId, Memory>
    requires { AreBindingsBelow (length work.old.terms) bindings.items }
    ensures { IfOk result (λ t. MakesLine work.old work.new t (unwrap_or given ty.Whole) (ended_call given function (pending work.old bindings.items arguments.items))) }
{
    match scalar_of(given) {
        Some(ty) => give_call(work, bindings, function, arguments, ty),
        None => work
            .terms
            .put_line(bindings, Node::Call(function, arguments)),
    }
}

/// A call that is a side: one whose arguments need no bindings is the whole side.
pub fn end_side(
    work: &mut Work,
    bindings: Vec<Binding>,
    function: Name,
    arguments: Vec<Atom>,
    given: Option<Ty>,
) -> Result<TermId, Memory>
    requires { AreBindingsBelow (length work.old.terms) bindings.items }
    ensures { IfOk result (λ t. MakesLine work.old work.new t (unwrap_or given ty.Whole) (side_call given function (pending work.old bindings.items arguments.items))) }
{
    if bindings.is_empty() {
        work.terms
            .put_line(bindings, Node::Call(function, arguments))
    } else {
        end_call(work, bindings, function, arguments, given)
    }
}

/// The packed fields of a head: each points to its atom.
fn point_fields(
    work: &mut Work,
    bindings: &mut Vec<Binding>,
    types: &[Ty],
    atoms: &[Atom],
) -> Result<Vec<Atom>, Memory>
    requires { AreBindingsBelow (length work.old.terms) bindings.old.items }
    ensures { IfOk result (λ v. PointsFields work.old work.new bindings.old.items bindings.new.items types.now atoms.now v.items) }
{
    let mut fields = Vec::new(work.alloc);
    let mut types_left = types;
    let mut atoms_left = atoms;
    'fields: while let [atom, atoms_after @ ..] = atoms_left {
        let ty = first_type(types_left);
        let variable = new_variable(work)?;
        let term = work.terms.put(Node::Point(*atom))?;
        bindings.push(Binding::One(BoundSide::One(BoundTerm {
            kind: Kind::Here,
            variable,
            ty,
            term,
        })))?;
        fields.push(Atom::Variable(variable))?;
        types_left = further_types(types_left);
        atoms_left = atoms_after;
    }
    Ok(fields)
}

/// A constructor behind its arguments: room for its head, its packed fields, its head.
pub fn end_make(
    work: &mut Work,
    mut bindings: Vec<Binding>,
    made: Construction,
) -> Result<TermId, Memory>
    requires { AreBindingsBelow (length work.old.terms) bindings.items }
    ensures { IfOk result (λ t. MakesLine work.old work.new t made.ty (make_from made.ty made.constructor made.types.items (pending work.old bindings.items made.scalars.items) (plain_atoms work.old made.packed.items))) }
{
    let constructor = made.constructor;
    let head = new_variable(work)?;
    bindings.push(Binding::Past { head, constructor })?;
    let fields = point_fields(work, &mut bindings, &made.types, &made.packed)?;
    let end = Node::Write {
        head,
        constructor,
        scalars: made.scalars,
        packed: fields,
    };
    let term = work.terms.put_line(bindings, end)?;
    Ok(term)
}

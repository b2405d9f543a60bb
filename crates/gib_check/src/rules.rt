//! The rules that expressions keep, each by itself.

ghost use Rattle.std.specs.Prelude.{◌≡◌, ◌<◌, length, IfOk};
ghost use Rattle.gib_types.specs.{Form.{WholeForm, TruthForm}, SameForm.{same_form}, Types.{form_at, forms_at, forms_of, AreBelow}};
ghost use Rattle.gib_syntax.specs.Results.{One};
ghost use Rattle.gib_check.specs.{Answers.{Gives}, Judging.{forms, listed, ids_of, forms_given, AreMet, part_in, parts_in, ArePartsMet}};
ghost use Rattle.gib_check.specs.Faults as rule;

use crate::fault::{Fault, Kind, TypeFault};
use crate::state::State;
use gib_base::Span;
use gib_syntax::Ident;
use gib_types::types::{TypeId, TypeNode, Types};
use std::alloc::Global;

/// What an expression gives: one thing of a type, or several parts, whose types are a run of those that a state keeps for
/// parts.
#[derive(Clone, Copy)]
pub enum ResultIds {
    One(TypeId),
    Several { start: u32, count: u32 },
}

/// A part of an expression, after its check: what it gives, and where it stands.
#[derive(Clone, Copy)]
pub struct Part {
    pub ty: ResultIds,
    pub place: Span,
}

/// A declared type: the number of its name, and its arguments.
#[derive(Drop)]
pub struct DeclaredType {
    pub name: u32,
    pub arguments: Vec<TypeId>,
}

/// A broken rule.
pub fn broken(kind: Kind, span: Span) -> TypeFault
    ensures { result ≡ TypeFault.Broken (record { kind = kind; span = span }) }
{
    TypeFault::Broken(Fault { kind, span })
}

/// Whether two types are the same: each has one number.
fn is_same(types: &Types, left: TypeId, right: TypeId) -> bool
    requires left { left.0 < length types.now }
    requires right { right.0 < length types.now }
    ensures { result ≡ same_form (form_at (forms_of types.now) left.0) (form_at (forms_of types.now) right.0) }
{
    let _once = types.len();
    left.0 == right.0
}

/// Whether the types of parts are the same, as many as there are.
fn are_same(types: &Types, left: &[TypeId], right: &[TypeId]) -> bool
    requires left { AreBelow (length types.now) left.now }
    requires right { AreBelow (length types.now) right.now }
    ensures { result ≡ rule.same_lists (listed (forms_of types.now) left.now) (listed (forms_of types.now) right.now) }
{
    let mut lefts = left;
    let mut rights = right;
    'parts: while let [first, lefts_after @ ..] = lefts {
        let [other, rights_after @ ..] = rights else {
            return false;
        };
        if !is_same(types, *first, *other) {
            return false;
        }
        lefts = lefts_after;
        rights = rights_after;
    }
    rights.is_empty()
}

/// Whether two expressions give something of the same type, or parts of the same types.
fn give_same(state: &State, left: ResultIds, right: ResultIds) -> bool
    requires left { AreMet state.now left }
    requires right { AreMet state.now right }
    ensures { result ≡ rule.same_results (forms_given state.now left) (forms_given state.now right) }
{
    match left {
        ResultIds::One(id) => match right {
            ResultIds::One(other) => is_same(state.types(), id, other),
            ResultIds::Several { .. } => false,
        },
        ResultIds::Several { start, count } => match right {
            ResultIds::One(_) => false,
            ResultIds::Several {
                start: other_start,
                count: other_count,
            } => are_same(
                state.types(),
                state.parts(start, count),
                state.parts(other_start, other_count),
            ),
        },
    }
}

/// A part gives what is due.
pub fn wanted(state: &State, due: ResultIds, part: Part) -> Result<(), TypeFault>
    requires due { AreMet state.now due }
    requires part { AreMet state.now part.ty }
    ensures { Gives (λ _. tt {0}) result (rule.wanted (forms_given state.now due) (part_in state.now part)) }
{
    if give_same(state, part.ty, due) {
        Ok(())
    } else {
        Err(broken(Kind::Shape, part.place))
    }
}

/// A part is a whole number.
pub fn wanted_whole(state: &State, part: Part) -> Result<(), TypeFault>
    requires { AreMet state.now part.ty }
    ensures { Gives (λ _. tt {0}) result (rule.wanted (One WholeForm) (part_in state.now part)) }
{
    let ResultIds::One(ty) = part.ty else {
        return Err(broken(Kind::Shape, part.place));
    };
    match state.types().node(ty) {
        TypeNode::Whole => Ok(()),
        TypeNode::Truth => Err(broken(Kind::Shape, part.place)),
        TypeNode::Variable(_) => Err(broken(Kind::Shape, part.place)),
        TypeNode::Data(_, _) => Err(broken(Kind::Shape, part.place)),
    }
}

/// A part is a truth value.
pub fn wanted_truth(state: &State, part: Part) -> Result<(), TypeFault>
    requires { AreMet state.now part.ty }
    ensures { Gives (λ _. tt {0}) result (rule.wanted (One TruthForm) (part_in state.now part)) }
{
    let ResultIds::One(ty) = part.ty else {
        return Err(broken(Kind::Shape, part.place));
    };
    match state.types().node(ty) {
        TypeNode::Whole => Err(broken(Kind::Shape, part.place)),
        TypeNode::Truth => Ok(()),
        TypeNode::Variable(_) => Err(broken(Kind::Shape, part.place)),
        TypeNode::Data(_, _) => Err(broken(Kind::Shape, part.place)),
    }
}

/// Each part has its type.
pub fn all_wanted(state: &State, parts: &[Part], due: &[TypeId]) -> Result<(), TypeFault>
    requires parts { ArePartsMet state.now parts.now }
    requires due { AreBelow (length state.now.types) due.now }
    ensures { Gives (λ _. tt {0}) result (rule.all_wanted (parts_in state.now parts.now) (listed (forms state.now) due.now)) }
{
    let mut ids = due;
    let mut rest = parts;
    'parts: while let [part, after @ ..] = rest {
        match ids {
            [] => return Ok(()),
            [ty, later @ ..] => {
                wanted(state, ResultIds::One(*ty), *part)?;
                ids = later;
                rest = after;
            }
        }
    }
    Ok(())
}

/// Each part gives the one thing that is due, or the parts.
pub fn all_of(state: &State, due: ResultIds, parts: &[Part]) -> Result<(), TypeFault>
    requires due { AreMet state.now due }
    requires parts { ArePartsMet state.now parts.now }
    ensures { Gives (λ _. tt {0}) result (rule.all_of (forms_given state.now due) (parts_in state.now parts.now)) }
{
    let mut rest = parts;
    'parts: while let [part, after @ ..] = rest {
        wanted(state, due, *part)?;
        rest = after;
    }
    Ok(())
}

/// The types of parts, each of which is one thing.
pub fn all_single(state: &State, parts: &[Part]) -> Result<Vec<TypeId>, TypeFault>
    requires { ArePartsMet state.now parts.now }
    ensures types { Gives (λ ids. listed (forms state.now) ids.items) result (rule.all_single (parts_in state.now parts.now)) }
    ensures below { IfOk result (λ ids. AreBelow (length state.now.types) ids.items) }
{
    let mut ids = Vec::new(state.alloc());
    let mut rest = parts;
    'parts: while let [part, after @ ..] = rest {
        let ResultIds::One(id) = part.ty else {
            return Err(broken(Kind::Shape, part.place));
        };
        ids.push(id)?;
        rest = after;
    }
    Ok(ids)
}

/// A part can be bound to these variables: one thing to one, as many parts to several.
pub fn can_bind(state: &State, names: &[Ident], part: Part) -> Result<(), TypeFault>
    requires { AreMet state.now part.ty }
    ensures { Gives (λ _. listed (forms state.now) (ids_of state.now part.ty)) result (rule.types_bound names.now (part_in state.now part)) }
{
    match names {
        [] => Err(broken(Kind::Shape, part.place)),
        [_] => match part.ty {
            ResultIds::One(_) => Ok(()),
            ResultIds::Several { .. } => Err(broken(Kind::Shape, part.place)),
        },
        [first, _, ..] => match part.ty {
            ResultIds::One(_) => Err(broken(Kind::Shape, part.place)),
            ResultIds::Several { start, count } => {
                as_many(state.parts(start, count).len(), names.len(), *first)?;
                Ok(())
            }
        },
    }
}

/// As many as there have to be.
pub fn as_many(n: usize, due: usize, at: Ident) -> Result<(), TypeFault>
    ensures { Gives (λ _. tt {0}) result (rule.as_many n due at) }
{
    if n == due {
        Ok(())
    } else {
        Err(broken(Kind::Count, at.span))
    }
}

/// The declared type of a variable.
pub fn declared_type(
    alloc: Global,
    types: &Types,
    ty: TypeId,
    x: Ident,
) -> Result<DeclaredType, TypeFault>
    requires { ty.0 < length types.now }
    ensures read { Gives (λ d. (d.name, forms_at (forms_of types.now) d.arguments.items)) result (rule.declared_type (form_at (forms_of types.now) ty.0) x) }
    ensures below { IfOk result (λ d. AreBelow (length types.now) d.arguments.items) }
{
    match types.node(ty) {
        TypeNode::Whole => Err(broken(Kind::Shape, x.span)),
        TypeNode::Truth => Err(broken(Kind::Shape, x.span)),
        TypeNode::Variable(_) => Err(broken(Kind::Shape, x.span)),
        TypeNode::Data(name, ids) => {
            let arguments = Vec::from_slice(alloc, ids)?;
            Ok(DeclaredType {
                name: *name,
                arguments,
            })
        }
    }
}

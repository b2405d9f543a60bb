//! Names and types of several parts.

ghost use Rattle.std.specs.Prelude.{◌≡◌, ◌∷◌, [], map, IfOk, MatchOption};
ghost use Rattle.gib_syntax.specs.{Declarations.{type_of_name}, Typing.{names_of, types_of}};
ghost use Rattle.gib_core.specs.{PartTypes.{types_in}, Inferring.{slot}};
ghost use Rattle.gib_core.specs.declared.atom.Atom.TheVariants as a;
ghost use Rattle.gib_infer.specs.Made.{globals_in, Enters, IsNotOne, MakesSlots};

use crate::work::{Work, new_variable};
use gib_base::Memory;
use gib_check::Typed;
use gib_core::{Atom, BoundSide, BoundTerm, PartTypes, Slot};
use gib_syntax::{ExprId, Ident, Parameter, TypeName};
use gib_types::Ty;
use std::alloc::Global;

/// Names with their types, and the expression that gives their values.
#[derive(Drop)]
pub struct BoundNames<'a> {
    pub names: &'a [Parameter],
    pub value: ExprId,
}

/// What names are bound to, and the names as they will stand in scope, the newest last.
#[derive(Drop)]
pub struct NamedSide {
    pub side: BoundSide,
    pub slots: Vec<Slot>,
}

/// The types of these names.
pub fn types_named(alloc: Global, typed: &Typed, names: &[TypeName]) -> Result<Vec<Ty>, Memory>
    ensures { IfOk result (λ v. v.items ≡ map (type_of_name (globals_in typed.now).table.types) names.now) }
{
    let mut types = Vec::new(alloc);
    let mut left = names;
    'names: while let [name, after @ ..] = left {
        types.push(typed.type_named(*name))?;
        left = after;
    }
    Ok(types)
}

/// The types of what these names are bound to.
pub fn bound_types(alloc: Global, typed: &Typed, names: &[Parameter]) -> Result<Vec<Ty>, Memory>
    ensures { IfOk result (λ v. v.items ≡ types_of (globals_in typed.now).table.types names.now) }
{
    let mut types = Vec::new(alloc);
    let mut left = names;
    'names: while let [name, after @ ..] = left {
        types.push(typed.type_named(name.ty))?;
        left = after;
    }
    Ok(types)
}

/// These types, as those of several parts.
///
/// # Errors
///
/// There are more than there may be, which typing excludes.
pub fn part_types(types: &[Ty]) -> Result<PartTypes, Memory>
    ensures { IfOk result (λ p. types_in p ≡ types.now) }
{
    let mut parts = PartTypes::new();
    let mut left = types;
    'types: while let [ty, after @ ..] = left {
        parts.push(*ty)?;
        left = after;
    }
    Ok(parts)
}

/// The one name, where there is no other.
pub fn only_name(names: &[Parameter]) -> Option<Ident>
    ensures { MatchOption result (IsNotOne (names_of names.now)) (λ x. names_of names.now ≡ x ∷ []) }
{
    match names {
        [] => None,
        [name] => Some(name.name),
        [_, ..] => None,
    }
}

/// A name for what is bound.
pub fn one_slot(alloc: Global, name: Ident, side: BoundTerm) -> Result<Vec<Slot>, Memory>
    ensures { IfOk result (λ v. v.items ≡ slot name (a.Variable side.variable) side.ty ∷ []) }
{
    let mut slots = Vec::new(alloc);
    slots.push(Slot {
        name: name.name,
        atom: Atom::Variable(side.variable),
        ty: side.ty,
    })?;
    Ok(slots)
}

/// New variables for these names, one behind another.
pub fn new_slots(typed: &Typed, work: &mut Work, names: &[Parameter]) -> Result<Vec<Slot>, Memory>
    ensures { IfOk result (λ v. MakesSlots work.old work.new (names_of names.now) (types_of (globals_in typed.now).table.types names.now) v.items) }
{
    let mut slots = Vec::new(work.alloc);
    let mut left = names;
    'names: while let [name, after @ ..] = left {
        let variable = new_variable(work)?;
        slots.push(Slot {
            name: name.name.name,
            atom: Atom::Variable(variable),
            ty: typed.type_named(name.ty),
        })?;
        left = after;
    }
    Ok(slots)
}

/// Names come into scope.
pub fn enter(work: &mut Work, slots: &[Slot]) -> Result<(), Memory>
    ensures { IfOk result (λ _. Enters work.old work.new slots.now) }
{
    let mut left = slots;
    'slots: while let [slot, after @ ..] = left {
        work.scope.push(*slot)?;
        left = after;
    }
    Ok(())
}

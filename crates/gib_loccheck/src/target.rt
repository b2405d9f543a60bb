//! What is due at a term.

ghost use Rattle.std.specs.Prelude.{◌≡◌, ℕ, false, IfOk};
ghost use Rattle.gib_core.specs.{PartTypes.{types_in}, Tree.{Term}, Arena.{side_from}};
ghost use Rattle.gib_core.specs.{Met.{field_due as due_at, in_side, in_several, in_part}, Rules.{are_due as parts_due, has_room as room_in}};
ghost use Rattle.gib_loccheck.specs.{declared.state.Walk.{Walk as State}, Views.{destination_of, setting_of, at_line}, Judging.{past_side}};
ghost use Rattle.gib_loccheck.specs.declared.target.Target.{Target as Goal};

use crate::destination::Destination;
use crate::table::{packed_at, packed_count, same_types};
use gib_base::Memory;
use gib_core::{BoundSide, Kind, PartTypes};
use gib_types::{Ty, TypeTable};

/// What is due at a term: where its value is put, its type, and whether the term begins the right side of
/// a `scalar`.
#[derive(Drop)]
pub struct Target {
    pub destination: Destination,
    pub due: Ty,
    pub whole: bool,
}

impl Target {
    /// Whether these are the types of the parts that are due.
    pub fn are_due(&self, types: &[Ty]) -> bool
        ensures { result ≡ parts_due (destination_of self.now.destination) types.now }
    {
        match &self.destination {
            Destination::InParts(due) => {
                let due = due.unpacked();
                same_types(types, due.as_slice())
            }
            _ => false,
        }
    }

    /// Whether fewer fields of the open head stand than it has.
    pub fn has_room(&self, types: &TypeTable) -> bool
        ensures { result ≡ room_in types.now (destination_of self.now.destination) }
    {
        match &self.destination {
            Destination::Open {
                constructor,
                standing,
                ..
            } => standing.len() < packed_count(types.fields(*constructor)),
            _ => false,
        }
    }

    /// The type of the field that is due at the open head.
    pub fn field_due(&self, types: &TypeTable) -> Ty
        ensures { result ≡ due_at types.now (destination_of self.now.destination) }
    {
        match &self.destination {
            Destination::Open {
                constructor,
                standing,
                ..
            } => packed_at(types.fields(*constructor), standing.len()),
            _ => Ty::Whole,
        }
    }

    /// What is due at the term of a side.
    pub fn in_side(&self, types: &TypeTable, kind: Kind, ty: Ty) -> Target
        ensures { (w : State) → at_line (setting_of w result) ≡ in_side types.now (setting_of w self.now) kind ty }
    {
        match kind {
            Kind::Here => Target {
                destination: Destination::Empty,
                due: self.field_due(types),
                whole: false,
            },
            Kind::Region => Target {
                destination: Destination::Empty,
                due: ty,
                whole: false,
            },
            Kind::Scalar => Target {
                destination: Destination::Nowhere,
                due: ty,
                whole: true,
            },
        }
    }

    /// What is due at the term of several variables of these types.
    pub fn of_several(types: PartTypes) -> Target
        ensures { (w : State) (t : Goal) → at_line (setting_of w result) ≡ in_several (setting_of w t) (types_in types) }
    {
        Target {
            destination: Destination::InParts(types),
            due: Ty::Whole,
            whole: false,
        }
    }

    /// What is due at the term of a part of this type.
    pub fn of_part(ty: Ty) -> Target
        ensures { (w : State) (t : Goal) → at_line (setting_of w result) ≡ in_part (setting_of w t) ty }
    {
        Target {
            destination: Destination::Empty,
            due: ty,
            whole: false,
        }
    }

    /// What is due behind a side, before its variables are in scope.
    pub fn behind_side(&self, side: BoundSide) -> Result<Target, Memory>
        ensures { (f : ℕ → Term) → IfOk result (λ t. (w : State) → setting_of w t ≡ past_side (side_from f side) (setting_of w self.now)) }
    {
        let destination = self.destination.behind_side(side)?;
        Ok(Target {
            destination,
            due: self.due,
            whole: self.whole,
        })
    }

    /// What is due where the same is due, and no scalar call may stand.
    pub fn without_call(&self) -> Result<Target, Memory>
        ensures { IfOk result (λ t. (w : State) → setting_of w t ≡ record (setting_of w self.now) { whole = false }) }
    {
        let destination = self.destination.copy()?;
        Ok(Target {
            destination,
            due: self.due,
            whole: false,
        })
    }
}

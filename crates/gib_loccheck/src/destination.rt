//! Where a value is put.

ghost use Rattle.std.specs.Prelude.{◌≡◌, ℕ, IfOk, OnOk};
ghost use Rattle.gib_core.specs.{Arena.{side_from}, Met.{result_place, stands_behind, stands_too, with_field}, Parts.{results_of}};
ghost use Rattle.gib_core.specs.{Rules.{is_empty as empty, is_in_parts as in_parts, is_nowhere as nowhere}, Tree.{Term}};
ghost use Rattle.gib_loccheck.specs.Views.{destination_of};

use gib_base::Memory;
use gib_core::{BoundSide, CoreResult, Kind, PartTypes, Variable};
use gib_types::{ConId, Ty};

/// Where a value is put.
#[derive(Drop)]
pub enum Destination {
    /// Nowhere, since it is a scalar.
    Nowhere,
    /// At an empty place.
    Empty,
    /// Behind the fields of an open head that stand.
    Open {
        head: Variable,
        constructor: ConId,
        standing: Vec<Variable>,
    },
    /// As several parts of these types, each packed one at a place of its own.
    InParts(PartTypes),
}

impl Destination {
    /// Where what a function gives is put.
    pub fn of_result(given: CoreResult) -> Destination
        ensures { destination_of result ≡ result_place (results_of given) }
    {
        match given {
            CoreResult::One(Ty::Whole) => Destination::Nowhere,
            CoreResult::One(Ty::Truth) => Destination::Nowhere,
            CoreResult::One(Ty::Tree(_)) => Destination::Empty,
            CoreResult::Several(types) => Destination::InParts(types),
        }
    }

    /// Whether a scalar is due.
    pub fn is_nowhere(&self) -> bool
        ensures { result ≡ nowhere (destination_of self.now) }
    {
        matches!(self, Destination::Nowhere)
    }

    /// Whether a packed value is due at an empty place.
    pub fn is_empty(&self) -> bool
        ensures { result ≡ empty (destination_of self.now) }
    {
        matches!(self, Destination::Empty)
    }

    /// Whether several parts are due.
    pub fn is_in_parts(&self) -> bool
        ensures { result ≡ in_parts (destination_of self.now) }
    {
        matches!(self, Destination::InParts(_))
    }

    /// One more field of the open head stands, where one is open.
    fn add_field(&mut self, variable: Variable) -> Result<(), Memory>
        ensures { OnOk result (destination_of self.new ≡ with_field variable (destination_of self.old)) }
    {
        match self {
            Destination::Nowhere => {}
            Destination::Empty => {}
            Destination::Open { standing, .. } => standing.push(variable)?,
            Destination::InParts(_) => {}
        }
        Ok(())
    }

    /// A value that is put so stands from now on.
    ///
    /// # Errors
    ///
    /// Want of memory.
    pub fn stand(&mut self, kind: Kind, variable: Variable) -> Result<(), Memory>
        ensures { OnOk result (destination_of self.new ≡ stands_too kind variable (destination_of self.old)) }
    {
        match kind {
            Kind::Here => self.add_field(variable),
            Kind::Region => Ok(()),
            Kind::Scalar => Ok(()),
        }
    }

    /// What is put so stands from now on; several variables stand at no place of their own.
    ///
    /// # Errors
    ///
    /// Want of memory.
    pub fn stand_side(&mut self, side: BoundSide) -> Result<(), Memory>
        ensures { (f : ℕ → Term) → OnOk result (destination_of self.new ≡ stands_behind (side_from f side) (destination_of self.old)) }
    {
        match side {
            BoundSide::One(bound) => self.stand(bound.kind, bound.variable),
            BoundSide::Several(_) => Ok(()),
        }
    }

    /// The destination behind a side.
    pub(crate) fn behind_side(&self, side: BoundSide) -> Result<Destination, Memory>
        ensures { (f : ℕ → Term) → IfOk result (λ d. destination_of d ≡ stands_behind (side_from f side) (destination_of self.now)) }
    {
        let mut destination = self.copy()?;
        destination.stand_side(side)?;
        Ok(destination)
    }

    /// The same destination.
    ///
    /// # Errors
    ///
    /// Want of memory.
    pub fn copy(&self) -> Result<Destination, Memory>
        ensures { IfOk result (λ d. destination_of d ≡ destination_of self.now) }
    {
        match self {
            Destination::Nowhere => Ok(Destination::Nowhere),
            Destination::Empty => Ok(Destination::Empty),
            Destination::Open {
                head,
                constructor,
                standing,
            } => {
                let standing = standing.clone()?;
                Ok(Destination::Open {
                    head: *head,
                    constructor: *constructor,
                    standing,
                })
            }
            Destination::InParts(types) => Ok(Destination::InParts(*types)),
        }
    }
}

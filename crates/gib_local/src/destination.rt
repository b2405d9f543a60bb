//! Where the value of a term is put.

ghost use Rattle.std.specs.Prelude.{◌≡◌, IfOk};
ghost use Rattle.gib_local.specs.{Building.{behind_last, head_of, is_flat as flat, is_open_at as open_at, next_place as place_next}, Builds.{destination_of}};

use crate::place::Place;
use gib_base::Memory;
use gib_core::Variable;
use gib_loccheck::{Destination, packed_count};
use gib_types::{ConId, TypeTable};

/// Where the value of a term is put: the destination, and the location where it is.
#[derive(Drop)]
pub struct Goal {
    pub destination: Destination,
    pub at: Place,
}

/// Whether a constructor has no packed field.
pub fn is_flat(types: &TypeTable, constructor: ConId) -> bool
    ensures { result ≡ flat types.now constructor }
{
    packed_count(types.fields(constructor)) == 0
}

/// Behind the last of the variables that stand; where none does, behind the head.
fn last_place(head: Variable, standing: &[Variable]) -> Place
    ensures { result ≡ behind_last (Place.AtFirst head.0) standing.now }
{
    let len = standing.len();
    if len == 0 {
        return Place::AtFirst(head.0);
    }
    Place::AtNext(standing[len - 1].0)
}

impl Goal {
    /// Whether the head of this constructor is open.
    pub fn is_open_at(&self, constructor: ConId) -> bool
        ensures { result ≡ open_at constructor (destination_of self.now.destination) }
    {
        match &self.destination {
            Destination::Open {
                constructor: opened,
                ..
            } => opened.0 == constructor.0,
            _ => false,
        }
    }

    /// The variable of the open head; where none is open, the first one.
    pub fn head(&self) -> Variable
        ensures { result ≡ head_of (destination_of self.now.destination) }
    {
        match &self.destination {
            Destination::Open { head, .. } => *head,
            _ => Variable(0),
        }
    }

    /// The location of the next field of the open head, where one is left to place.
    pub fn next_place(&self, types: &TypeTable) -> Option<Place>
        ensures { result ≡ place_next types.now (destination_of self.now.destination) }
    {
        match &self.destination {
            Destination::Open {
                head,
                constructor,
                standing,
            } => {
                if standing.len() < packed_count(types.fields(*constructor)) {
                    Some(last_place(*head, standing))
                } else {
                    None
                }
            }
            _ => None,
        }
    }

    /// The same place.
    ///
    /// # Errors
    ///
    /// Want of memory.
    pub fn copy(&self) -> Result<Goal, Memory>
        ensures destination { IfOk result (λ g. destination_of g.destination ≡ destination_of self.now.destination) }
        ensures at { IfOk result (λ g. g.at ≡ self.now.at) }
    {
        let destination = self.destination.copy()?;
        Ok(Goal {
            destination,
            at: self.at,
        })
    }
}

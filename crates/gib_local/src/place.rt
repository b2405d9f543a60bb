//! Locations, and what the names of regions and locations stand for.

ghost use Rattle.std.specs.Prelude.{◌≡◌};
ghost use Rattle.gib_local.specs.Building.{same_place, is_there, is_place, is_region, place_meant};

/// A location, by what it is.
#[derive(Clone, Copy)]
pub enum Place {
    /// The place of a function's result.
    AtResult,
    /// The start of the region whose name has this number.
    AtStart(u32),
    /// Behind the head that the variable of this number names.
    AtFirst(u32),
    /// Behind the value of the variable of this number, which stands.
    AtNext(u32),
}

/// What a name stands for among regions and locations.
#[derive(Clone, Copy)]
pub enum Meant {
    IsRegion,
    IsPlace(Place),
}

impl Place {
    /// Whether two locations are one.
    pub fn is(self, other: Place) -> bool
        ensures { result ≡ same_place self other }
    {
        match (self, other) {
            (Place::AtResult, Place::AtResult) => true,
            (Place::AtStart(left), Place::AtStart(right)) => left == right,
            (Place::AtFirst(left), Place::AtFirst(right)) => left == right,
            (Place::AtNext(left), Place::AtNext(right)) => left == right,
            _ => false,
        }
    }
}

/// Whether a location is there, and is this one.
pub fn is_there(found: Option<Place>, place: Place) -> bool
    ensures { result ≡ is_there found place }
{
    match found {
        None => false,
        Some(other) => other.is(place),
    }
}

/// Whether a name stands for this location.
pub fn is_place(place: Place, meant: Option<Meant>) -> bool
    ensures { result ≡ is_place place meant }
{
    match meant {
        None => false,
        Some(Meant::IsRegion) => false,
        Some(Meant::IsPlace(other)) => place.is(other),
    }
}

/// Whether a name stands for a region.
pub fn is_region(meant: Option<Meant>) -> bool
    ensures { result ≡ is_region meant }
{
    match meant {
        None => false,
        Some(Meant::IsRegion) => true,
        Some(Meant::IsPlace(_)) => false,
    }
}

/// The location that a name stands for; of a region, and of no name, the place of a result.
pub fn place_meant(meant: Option<Meant>) -> Place
    ensures { result ≡ place_meant meant }
{
    match meant {
        None => Place::AtResult,
        Some(Meant::IsRegion) => Place::AtResult,
        Some(Meant::IsPlace(place)) => place,
    }
}

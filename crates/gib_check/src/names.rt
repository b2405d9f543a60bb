//! Names in an order, and the place of each.

ghost use Rattle.std.specs.Prelude.{◌≡◌, ◌<◌, ℕ, length, map, IfOk, IfSome};
ghost use Rattle.gib_syntax.specs.Declarations.{place_of};
ghost use Rattle.gib_check.specs.Answers.{number};

use gib_base::{ByNumber, Memory, Name};
use std::alloc::{AllocError, Global};
use std::marker::Model;

/// What has a name.
pub trait Called: Drop {
    // The number of its name.
    ghost called: { Self → ℕ };

    /// Its name.
    fn name(&self) -> Name
        ensures { result.0 ≡ called self.now };
}

/// Names, each with its place, which is found without a search.
#[derive(Drop)]
pub struct NameList {
    names: Vec<Name>,
    /// The first place of each name, at the name's number.
    places: ByNumber<u32>,
}

impl Model for NameList {
    ghost use Rattle.std.specs.Prelude.{ℕ, List, map};
    ghost use Rattle.gib_check.specs.{Answers.{number}, Entries.{ArePlaces}};

    ghost Value = { List ℕ };

    ghost view = { λ l. map number l.names.items };

    ghost invariant = { λ l. ArePlaces (map number l.names.items) l.places };
}

impl NameList {
    ghost use Rattle.std.specs.Prelude.{◌++◌, ◌∷◌, [], OnOk};

    /// No names.
    pub fn new(alloc: Global) -> NameList
        ensures { result ≡ [] }
    {
        NameList {
            names: Vec::new(alloc),
            places: ByNumber::new(alloc),
        }
    }

    /// How many names there are.
    pub fn len(&self) -> u32
        ensures { result ≡ length self.now }
    {
        self.names.len() as u32
    }

    /// One more name behind the others.
    pub fn push(&mut self, name: Name) -> Result<(), Memory>
        ensures { OnOk result (self.new ≡ self.old ++ name.0 ∷ []) }
    {
        if self.names.len() >= u32::MAX as usize {
            return Err(AllocError);
        }
        let place = self.names.len() as u32;
        let len = self.names.len();
        self.names.push(name)?;
        if self.places.get(name.0).is_none() {
            if let Err(fault) = self.places.set(name.0, Some(place)) {
                self.names.truncate(len);
                return Err(fault);
            }
        }
        Ok(())
    }

    /// The names, in their order.
    pub fn into_names(self) -> Vec<Name>
        ensures { map number result.items ≡ self }
    {
        self.names
    }

    /// The first place of a name.
    pub fn place(&self, name: Name) -> Option<u32>
        ensures place { result ≡ place_of self.now name.0 }
        ensures within { IfSome result (λ place. place < length self.now) }
    {
        self.places.get(name.0)
    }
}

/// The names of these, in their order.
///
/// # Errors
///
/// Want of memory.
pub fn list_names<T: Called>(alloc: Global, items: &[T]) -> Result<NameList, Memory>
    ensures { IfOk result (λ names. names ≡ map T.called items.now) }
{
    let mut names = NameList::new(alloc);
    let mut rest = items;
    'items: while let [item, after @ ..] = rest {
        names.push(item.name())?;
        rest = after;
    }
    Ok(names)
}

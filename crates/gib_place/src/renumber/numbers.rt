//! The numbers that variables get: their places in the order in which the text binds them.

ghost use Rattle.std.specs.Prelude.{◌≡◌, ◌<◌, ◌≤◌, ◌^◌, length, IfOk, IfErr};
ghost use Rattle.gib_core.specs.Arena.{term_of};
ghost use Rattle.gib_place.specs.{Numbered.{ArePlaces}, Numbering.{variables_in}};

use gib_base::{ByNumber, Memory};
use gib_core::{Atom, TermId, Terms, Variable, push_binders};
use std::alloc::{AllocError, Global};
use std::marker::Model;

/// A place as a number of 32 bits.
fn number_of(place: usize) -> Result<u32, Memory>
    ensures number { IfOk result (λ number. number ≡ place) }
    ensures large { IfErr result (λ _. 2 ^ 32 ≤ place) }
{
    let Ok(number) = u32::try_from(place) else {
        return Err(AllocError);
    };
    Ok(number)
}

/// The place of each variable in an order, where it stands first. The last one comes first, so that the first one stays.
fn places_of(alloc: Global, order: &[u32]) -> Result<ByNumber<u32>, Memory>
    ensures { IfOk result (λ places. ArePlaces order.now places) }
{
    let mut places = ByNumber::new(alloc);
    let mut i = order.len();
    'order: while i > 0 {
        i -= 1;
        let place = number_of(i)?;
        places.set(order[i], Some(place))?;
    }
    Ok(places)
}

/// Variables in an order, each with the place where it stands first.
#[derive(Drop)]
pub struct Numbers {
    order: Vec<u32>,
    places: ByNumber<u32>,
}

impl Model for Numbers {
    ghost use Rattle.std.specs.Prelude.{ℕ, List};
    ghost use Rattle.gib_place.specs.Numbered.{ArePlaces};

    ghost Value = { List ℕ };

    ghost view = { λ n. n.order.items };

    ghost invariant = { λ n. ArePlaces n.order.items n.places };
}

impl Numbers {
    ghost use Rattle.std.specs.Prelude.{◌≡◌, IfOk};
    ghost use Rattle.gib_place.specs.{Renaming.{rename_variable, rename_atom}, Numbering.{place_in}};

    /// The variables of an order.
    ///
    /// # Errors
    ///
    /// Want of memory, where no further number is left too.
    pub fn make(alloc: Global, order: Vec<u32>) -> Result<Numbers, Memory>
        ensures { IfOk result (λ numbers. numbers ≡ order.items) }
    {
        let places = places_of(alloc, &order)?;
        Ok(Numbers { order, places })
    }

    /// The number of a variable: its place, or one behind them all.
    ///
    /// # Errors
    ///
    /// Want of memory, where no further number is left.
    pub fn number(&self, x: Variable) -> Result<Variable, Memory>
        ensures { IfOk result (λ number. number ≡ rename_variable (place_in self.now) x) }
    {
        match self.places.get(x.0) {
            Some(place) => Ok(Variable(place)),
            None => {
                let Ok(count) = u32::try_from(self.order.len()) else {
                    return Err(AllocError);
                };
                match x.0.checked_add(count) {
                    Some(number) => Ok(Variable(number)),
                    None => Err(AllocError),
                }
            }
        }
    }

    /// An atom with the number of its variable.
    ///
    /// # Errors
    ///
    /// Want of memory, where no further number is left.
    pub fn number_atom(&self, atom: Atom) -> Result<Atom, Memory>
        ensures { IfOk result (λ made. made ≡ rename_atom (place_in self.now) atom) }
    {
        match atom {
            Atom::Variable(x) => {
                let x = self.number(x)?;
                Ok(Atom::Variable(x))
            }
            Atom::Whole(z) => Ok(Atom::Whole(z)),
            Atom::Truth(b) => Ok(Atom::Truth(b)),
        }
    }
}

/// The variables of a body: its parameters, and those that it binds in the order of the text.
///
/// # Errors
///
/// Want of memory, where no further number is left too.
pub fn numbers_of(
    alloc: Global,
    terms: &Terms,
    parameters: usize,
    id: TermId,
) -> Result<Numbers, Memory>
    requires { id.0 < length terms.now }
    ensures { IfOk result (λ numbers. numbers ≡ variables_in parameters (term_of terms.now id.0)) }
{
    let Ok(count) = u32::try_from(parameters) else {
        return Err(AllocError);
    };
    let mut order = Vec::new(alloc);
    let mut i = 0;
    'parameters: while i < count {
        order.push(i)?;
        i += 1;
    }
    push_binders(alloc, &mut order, terms, id)?;
    Numbers::make(alloc, order)
}

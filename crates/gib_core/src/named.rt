//! Functions that are found by their names in constant time.

ghost use Rattle.std.specs.Prelude.{◌≡◌, ◌==◌, ℕ, if◌then◌else◌, map, ◌<◌, MatchOption, IfSome, None, Some, IfOk, OnOk};
ghost use Rattle.gib_core.specs.{Tree.{Term}, Meaning.{function_at}, Parts.{IsFunctionInside, function_term}, NamedFunctions.{IsIndex, entry_at, first_named}};
ghost use Rattle.std.specs.List.{AllByRecursion};

use crate::program::CoreFunction;
use gib_base::{ByNumber, Memory, Name};
use std::alloc::Global;

/// Puts a place at the number of a name.
fn put_place(places: &mut ByNumber<usize>, name: Name, place: usize) -> Result<(), Memory>
    ensures { OnOk result ((other : ℕ) → entry_at places.new other ≡ (if name.0 == other then Some place else entry_at places.old other)) }
{
    places.set(name.0, Some(place))
}

/// The place of the first function of each name, by the numbers of the names.
///
/// # Errors
///
/// Want of memory.
pub fn list_places(alloc: Global, functions: &[CoreFunction]) -> Result<ByNumber<usize>, Memory>
    ensures { IfOk result (λ places. IsIndex functions.now places) }
{
    let mut places = ByNumber::new(alloc);
    let mut next = functions.len();
    'functions: while next > 0 {
        next -= 1;
        put_place(&mut places, functions[next].name, next)?;
    }
    Ok(places)
}

/// The first function of a name.
fn first<'a>(
    functions: &'a [CoreFunction],
    places: &ByNumber<usize>,
    name: Name,
) -> Option<&'a CoreFunction>
    requires { IsIndex functions.now places.now }
    ensures { MatchOption result (first_named functions.now name.0 ≡ None) (λ f. first_named functions.now name.0 ≡ Some f.now) }
{
    match places.get(name.0) {
        None => None,
        Some(place) => functions.get(place),
    }
}

/// The function of a name: the first one; None exactly where no function has it.
#[tactic(auto, using(crate::proofs::FirstNamed::none_named, crate::proofs::FirstNamed::some_named, crate::proofs::FirstNamed::named_inside))]
pub fn function_named<'a>(
    functions: &'a [CoreFunction],
    places: &ByNumber<usize>,
    name: Name,
) -> Option<&'a CoreFunction>
    requires { IsIndex functions.now places.now }
    ensures named { MatchOption result ((f : ℕ → Term) → function_at (map (function_term f) functions.now) name.0 ≡ None) (λ g. (f : ℕ → Term) → function_at (map (function_term f) functions.now) name.0 ≡ Some (function_term f g.now)) }
    ensures inside { (n : ℕ) → AllByRecursion (IsFunctionInside n) functions.now → IfSome result (λ g. g.now.body.0 < n) }
{
    match first(functions, places, name) {
        None => None,
        Some(function) => Some(function),
    }
}

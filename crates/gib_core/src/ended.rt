//! Sets of packed parameters, which of them are ended among these.

ghost use Rattle.std.specs.Prelude.{◌≡◌, ◌<◌, ◌≤◌, ◌+◌, ◌*◌, ◌^◌, ◌++◌, [], ◌∷◌, ℕ, List, drop, map, length, IfOk, OnOk};
ghost use Rattle.gib_core.specs.{declared.atom.Ended.{Ended as Pair}, Tree.{Term, is_variable as variable}, Parts.{function_term}};
ghost use Rattle.gib_core.specs.{Ending.{has_ended, packed_from, all_packed}, EndedSet.{number_of, HasNumbers}};

use crate::atom::{Atom, Ended, Variable};
use crate::program::CoreFunction;
use gib_base::{Memory, Name};
use std::alloc::{AllocError, Global};
use std::collections::BTreeSet;
use std::marker::Model;

/// Whether an atom is the variable.
pub fn is_variable(x: Variable, atom: Atom) -> bool
    ensures { result ≡ variable x atom }
{
    match atom {
        Atom::Variable(y) => y.0 == x.0,
        Atom::Whole(_) => false,
        Atom::Truth(_) => false,
    }
}

/// The number of a packed parameter.
fn number_of(function: u32, place: u32) -> u64
    ensures { result ≡ number_of function place }
{
    (function as u64) * 4294967296 + place as u64
}

/// Adds the number of a parameter to those of others.
#[tactic(auto, using(crate::proofs::EndedNumbers::numbers_with))]
fn add_pair(numbers: &mut BTreeSet<u64>, pair: Ended) -> Result<(), Memory>
    ensures { OnOk result ((others : List Pair) → HasNumbers numbers.old others → HasNumbers numbers.new (pair ∷ others)) }
{
    numbers.insert(number_of(pair.function, pair.place))?;
    Ok(())
}

/// The numbers of parameters.
fn numbers_of(alloc: Global, pairs: &[Ended]) -> Result<BTreeSet<u64>, Memory>
    ensures { IfOk result (λ numbers. HasNumbers numbers pairs.now) }
{
    let mut numbers = BTreeSet::new(alloc);
    let mut i = pairs.len();
    'pairs: while i > 0 {
        i -= 1;
        add_pair(&mut numbers, pairs[i])?;
    }
    Ok(numbers)
}

/// Packed parameters, found in time that grows as the logarithm of how many they are.
#[derive(Drop)]
pub struct EndedSet {
    pairs: Vec<Ended>,
    numbers: BTreeSet<u64>,
}

impl Model for EndedSet {
    ghost use Rattle.std.specs.Prelude.{List};
    ghost use Rattle.gib_core.specs.{declared.atom.Ended.{Ended as Pair}, EndedSet.{HasNumbers}};

    ghost Value = { List Pair };

    ghost view = { λ s. s.pairs.items };

    ghost invariant = { λ s. HasNumbers s.numbers s.pairs.items };
}

impl EndedSet {
    ghost use Rattle.std.specs.Prelude.{◌≡◌, [], IfOk};
    ghost use Rattle.gib_core.specs.Ending.{has_ended, some_ended, call_ends};

    /// No parameter.
    pub fn none(alloc: Global) -> EndedSet
        ensures { result ≡ [] }
    {
        EndedSet {
            pairs: Vec::new(alloc),
            numbers: BTreeSet::new(alloc),
        }
    }

    /// The set of these.
    pub(crate) fn make(alloc: Global, pairs: Vec<Ended>) -> Result<EndedSet, Memory>
        ensures { IfOk result (λ set. set ≡ pairs.items) }
    {
        let numbers = numbers_of(alloc, &pairs)?;
        Ok(EndedSet { pairs, numbers })
    }

    /// The parameters.
    pub(crate) fn pairs(&self) -> &[Ended]
        ensures { result.now ≡ self.now }
    {
        &self.pairs
    }

    /// Whether a function's parameter at a place is one of them.
    pub fn has(&self, function: Name, place: usize) -> bool
        ensures { result ≡ has_ended self.now function.0 place }
    {
        match u32::try_from(place) {
            Ok(place) => self.numbers.contains(&number_of(function.0, place)),
            Err(_) => false,
        }
    }

    /// Whether some parameter of a function is one of them.
    pub fn has_some(&self, function: Name) -> bool
        ensures { result ≡ some_ended self.now function.0 }
    {
        let mut rest = self.pairs();
        'pairs: while let [pair, after @ ..] = rest {
            if pair.function == function.0 {
                return true;
            }
            rest = after;
        }
        false
    }

    /// Whether a call with these arguments has the variable at one of them.
    pub fn has_among(&self, function: Name, arguments: &[Atom], z: Variable) -> bool
        ensures { result ≡ call_ends self.now function.0 0 arguments.now z }
    {
        let mut i = 0;
        'arguments: while i < arguments.len() {
            if is_variable(z, arguments[i]) && self.has(function, i) {
                return true;
            }
            i += 1;
        }
        false
    }
}

/// Adds the packed parameters of a function.
fn push_packed(pairs: &mut Vec<Ended>, function: &CoreFunction) -> Result<(), Memory>
    ensures { OnOk result (pairs.new.items ≡ pairs.old.items ++ packed_from function.now.name.0 0 function.now.parameters.items) }
{
    let mut i = 0;
    'parameters: while i < function.parameters.len() {
        let Ok(place) = u32::try_from(i) else {
            return Err(AllocError);
        };
        if !function.parameters[i].is_scalar() {
            pairs.push(Ended {
                function: function.name.0,
                place,
            })?;
        }
        i += 1;
    }
    Ok(())
}

/// The packed parameters of functions.
pub(crate) fn packed_parameters(
    alloc: Global,
    functions: &[CoreFunction],
) -> Result<Vec<Ended>, Memory>
    ensures { IfOk result (λ pairs. (f : ℕ → Term) → pairs.items ≡ all_packed (map (function_term f) functions.now)) }
{
    let mut pairs = Vec::new(alloc);
    let mut i = 0;
    'functions: while i < functions.len() {
        push_packed(&mut pairs, &functions[i])?;
        i += 1;
    }
    Ok(pairs)
}

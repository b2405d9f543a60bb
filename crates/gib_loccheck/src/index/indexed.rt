//! Cores whose functions are found by their names, and whose constructors with offsets by their numbers, in
//! constant time.

ghost use Rattle.std.specs.Prelude.{◌≡◌, IfOk};
ghost use Rattle.gib_core.specs.{Parts.{core_of}, Ending.{ended}, NamedFunctions.{IsIndex}};
ghost use Rattle.gib_loccheck.specs.Indexing.{AreFlagged};

use crate::index::flagging::list_flags;
use gib_base::{ByNumber, Memory, Name};
use gib_core::ended::EndedSet;
use gib_core::named::{function_named, list_places};
use gib_core::settle::ended_parameters;
use gib_core::{Core, CoreFunction, CoreMain, Terms};
use gib_types::{ConId, TypeTable};
use std::alloc::Global;
use std::marker::Model;

/// The places of a core's functions by the numbers of their names, the flags of its constructors, and its ended parameters.
fn index_of(
    alloc: Global,
    core: &Core,
) -> Result<(ByNumber<usize>, ByNumber<bool>, EndedSet), Memory>
    ensures { IfOk result (λ made. IsIndex core.now.functions made.0 × (AreFlagged core.now.offsets made.1 × (made.2 ≡ ended (core_of core.now)))) }
{
    let places = list_places(alloc, core.functions())?;
    let flags = list_flags(alloc, core.offsets())?;
    let ended = ended_parameters(alloc, core, core.marked())?;
    Ok((places, flags, ended))
}

/// A core, with the places of its functions by the numbers of their names, and with flags of the constructors
/// whose heads store offsets.
#[derive(Drop)]
pub struct IndexedCore {
    core: Core,
    places: ByNumber<usize>,
    flags: ByNumber<bool>,
    ended: EndedSet,
}

impl Model for IndexedCore {
    ghost use Rattle.std.specs.Prelude.{◌≡◌};
    ghost use Rattle.gib_core.specs.{Parts.{Parts, core_of}, Ending.{ended as ended_of}, NamedFunctions.{IsIndex}};
    ghost use Rattle.gib_loccheck.specs.Indexing.{AreFlagged};

    ghost Value = { Parts };

    ghost view = { λ i. i.core };

    ghost invariant = { λ i. IsIndex i.core.functions i.places × (AreFlagged i.core.offsets i.flags × (i.ended ≡ ended_of (core_of i.core))) };
}

impl IndexedCore {
    ghost use Rattle.std.specs.Prelude.{◌≡◌, IfOk, MatchOption, None, Some};
    ghost use Rattle.gib_core.specs.{Arena.{term_of}, Meaning.{function_at}, Parts.{AreInside, core_of, function_term}, Ending.{ended as ended_of}};
    ghost use Rattle.gib_core.specs.Rules.{is_one_of};

    /// A core with its index.
    pub fn make(alloc: Global, core: Core) -> Result<IndexedCore, Memory>
        ensures { IfOk result (λ indexed. indexed ≡ core) }
    {
        let (places, flags, ended) = index_of(alloc, &core)?;
        Ok(IndexedCore {
            core,
            places,
            flags,
            ended,
        })
    }

    /// The core without its index.
    pub fn into_core(self) -> Core
        ensures { result ≡ self }
    {
        self.core
    }

    /// The table of the program's types and constructors.
    pub fn types(&self) -> &TypeTable
        ensures { result.now ≡ self.now.table }
    {
        self.core.types()
    }

    /// The terms of all bodies.
    pub fn terms(&self) -> &Terms
        ensures { result.now ≡ self.now.terms }
    {
        self.core.terms()
    }

    /// The functions but main, in the order of the text.
    pub fn functions(&self) -> &[CoreFunction]
        ensures value { result.now ≡ self.now.functions }
        ensures inside { AreInside self.now }
    {
        self.core.functions()
    }

    /// Main.
    pub fn main(&self) -> CoreMain
        ensures value { result ≡ self.now.main }
        ensures inside { AreInside self.now }
    {
        self.core.main()
    }

    /// Whether the heads of a constructor store offsets.
    pub fn has_offsets(&self, constructor: ConId) -> bool
        ensures { result ≡ is_one_of self.now.offsets constructor }
    {
        self.flags.get(constructor.0).is_some()
    }

    /// The ended parameters.
    pub fn ended(&self) -> &EndedSet
        ensures { result.now ≡ ended_of (core_of self.now) }
    {
        &self.ended
    }

    /// The function of a name: the first one; None exactly where no function has it.
    pub fn function(&self, name: Name) -> Option<&CoreFunction>
        ensures { MatchOption result (function_at (core_of self.now).functions name.0 ≡ None) (λ f. function_at (core_of self.now).functions name.0 ≡ Some (function_term (term_of self.now.terms) f.now)) }
    {
        match function_named(self.core.functions(), &self.places, name) {
            None => None,
            Some(function) => Some(function),
        }
    }
}

//! A core with what lowering asks of it.

ghost use Rattle.std.specs.Prelude.{IfOk};
ghost use Rattle.gib_lower.specs.Sources.{IsSource};

use crate::counts::count_of;
use crate::functions::{list_numbers, number_at};
use gib_base::{ByNumber, Memory, Name};
use gib_core::{Core, CoreFunction, CoreMain, EndedSet, Terms, ended_parameters};
use gib_types::{Layouts, TypeTable};
use std::alloc::Global;
use std::marker::Model;

/// How the heads of a core lie in memory, the numbers of its functions, its ended parameters, and how many functions there are.
fn asked_of(alloc: Global, core: &Core) -> Result<(Layouts, ByNumber<u32>, EndedSet, u32), Memory>
    ensures { IfOk result (λ made. IsSource core.now made.0 made.1 made.2 made.3) }
{
    let count = count_of(core.functions())?;
    let numbers = list_numbers(alloc, core.functions(), count)?;
    let ended = ended_parameters(alloc, core, core.marked())?;
    let layouts = Layouts::make(alloc, core.types(), core.offsets())?;
    Ok((layouts, numbers, ended, count))
}

/// A core, how its heads lie in memory, the numbers of its functions by their names, and its ended parameters.
#[derive(Drop)]
pub(crate) struct Source {
    core: Core,
    layouts: Layouts,
    numbers: ByNumber<u32>,
    ended: EndedSet,
    /// How many functions there are besides main: main's number.
    count: u32,
}

impl Model for Source {
    ghost use Rattle.gib_core.specs.Parts.{Parts};
    ghost use Rattle.gib_lower.specs.Sources.{IsSource};

    ghost Value = { Parts };

    ghost view = { λ s. s.core };

    ghost invariant = { λ s. IsSource s.core s.layouts s.numbers s.ended s.count };
}

impl Source {
    ghost use Rattle.std.specs.Prelude.{◌≡◌, IfOk};
    ghost use Rattle.gib_core.specs.{Parts.{AreInside, core_of}, Ending.{ended}, Low.{laid_of, function_number}};

    /// A core with what lowering asks of it.
    pub(crate) fn make(alloc: Global, core: Core) -> Result<Source, Memory>
        ensures { IfOk result (λ source. source ≡ core) }
    {
        let (layouts, numbers, ended, count) = asked_of(alloc, &core)?;
        Ok(Source {
            core,
            layouts,
            numbers,
            ended,
            count,
        })
    }

    /// How the heads of its constructors lie in memory.
    pub(crate) fn layouts(&self) -> &Layouts
        ensures { result.now ≡ laid_of (core_of self.now) }
    {
        &self.layouts
    }

    /// Its types.
    pub(crate) fn types(&self) -> &TypeTable
        ensures { result.now ≡ self.now.table }
    {
        self.core.types()
    }

    /// Whether its calls and fields were marked by ends.
    pub(crate) fn marked(&self) -> bool
        ensures { result ≡ (core_of self.now).marked }
    {
        self.core.marked()
    }

    /// Its ended parameters.
    pub(crate) fn ended(&self) -> &EndedSet
        ensures { result.now ≡ ended (core_of self.now) }
    {
        &self.ended
    }

    /// The terms of all bodies.
    pub(crate) fn terms(&self) -> &Terms
        ensures value { result.now ≡ self.now.terms }
        ensures inside { AreInside self.now }
    {
        self.core.terms()
    }

    /// The functions but main, in the order of the text.
    pub(crate) fn functions(&self) -> &[CoreFunction]
        ensures value { result.now ≡ self.now.functions }
        ensures inside { AreInside self.now }
    {
        self.core.functions()
    }

    /// Main.
    pub(crate) fn main(&self) -> CoreMain
        ensures value { result ≡ self.now.main }
        ensures inside { AreInside self.now }
    {
        self.core.main()
    }

    /// The number of the first function of a name.
    pub(crate) fn number(&self, name: Name) -> u32
        ensures { result ≡ function_number (core_of self.now).functions name.0 }
    {
        number_at(&self.numbers, name, self.count)
    }

    /// The core, and how its heads lie in memory.
    pub(crate) fn into_parts(self) -> (Core, Layouts)
        ensures core { result.0 ≡ self }
        ensures layouts { result.1 ≡ laid_of (core_of self) }
    {
        (self.core, self.layouts)
    }
}

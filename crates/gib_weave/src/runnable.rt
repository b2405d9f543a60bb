//! A core with its code, prepared for running.

use gib_code::Code;
use gib_core::{Core, Lowered};
use gib_machine::Prepared;
use std::alloc::Global;
use std::marker::Model;

/// A core with its code, which is prepared once for a run.
#[derive(Drop)]
pub struct Runnable<'a> {
    lowered: &'a Lowered,
    code: Prepared<'a>,
}

impl<'a> Model for Runnable<'a> {
    ghost use Rattle.std.specs.Prelude.{◌≡◌};
    ghost use Rattle.gib_core.specs.LoweredParts.{LoweredParts};

    ghost Value = { LoweredParts };

    ghost view = { λ r. r.lowered.now };

    ghost invariant = { λ r. r.code ≡ r.lowered.now.code };
}

impl<'a> Runnable<'a> {
    ghost use Rattle.std.specs.Prelude.{◌≡◌};
    ghost use Rattle.gib_core.specs.{Parts.{core_of}, Rules.{AreBuilt}, Low.{IsLowered}, Fits.{AllFit}};
    ghost use Rattle.gib_code.specs.Program.{Runs};

    /// Prepares the code of a core.
    pub fn make(alloc: Global, lowered: &'a Lowered) -> Runnable<'a>
        ensures { result ≡ lowered.entry.now }
    {
        let code = Prepared::make(alloc, lowered.code());
        Runnable { lowered, code }
    }

    /// The core with its code.
    pub fn lowered(&self) -> &Lowered
        ensures { result.now ≡ self.now }
    {
        self.lowered
    }

    /// The core, which meets the build rules.
    pub fn core(&self) -> &Core
        ensures value { result.now ≡ self.now.core }
        ensures built { AreBuilt (core_of self.now.core) }
        ensures fits { AllFit (core_of self.now.core) }
    {
        self.lowered.core()
    }

    /// The code, which is that of the core, and which a machine can run.
    pub fn code(&self) -> &Code
        ensures value { result.now ≡ self.now.code }
        ensures lowered { IsLowered (core_of self.now.core) self.now.code }
        ensures runs { Runs self.now.code }
    {
        self.lowered.code()
    }

    /// The code as it is prepared.
    pub fn prepared(&self) -> &Prepared<'a>
        ensures { result.now ≡ self.now.code }
    {
        &self.code
    }
}

//! A core with its code.

use crate::checked::Checked;
use crate::program::Core;
use gib_code::Code;
use std::marker::Model;

/// A core that meets the build rules, with its code, which a machine can run.
#[derive(Drop)]
pub struct Lowered {
    checked: Checked,
    code: Code,
}

impl Model for Lowered {
    ghost use Rattle.gib_core.specs.LoweredParts.{LoweredParts, IsWhole};

    ghost Value = { LoweredParts };

    ghost view = { λ l. record { core = l.checked; code = l.code } };

    ghost invariant = { λ l. IsWhole l.checked l.code };
}

impl Lowered {
    ghost use Rattle.std.specs.Prelude.{◌≡◌};
    ghost use Rattle.gib_core.specs.{Parts.{core_of}, Rules.{AreBuilt}, Low.{IsLowered}, Fits.{AllFit}};
    ghost use Rattle.gib_code.specs.Program.{Runs};

    /// A core with its code.
    pub fn make(checked: Checked, code: Code) -> Lowered
        requires lowered { IsLowered (core_of checked) code }
        requires fits { AllFit (core_of checked) }
        requires runs { Runs code }
        ensures { result ≡ record { core = checked; code = code } }
    {
        Lowered { checked, code }
    }

    /// The core, which meets the build rules.
    pub fn core(&self) -> &Core
        ensures value { result.now ≡ self.now.core }
        ensures built { AreBuilt (core_of self.now.core) }
        ensures fits { AllFit (core_of self.now.core) }
    {
        self.checked.core()
    }

    /// The code, which is that of the core, and which a machine can run.
    pub fn code(&self) -> &Code
        ensures value { result.now ≡ self.now.code }
        ensures lowered { IsLowered (core_of self.now.core) self.now.code }
        ensures runs { Runs self.now.code }
    {
        &self.code
    }
}

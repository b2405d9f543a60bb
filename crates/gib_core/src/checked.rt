//! Cores that meet the build rules.

use crate::program::Core;
use std::marker::Model;

/// A core that meets the build rules.
#[derive(Drop)]
pub struct Checked {
    core: Core,
}

impl Model for Checked {
    ghost use Rattle.gib_core.specs.{Parts.{Parts, core_of}, Rules.{AreBuilt}};

    ghost Value = { Parts };

    ghost view = { λ c. c.core };

    ghost invariant = { λ c. AreBuilt (core_of c.core) };
}

impl Checked {
    ghost use Rattle.std.specs.Prelude.{◌≡◌};
    ghost use Rattle.gib_core.specs.{Parts.{core_of}, Rules.{AreBuilt}};

    /// A core that breaks no build rule.
    pub fn make(core: Core) -> Checked
        requires { AreBuilt (core_of core) }
        ensures { result ≡ core }
    {
        Checked { core }
    }

    /// The core, which meets the build rules.
    pub fn core(&self) -> &Core
        ensures value { result.now ≡ self.now }
        ensures built { AreBuilt (core_of self.now) }
    {
        &self.core
    }

    /// The core, which meets the build rules.
    pub fn into_core(self) -> Core
        ensures value { result ≡ self }
        ensures built { AreBuilt (core_of self) }
    {
        self.core
    }
}

//! Why a core is refused.

use gib_base::Memory;
use std::alloc::AllocFailed;
use thiserror::Error;

/// Why a core was not checked to its end, or is not built.
#[derive(Clone, Copy, Debug, PartialEq, Eq, Error)]
pub enum LocFault {
    /// Want of memory, or more terms than a number counts.
    #[error("out of memory")]
    Memory,
    /// The build rule that is broken first, and the number of its term in the order of the text, from 0
    /// through the program. `gib_core::Rule` names the rules and their numbers.
    #[error("build rule {0} is broken at term {1}")]
    Rule(u8, u64),
}

impl From<Memory> for LocFault {
    ghost use Rattle.std.specs.Prelude.{◌≡◌};
    ghost use Rattle.gib_loccheck.specs.declared.fault.LocFault.TheVariants as fault;

    ghost from_gives = { λ _ e. e ≡ fault.Memory };

    fn from(_error: Memory) -> LocFault {
        LocFault::Memory
    }
}

impl<T: Drop> From<AllocFailed<T>> for LocFault {
    ghost use Rattle.std.specs.Prelude.{◌≡◌};
    ghost use Rattle.gib_loccheck.specs.declared.fault.LocFault.TheVariants as fault;

    ghost from_gives = { λ _ e. e ≡ fault.Memory };

    fn from(_failed: AllocFailed<T>) -> LocFault {
        LocFault::Memory
    }
}

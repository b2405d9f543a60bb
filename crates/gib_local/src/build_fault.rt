//! Why no core is built.

use gib_base::Memory;
use std::alloc::AllocFailed;
use thiserror::Error;

/// Why a text makes no core.
#[derive(Clone, Copy, Debug, PartialEq, Eq, Error)]
pub enum BuildFault {
    #[error("out of memory")]
    Memory,
    /// The first byte of an `@`, a region or a location that is not the one that is due; of a type whose `@` is missing.
    #[error("another place is due at byte {0}")]
    Place(u32),
}

impl From<Memory> for BuildFault {
    ghost use Rattle.std.specs.Prelude.{◌≡◌};
    ghost use Rattle.gib_local.specs.declared.build_fault.BuildFault.TheVariants as fault;

    ghost from_gives = { λ _ e. e ≡ fault.Memory };

    fn from(_error: Memory) -> BuildFault {
        BuildFault::Memory
    }
}

impl<T: Drop> From<AllocFailed<T>> for BuildFault {
    ghost use Rattle.std.specs.Prelude.{◌≡◌};
    ghost use Rattle.gib_local.specs.declared.build_fault.BuildFault.TheVariants as fault;

    ghost from_gives = { λ _ e. e ≡ fault.Memory };

    fn from(_failed: AllocFailed<T>) -> BuildFault {
        BuildFault::Memory
    }
}

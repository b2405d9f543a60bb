//! Why reading stops.

ghost use Rattle.std.specs.Prelude.{◌≡◌};

use std::alloc::{AllocError, AllocFailed};

/// Why tokens could not be read. A place is told by how many tokens are left from there on.
#[derive(Clone, Copy)]
pub enum Stop {
    /// Want of memory.
    Memory,
    /// Nothing that is read so goes on with this token; or with none left, tokens are missing.
    At(usize),
    /// What begins here is nested too deep.
    Nested(usize),
}

impl From<AllocError> for Stop {
    ghost use Rattle.gib_reads.specs.declared.stop.Stop.TheVariants.{Memory};

    ghost from_gives = { λ _ e. e ≡ Memory };

    fn from(_failed: AllocError) -> Stop {
        Stop::Memory
    }
}

impl<T: Drop> From<AllocFailed<T>> for Stop {
    ghost use Rattle.gib_reads.specs.declared.stop.Stop.TheVariants.{Memory};

    ghost from_gives = { λ _ e. e ≡ Memory };

    fn from(_failed: AllocFailed<T>) -> Stop {
        Stop::Memory
    }
}

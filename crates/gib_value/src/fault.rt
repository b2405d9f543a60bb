//! Why bytes are no value text.

ghost use Rattle.std.specs.Prelude.{◌≡◌};
ghost use Rattle.gib_value.specs.declared.fault.TextFault.TheVariants.{Memory as memory_fault};

use std::alloc::{AllocError, AllocFailed};
use thiserror::Error;

/// Why bytes are no text of a value of the type that is due.
#[derive(Clone, Copy, Debug, PartialEq, Eq, Error)]
pub enum TextFault {
    #[error("out of memory")]
    Memory,
    /// The place of the first byte of the first token that can't stand there. A byte at which no token
    /// begins can't stand; where tokens are missing it is the length of the text.
    #[error("token not expected at byte {0}")]
    At(u64),
}

impl From<AllocError> for TextFault {
    ghost from_gives = { λ _ e. e ≡ memory_fault };

    fn from(_failed: AllocError) -> TextFault {
        TextFault::Memory
    }
}

impl<T: Drop> From<AllocFailed<T>> for TextFault {
    ghost from_gives = { λ _ e. e ≡ memory_fault };

    fn from(_failed: AllocFailed<T>) -> TextFault {
        TextFault::Memory
    }
}

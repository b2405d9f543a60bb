//! Why a text has no tokens.

ghost use Rattle.std.specs.Prelude.{◌≡◌};

use gib_base::{Memory, NameFault};
use std::alloc::AllocFailed;
use thiserror::Error;

/// Why a text has no tokens. A place is counted in bytes from the start of the text.
#[derive(Clone, Copy, Debug, PartialEq, Eq, Error)]
pub enum LexFault {
    #[error("out of memory")]
    Memory,
    /// The text has more bytes than a source text may have.
    #[error("the text is too long")]
    Long,
    /// At this place no token, comment or blank begins.
    #[error("no token begins at byte {0}")]
    At(u32),
    /// The number that begins at this place is larger than the greatest literal.
    #[error("number too large at byte {0}")]
    Big(u32),
    /// The text has more names than it may have.
    #[error("the text has too many names")]
    Many,
}

impl<T: Drop> From<AllocFailed<T>> for LexFault {
    ghost use Rattle.gib_lex.specs.declared.fault.LexFault.TheVariants.{Memory};

    ghost from_gives = { λ _ e. e ≡ Memory };

    fn from(_failed: AllocFailed<T>) -> LexFault {
        LexFault::Memory
    }
}

impl From<Memory> for LexFault {
    ghost use Rattle.gib_lex.specs.declared.fault.LexFault.TheVariants.{Memory};

    ghost from_gives = { λ _ e. e ≡ Memory };

    fn from(_failed: Memory) -> LexFault {
        LexFault::Memory
    }
}

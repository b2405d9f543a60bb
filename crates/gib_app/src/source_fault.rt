//! Why a source is no program.

use gib_check::Kind;
use thiserror::Error;

/// Why a source is no program. A place counts bytes of the source from 0.
#[derive(Clone, Copy, Debug, PartialEq, Eq, Error)]
pub enum SourceFault {
    /// It has more bytes than a source may have.
    #[error("longer than 1048576 bytes")]
    Long,
    /// At this place no token, comment or blank begins.
    #[error("no token begins at byte {0}")]
    BadCharacter(u32),
    /// The number at this place is larger than the greatest literal.
    #[error("the number at byte {0} is too large")]
    BigNumber(u32),
    /// It has more names than it may have.
    #[error("more than 65535 names")]
    ManyNames,
    /// The token at this place may not stand there; the source's length where tokens are missing.
    #[error("the token at byte {0} may not stand there")]
    Syntax(u32),
    /// The expression at this place is nested too deep.
    #[error("nested too deep at byte {0}")]
    Nested(u32),
    /// The first broken rule of typing, and where the thing that breaks it begins.
    #[error("a rule of typing is broken at byte {1}")]
    Broken(Kind, u32),
    /// The use at this place is over a limit on copies.
    #[error("a use is over a limit at byte {0}")]
    OverLimit(u32),
    /// Where places are written out: at this byte another region or location is due.
    #[error("another place is due at byte {0}")]
    Misplaced(u32),
    /// Where places are written out: the core breaks this build rule, at the term of this number.
    #[error("build rule {0} is broken at term {1}")]
    BreaksRule(u8, u64),
}

//! Why bytes are no program whose places are written out.

use gib_check::Fault;
use thiserror::Error;

/// Why bytes are no program whose places are written out. A place is counted in bytes from the start of the text.
#[derive(Clone, Copy, Debug, PartialEq, Eq, Error)]
pub enum LocalFault {
    #[error("out of memory")]
    Memory,
    /// The text has more bytes than a source text may have.
    #[error("the text is too long")]
    Long,
    /// At this place no token, comment or blank begins.
    #[error("no token begins at byte {0}")]
    At(u32),
    /// The number that begins at this place is larger than the greatest literal.
    #[error("number too large at byte {0}")]
    Big(u32),
    /// The text has more names than it may have.
    #[error("the text has too many names")]
    Many,
    /// The token at this place may not stand there; the text's length where tokens are missing.
    #[error("the token at byte {0} may not stand there")]
    Syntax(u32),
    /// The term at this place is nested too deep.
    #[error("nested too deep at byte {0}")]
    Nested(u32),
    /// The first broken rule of names, counts and limits.
    #[error("{0}")]
    Broken(Fault),
    /// At this place another region or location is due.
    #[error("another place is due at byte {0}")]
    Place(u32),
    /// This build rule is broken at the term of this number.
    #[error("build rule {0} is broken at term {1}")]
    Rule(u8, u64),
}

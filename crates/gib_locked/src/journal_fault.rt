//! Why a text is no journal.

use thiserror::Error;

/// Why a text is no journal.
#[derive(Clone, Copy, Debug, PartialEq, Eq, Error)]
pub enum JournalFault {
    /// The first line, from 1 on, that cannot stand in a journal.
    #[error("bad journal at line {0}")]
    Line(u64),
    #[error("out of memory")]
    Memory,
}

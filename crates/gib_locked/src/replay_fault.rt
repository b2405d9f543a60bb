//! Why a journal does not lead a weave to its end.

use thiserror::Error;

/// Why a journal does not lead a weave to its end.
#[derive(Clone, Copy, Debug, PartialEq, Eq, Error)]
pub enum ReplayFault {
    /// An event of the line of this number is not enabled. The first line of all is 1.
    #[error("event not enabled at line {0}")]
    NotNow(u64),
    /// An event draws, and all chunks are drawn.
    #[error("no chunk is left")]
    Full,
    /// All events happened, and the root has not ended.
    #[error("journal not ended")]
    Open,
    #[error("out of memory")]
    Memory,
}

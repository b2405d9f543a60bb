//! The constructors of a value that are open while its text is read.

use gib_types::ConId;

/// A constructor that is open, the number of its next field, and the place of its next scalar's bytes.
#[derive(Clone, Copy)]
pub(crate) struct Open {
    pub(crate) con: ConId,
    pub(crate) next: usize,
    pub(crate) place: usize,
}

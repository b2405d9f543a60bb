//! What is found by a number in constant time.

pub(crate) mod bound;
mod entry;
mod flagging;
pub(crate) mod indexed;
pub(crate) mod scope;

//! A value, but for its fields.

use gib_types::ConId;

/// A value: a number, a truth value, or a constructor with `count` fields, which stand in a heap one after
/// the other, the first one at the place `first`.
#[derive(Clone, Copy)]
pub enum Node {
    Whole(i64),
    Truth(bool),
    Con {
        con: ConId,
        count: u32,
        first: usize,
    },
}

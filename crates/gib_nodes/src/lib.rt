//! Trees as nodes in a vector, each behind its parts.
#![tactic(auto)]

mod arena;

pub use arena::{Arena, Layered};

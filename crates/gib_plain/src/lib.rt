//! The meaning, run: a program on a value, by a machine with stacks of its own.
#![tactic(auto)]

mod lookup;
mod machine;
mod operators;
mod outcome;
mod stack;
mod turns;

pub use machine::plain;
pub use outcome::Outcome;

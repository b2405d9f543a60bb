//! The parser: tokens to programs, by the grammar.
#![tactic(auto)]

mod declarations;
mod expressions;
pub mod law;
mod parsing;
mod phrases;
mod repeated;
mod types;

pub use gib_reads::fault::{self, ParseFault};
pub use parsing::parse;

//! Source text to tokens.
#![tactic(auto)]

mod fault;
pub mod laws;
mod lexer;
mod pieces;
mod tokens;

pub use fault::LexFault;
pub use lexer::{lex, lex_in};
pub use tokens::Tokens;

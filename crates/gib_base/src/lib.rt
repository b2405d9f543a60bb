//! Names, places and tokens of a source text, and the limits of the language.
#![tactic(auto)]

mod by_number;
pub mod letters;
pub mod limits;
mod name;
mod reversed;
mod text;
mod texts;
pub mod token;

pub use by_number::ByNumber;
pub use name::{Name, NameFault, Names};
pub use reversed::Reversed;
use std::alloc::AllocError;
pub use text::{push_decimal, push_signed};
pub use texts::{Copied, TextPiece, Texts};

/// Want of memory, the one answer that no contract ties to a cause.
pub type Memory = AllocError;

/// Where something stands in the source text: the place of its first byte, and the place after its last one.
#[derive(Clone, Copy, Debug, PartialEq, Eq)]
pub struct Span {
    pub start: u32,
    pub end: u32,
}

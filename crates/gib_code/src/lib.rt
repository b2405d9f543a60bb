//! The instructions of the machine, the code of a program, and its listing.
#![tactic(auto)]

mod answer;
mod code;
mod instruction;
pub mod names;
mod text;

pub use answer::{Answer, Side};
pub use code::Code;
pub use instruction::{AnswerType, Arm, Entry, Fork, Instr, Kind, Operand, Targets};
pub use text::listing;

//! The reader of LoCal text, of programs with their places written out: the tree, its grammar, and the terms that are read.
#![tactic(auto)]

mod declarations;
pub mod law;
mod leaves;
mod lines;
mod parsing;
mod phrases;
mod source;
mod terms;
mod text;
mod tree;

pub use lines::{BindingNode, LineArm, LineId, LineNode, Lines, Side};
pub use parsing::read;
pub use text::{FunctionLines, LocalText, MainLines};
pub use tree::{Location, Mark, Operand, Way};

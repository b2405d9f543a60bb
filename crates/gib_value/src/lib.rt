//! Values as trees, and their texts.
#![tactic(auto)]

mod context;
mod examples;
mod fault;
mod heap;
pub mod law;
mod node;
mod read;
mod todo;
mod value;
mod write;

pub use fault::TextFault;
pub use heap::Heap;
pub use node::Node;
pub use read::read_text;
pub use value::Value;
pub use write::write_text;

//! Region memory that threads share: chunks of bytes, each put once, by the pass that owns its chunk.
//!
//! An arena is a table of words; whoever puts or reads has a pass of it. What a pass owns, knows and saw is its view, which
//! is no data at run time. One rule ties the words to all views; each call is one step of the table (`join` two, `draw` some
//! tries), keeps the rule, and tells its caller what the rule says of the pass. No call but `arena` and `SoleMem::make` takes
//! memory, none waits.
#![tactic(auto)]

mod arena_mem;
mod calls;
mod law;
mod memory;
mod rule;
mod sole_mem;
mod view;

pub use arena_mem::ArenaMem;
pub use calls::{arena, close};
pub use law::{names_tell, rule_says};
pub use memory::{Arena, Pass};
pub use sole_mem::SoleMem;
pub use view::{Branch, Holding, View};

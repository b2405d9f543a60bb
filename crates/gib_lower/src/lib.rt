//! From cores to code.
#![tactic(auto)]

mod atoms;
mod counts;
mod emitted;
mod ending;
mod examples;
mod fields;
mod functions;
mod law;
mod numbering;
mod opening;
mod parts;
mod program;
mod source;
mod stack;
mod telling;
mod told;
mod walk;

pub use examples::{example_of_main, example_of_parts, examples_by_ends};
pub use law::lowering_gives_its_code;
pub use program::lower;

//! The core: terms with their places, between the source and the code.
#![tactic(auto)]

mod atom;
mod by_variable;
mod checked;
mod clock;
mod cost_examples;
mod division_examples;
pub mod ended;
mod examples;
pub mod known;
pub mod law;
mod literals;
mod lowered;
mod marking;
mod mentions;
pub mod named;
mod node;
mod part_types;
mod parts_examples;
mod piece;
mod print;
mod program;
mod rule;
mod rule_examples;
mod scope;
pub mod settle;
mod tally;
mod text;
mod written;

pub use atom::{Access, AccessMode, Atom, Ended, Kind, Variable};
pub use by_variable::{number_of, set_number};
pub use checked::Checked;
pub use clock::Clock;
pub use ended::EndedSet;
pub use lowered::Lowered;
pub use mentions::push_binders;
pub use node::{Binding, BoundParts, BoundSide, BoundTerm, Branch, Node, TermId, Terms};
pub use part_types::{MOST_PARTS, PartTypes, Unpacked};
pub use print::print_core;
pub use program::{Core, CoreFunction, CoreMain, CoreResult};
pub use rule::Rule;
pub use scope::{Behind, Bound, Known, Slot};
pub use settle::ended_parameters;
pub use tally::{Tally, uses_of};

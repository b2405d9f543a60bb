//! From LoCal text to a core: the check of its names, and the builder.
#![tactic(auto)]

mod bodies;
mod build_fault;
mod builder;
mod building;
mod counting;
mod datas;
mod destination;
mod fault;
mod heads;
mod known;
pub mod law;
mod making;
mod names;
mod naming;
mod place;
mod scopes;
mod source;
mod steps;
mod unused;

pub use bodies::build_core;
pub use build_fault::BuildFault;
pub use counting::check_core;
pub use destination::is_flat;
pub use fault::LocalFault;
pub use known::Known;
pub use making::{Located, local};
pub use names::check_names;
pub use place::{Meant, Place};
pub use source::Source;

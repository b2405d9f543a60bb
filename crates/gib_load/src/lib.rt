//! Loads a checked payload into region memory.
#![tactic(auto)]

pub(crate) mod due;
pub mod law;
mod loading;
mod run;
mod running;

pub use loading::{LoadFault, load};

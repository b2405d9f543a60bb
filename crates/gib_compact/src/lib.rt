//! Packs the value of a run that stands in region memory into a file, by several workers.
#![tactic(auto)]

mod count;
mod cut;
mod fault;
mod packed_file;
mod packing;
mod parts;
mod payload;
mod piece;
mod pieces;
mod share;
mod walk;
mod write;

pub use fault::CompactFault;
pub use packed_file::compact;
pub use parts::{alone, gather, in_front};

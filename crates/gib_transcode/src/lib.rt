//! Makes the packed file of a value out of its text, in one pass over the text and without the value.
#![tactic(auto)]

mod file;
mod front;
mod opened;
mod put;
mod walk;

pub use file::{transcode, transcode_first};

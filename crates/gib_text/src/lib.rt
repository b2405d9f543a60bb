//! Makes the text of the value of a run that stands in region memory, by several workers.
#![tactic(auto)]

mod share;
mod sharing;
mod text;

pub use text::text_by;

//! Values in region memory: what stands there, and how it is read.
#![tactic(auto)]

pub mod law;
pub mod read;
mod root;

pub use gib_mem::{INDIRECTION, POINTER_BYTES, REDIRECT};
pub use read::{
    field_by_offset, follow, pass_redirects, skip, tag_at, truth_at, whole_at, word_at,
};
pub use root::Root;

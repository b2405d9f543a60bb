//! Copies of a program for the types with which its declarations are used.
#![tactic(auto)]

mod asks;
mod binding;
mod context;
mod copier;
mod copy_names;
mod copy_texts;
mod copying;
mod declaring;
mod entries;
pub mod find;
pub mod found;
mod law;
mod naming;
mod plain;
mod plain_names;
mod program_copy;
mod reading;
mod scene;
mod search;
pub mod source;

pub use copy_names::CopyNames;
pub use copy_texts::texts;
pub use found::MonoFault;
pub use law::{
    copies_are_shown, copies_are_typed, copies_mean_the_same, examples, names_are_given,
    plain_copies_mean_the_same, plain_programs_are_copied_as_they_stand,
    plain_programs_are_their_own, plain_programs_mean_the_same, uses_are_asked,
};
pub use program_copy::{MonoProgram, mono};

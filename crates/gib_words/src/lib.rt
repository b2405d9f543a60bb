//! The words of a command line: what they ask for, as a plan of files and a job.
#![tactic(auto)]

mod commands;
pub mod matches;
pub mod plan;
pub mod sample;
mod word_laws;
pub mod words;

pub use word_laws::{examples, words_ask_where_taken};

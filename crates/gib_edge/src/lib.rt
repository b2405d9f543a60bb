//! The outside world: files by name, bytes that are put, the words of a command line, and points where workers meet.
#![tactic(auto)]

pub mod command_line;
pub mod dir_shelf;
pub mod mem_shelf;
pub mod mem_sink;
pub mod outside;
pub mod piece_counts;
pub mod std_sink;
mod streams;

use std::alloc::AllocError;

/// Want of memory, the one answer that no contract ties to a cause.
pub type Memory = AllocError;

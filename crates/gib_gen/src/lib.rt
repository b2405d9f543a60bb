//! Programs and inputs that are made of a number, to measure and to try with.
#![tactic(auto)]

ghost use Rattle.std.specs.Prelude.{◌≡◌, ◌%◌, IfOk};
ghost use Rattle.gib_gen.specs.Made.{source_text, grown, file_of};

mod described;
mod input;
mod law;
mod line;
mod source;

pub use described::{inputs_described_alike, programs_are_named};
use gib_base::Memory;
use input::file;
pub use law::{full_trees, made_is_program, tree_summary};
pub use line::summary;
use source::text;
use std::alloc::Global;

/// A program's text, and the packed file of an input for it.
#[derive(Drop)]
pub struct Made {
    pub source: Vec<u8>,
    pub input: Vec<u8>,
}

/// A program that maps a tree of numbers, and a full tree of so many levels below its root as its input. That it is a
/// typed program, and the tree an input for it, is `law::made_is_program`. Each level doubles the input's length, which is some
/// ten bytes a leaf.
///
/// # Errors
///
/// Want of memory.
pub fn make(alloc: Global, number: u32, levels: u8) -> Result<Made, Memory>
    ensures source { IfOk result (λ made. made.source.items ≡ source_text (number % 1000)) }
    ensures input { IfOk result (λ made. made.input.items ≡ file_of (grown levels number).tree) }
{
    let source = text(alloc, number % 1000)?;
    let input = file(alloc, number, levels)?;
    Ok(Made { source, input })
}

//! Makes and writes the files that a plan writes before it reads.

ghost use Rattle.std.specs.Prelude.{[], ◌∷◌, IfErr, OnOk};
ghost use Rattle.gib_app.specs.{Ending.{StaysAfter}, FirstWrites.{HasWritten, HasStuck}, Stopping.{answer_for}};
ghost use Rattle.gib_words.specs.{Kept.{plan_of}, Words.{first_writes}};

use crate::stop::Stop;
use gib_edge::outside::{Shelf, ShelfFault};
use gib_gen::make;
use gib_words::plan::{MadeNames, Options, Plan};
use std::alloc::Global;

/// Writes a file.
pub fn write_named<'a, S: Shelf>(
    alloc: Global,
    shelf: &mut S,
    name: &'a str,
    bytes: &[u8],
) -> Result<(), Stop<'a>>
    ensures written { OnOk result (HasWritten S.tells (S.view shelf.old) (S.view shelf.new) (record { name = name.entry.now; bytes = bytes.now } ∷ [])) }
    ensures stuck { IfErr result (HasStuck S.tells (S.view shelf.old) (S.view shelf.new) (record { name = name.entry.now; bytes = bytes.now } ∷ [])) }
    ensures same { IfErr result (λ stop. StaysAfter S.tells [] (S.view shelf.old).kept (S.view shelf.new).kept (answer_for stop).status) }
{
    match shelf.write(alloc, name, bytes) {
        Ok(()) => Ok(()),
        Err(ShelfFault::Failed) => Err(Stop::Unwritten(name)),
        Err(ShelfFault::Memory) => Err(Stop::Memory),
    }
}

/// Makes a source and an input of the numbers among the options, and writes them under these names, the source first.
fn write_made<'a, S: Shelf>(
    alloc: Global,
    shelf: &mut S,
    names: MadeNames<'a>,
    options: Options,
) -> Result<(), Stop<'a>>
    ensures written { OnOk result (HasWritten S.tells (S.view shelf.old) (S.view shelf.new)
        (first_writes options names.entry.source.now names.entry.input.now)) }
    ensures stuck { IfErr result (HasStuck S.tells (S.view shelf.old) (S.view shelf.new) (first_writes options names.entry.source.now names.entry.input.now)) }
{
    let made = match make(alloc, options.number, options.levels) {
        Ok(made) => made,
        Err(_) => return Err(Stop::Memory),
    };
    match write_named(alloc, shelf, names.source, &made.source) {
        Ok(()) => {}
        Err(stop) => return Err(stop),
    }
    match write_named(alloc, shelf, names.input, &made.input) {
        Ok(()) => Ok(()),
        Err(stop) => Err(stop),
    }
}

/// Makes and writes the files that a plan writes first.
///
/// # Errors
///
/// `Unwritten` where one of them could not be written; `Memory`.
pub fn write_first<'a, S: Shelf>(
    alloc: Global,
    shelf: &mut S,
    plan: Plan<'a>,
) -> Result<(), Stop<'a>>
    ensures written { OnOk result (HasWritten S.tells (S.view shelf.old) (S.view shelf.new) (plan_of plan.entry).first) }
    ensures stuck { IfErr result (HasStuck S.tells (S.view shelf.old) (S.view shelf.new) (plan_of plan.entry).first) }
{
    match plan.first {
        Some(names) => match write_made(alloc, shelf, names, plan.options) {
            Ok(()) => Ok(()),
            Err(stop) => Err(stop),
        },
        None => Ok(()),
    }
}

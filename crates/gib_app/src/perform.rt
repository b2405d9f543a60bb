//! Does a plan, up to what is printed.

ghost use Rattle.std.specs.Prelude.{◌≡◌, ◌⊎◌, ℕ, List, [], Some, option_map, IfOk, IfErr, OnOk};
ghost use Rattle.gib_app.specs.{Writes.{writes_of, job_writes}, FirstWrites.{HasWritten, HasStuck}, Ending.{StaysAfter}};
ghost use Rattle.gib_app.specs.{Performing.{IsHalfway, IsPerformed, IsUnperformed}, Kept.{file_of, packed_of}, Stopping.{answer_for}};
ghost use Rattle.gib_words.specs.{Kept.{plan_of}, Words.{asked}};

use crate::first::{write_first, write_named};
use crate::made::{End, Made};
use crate::make::make;
use crate::runtime::Runtime;
use crate::stop::Stop;
use gib_edge::outside::{Gate, Shelf};
use gib_words::plan::Plan;
use std::alloc::Global;
use std::sync::Wait;
use std::thread::Threads;

/// Writes a file under a name, where there are both.
fn write_file<'a, S: Shelf>(
    alloc: Global,
    shelf: &mut S,
    name: Option<&'a str>,
    file: &Option<Vec<u8>>,
) -> Result<(), Stop<'a>>
    ensures written { OnOk result (HasWritten S.tells (S.view shelf.old) (S.view shelf.new)
        (writes_of (option_map (λ bytes. bytes.items) file.now) (option_map (λ name. name.now) name.entry))) }
    ensures stuck { IfErr result (HasStuck S.tells (S.view shelf.old) (S.view shelf.new)
        (writes_of (option_map (λ bytes. bytes.items) file.now) (option_map (λ name. name.now) name.entry))) }
    ensures same { IfErr result (λ stop. StaysAfter S.tells [] (S.view shelf.old).kept (S.view shelf.new).kept (answer_for stop).status) }
    ensures named { IfErr result (λ _. (n : List ℕ) × (option_map (λ name. name.now) name.entry ≡ Some n)) }
    ensures there { IfErr result (λ _. (bytes : List ℕ) × (option_map (λ bytes. bytes.items) file.now ≡ Some bytes)) }
{
    let Some(name) = name else {
        return Ok(());
    };
    let Some(bytes) = file else {
        return Ok(());
    };
    match write_named(alloc, shelf, name, bytes) {
        Ok(()) => Ok(()),
        Err(stop) => Err(stop),
    }
}

/// Writes what a job made: its file, and then the packed file of its result, where there are such.
fn write_files<'a, S: Shelf>(
    alloc: Global,
    shelf: &mut S,
    plan: Plan<'a>,
    made: &Made,
) -> Result<(), Stop<'a>>
    ensures written { OnOk result (HasWritten S.tells (S.view shelf.old) (S.view shelf.new)
        (job_writes (plan_of plan.entry) (file_of made.now) (packed_of made.now))) }
    ensures stuck { IfErr result (HasStuck S.tells (S.view shelf.old) (S.view shelf.new)
        (job_writes (plan_of plan.entry) (file_of made.now) (packed_of made.now))) }
    ensures same { IfErr result (λ stop. StaysAfter S.tells [] (S.view shelf.old).kept (S.view shelf.new).kept (answer_for stop).status
        ⊎ IsHalfway S.tells (S.view shelf.old).kept (S.view shelf.new).kept (plan_of plan.entry)
        (file_of made.now) (packed_of made.now) (answer_for stop).status) }
{
    match write_file(alloc, shelf, plan.target, &made.file) {
        Ok(()) => {}
        Err(stop) => return Err(stop),
    }
    match write_file(alloc, shelf, plan.pack, &made.packed) {
        Ok(()) => Ok(()),
        Err(stop) => Err(stop),
    }
}

/// Does a plan that words ask for: its first writes are made; its job is done and the files that it makes are written, also where there is
/// no value to print.
///
/// # Errors
///
/// The first cause in this order: a file that is written first is not written; the source is not read, or is no program; the inputs
/// are not read, or are refused; a file is not written.
pub fn perform<'a, R: Threads + Wait + Sync, S: Shelf, G: Gate + Sync>(
    alloc: Global,
    runtime: Runtime<'_, R, G>,
    shelf: &mut S,
    plan: Plan<'a>,
) -> Result<End, Stop<'a>>
    requires asked { (words : List (List ℕ)) × (asked words ≡ Some (plan_of plan)) }
    ensures done { IfOk result (IsPerformed S.tells (S.view shelf.old) (S.view shelf.new) (plan_of plan.entry)) }
    ensures stop { IfErr result (IsUnperformed S.tells (S.view shelf.old) (S.view shelf.new) (plan_of plan.entry)) }
{
    match write_first(alloc, shelf, plan) {
        Ok(()) => {}
        Err(stop) => return Err(stop),
    }
    let made = match make(alloc, runtime, shelf, plan) {
        Ok(made) => made,
        Err(stop) => return Err(stop),
    };
    match write_files(alloc, shelf, plan, &made) {
        Ok(()) => Ok(made.end),
        Err(stop) => Err(stop),
    }
}

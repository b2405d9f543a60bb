//! Runs a core on a value that was loaded, to its end.

ghost use Rattle.std.specs.Prelude.{◌≡◌, ◌<◌, ◌≤◌, ◌-◌, ◌^◌, ℕ, List, length, true, Some, IfOk};
ghost use Rattle.gib_types.specs.Tree.{Datum};
ghost use Rattle.gib_core.specs.Parts.{core_of};
ghost use Rattle.gib_machine.specs.{Machine.{start_at}, Stepping.{with_tails}};
ghost use Rattle.gib_code.specs.Program.{Runs};
ghost use Rattle.gib_weave.specs.Running as spec;
ghost use Rattle.gib_weave.specs.{Running.{CanEnd, IsOutcome, IsStart, Kept, RunEnds, WantsMemory}, Starting.{root_start}};

use crate::steps::run_for;
use gib_base::Memory;
use gib_code::{Answer, Code};
use gib_core::Lowered;
use gib_machine::{Machine, Prepared, Turn};
use gib_mem::Mem;
use gib_packed::Root;
use gib_region::Tails;
use std::alloc::Global;
use thiserror::Error;

/// Why a run has no answer.
#[derive(Clone, Copy, Debug, PartialEq, Eq, Error)]
pub enum RunFault {
    /// Want of memory.
    #[error("out of memory")]
    Memory,
    /// It draws a chunk, and all are drawn.
    #[error("all chunks are drawn")]
    Full,
}

/// The word of main's parameter: an address, or a scalar's bits.
fn word_of(root: Root) -> u64
    ensures { result ≡ spec.word_of root }
{
    match root {
        Root::Whole(value) => value.cast_unsigned(),
        Root::Truth(value) => { if value { 1 } else { 0 } }
        Root::At(address) => address,
    }
}

/// The label of main's first instruction.
fn main_start(lowered: &Lowered) -> u32
    ensures { result ≡ start_at lowered.now.code.functions (length (core_of lowered.now.core).functions) }
{
    let code = lowered.code();
    let functions = code.functions();
    functions[functions.len() - 1].start
}

/// What the last turn makes of the run.
fn outcome_of(machine: &Machine, code: &Code, turn: Option<Turn>) -> Result<Answer, RunFault>
    requires { (tails : List ℕ) × CanEnd code.now (with_tails machine.now tails) turn }
    ensures { (tails : List ℕ) → IsOutcome code.now (with_tails machine.now tails) turn result }
{
    match turn {
        Some(Turn::Ended) => Ok(machine.ended_with(code)),
        Some(Turn::Full) => Err(RunFault::Full),
        Some(_) => unreachable!(),
        None => Err(RunFault::Memory),
    }
}

/// The machine of main, with the word of its parameter. It may nest so many calls, and so many forks.
///
/// # Errors
///
/// Want of memory.
pub fn root_machine(
    alloc: Global,
    lowered: &Lowered,
    root: Root,
    depth: u32,
    level: u32,
) -> Result<Machine, Memory>
    ensures { IfOk result (λ machine. (tails : List ℕ) → with_tails machine tails ≡ root_start (core_of lowered.now.core) lowered.now.code (spec.word_of root) depth level tails) }
{
    let words = [word_of(root)];
    Machine::make(
        alloc,
        lowered.code(),
        main_start(lowered),
        &words,
        depth,
        level,
    )
}

/// Runs a core on the value of the root, with at most `depth` calls nested and each `par` in place, over a memory from which nobody
/// else draws. The answer is what the core means.
///
/// # Errors
///
/// `Full`: it draws a chunk, and all are drawn. `Memory`: want of memory, before the first step; or 2^64 - 1 steps were made, and it has
/// not ended.
pub fn run<M: Mem>(
    alloc: Global,
    lowered: &Lowered,
    mem: &mut M,
    tails: Tails,
    root: Root,
    depth: u32,
) -> Result<Answer, RunFault>
    requires alone { (M.view mem.old).alone ≡ true }
    requires starts { (d : Datum) × IsStart lowered.now root tails (M.view mem.old) d }
    ensures ends { (d : Datum) → IsStart lowered.now root tails (M.view mem.old) d → RunEnds lowered.now depth d (M.view mem.old) (M.view mem.new) result }
    ensures keeps { Kept (M.view mem.old) (M.view mem.new) }
    ensures wants { WantsMemory lowered.now.code (root_start (core_of lowered.now.core) lowered.now.code (spec.word_of root) depth 0 tails) (M.view mem.old) (2 ^ 64 - 1) (M.view mem.new) result }
{
    lowered.core();
    let code = lowered.code();
    match root_machine(alloc, lowered, root, depth, 0) {
        Ok(machine) => {
            let mut machine = machine;
            let mut tails = tails;
            let prepared = Prepared::make(alloc, code);
            let turn = run_for(&mut machine, &prepared, mem, &mut tails, u64::MAX);
            outcome_of(&machine, code, turn)
        }
        Err(_) => Err(RunFault::Memory),
    }
}

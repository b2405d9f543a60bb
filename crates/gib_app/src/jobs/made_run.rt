//! `gen`: prints a line about what a program that was made means on an input that was made.

ghost use Rattle.gib_base.specs.Texts.{TextsView};
ghost use Rattle.std.specs.Prelude.{◌≡◌, ◌≤◌, ℕ, List, length, IfOk, IfErr, None};
ghost use Rattle.gib_gen.specs.Summary.{summary_line};
ghost use Rattle.gib_syntax.specs.Tree.{ProgramTree};
ghost use Rattle.gib_app.specs.{Jobs.{Sums}, Kept.{EndsBy, file_of, names_in, tree_in}, MachineRun.{SomeStandsIn, IsMeantBy}, Remains.{IsLeft, SumsMemory}};
ghost use Rattle.gib_app.specs.Stops.{IsRunStop};

use crate::machine_run::{Ran, RunEnd, run_packed};
use crate::made::{End, Made};
use crate::printing::no_value;
use crate::request::Request;
use crate::runtime::Runtime;
use crate::stop::Stop;
use gib_arena::SoleMem;
use gib_base::Memory;
use gib_base::limits::FILE_BYTES;
use gib_edge::outside::Gate;
use gib_gen::summary;
use gib_mem::Mem;
use gib_words::plan::Options;
use std::alloc::Global;
use std::sync::Wait;
use std::thread::Threads;

/// The line about what a run leaves.
///
/// # Errors
///
/// Want of memory.
fn line_of(alloc: Global, ran: &mut Ran<SoleMem>, options: Options) -> Result<Vec<u8>, Memory>
    requires stands { (names : TextsView) × SomeStandsIn names ran.old.lowered (⟦<SoleMem as Mem>⟧.view ran.old.memory) ran.old.root }
    ensures { (p : ProgramTree) (names : TextsView) (depth : ℕ) (input : List ℕ) (s : IsMeantBy p names depth input ran.old)
        → IfOk result (λ line. line.items ≡ summary_line options.number options.levels s.result) }
{
    let layouts = ran.lowered.code().layouts();
    summary(
        alloc,
        options.number,
        options.levels,
        &mut ran.memory,
        layouts,
        ran.root,
    )
}

/// What is printed of what a run leaves.
fn line_made(alloc: Global, mut ran: Ran<SoleMem>, options: Options) -> Result<Made, Stop<'static>>
    requires stands { (names : TextsView) × SomeStandsIn names ran.lowered (⟦<SoleMem as Mem>⟧.view ran.memory) ran.root }
    ensures made { (p : ProgramTree) (names : TextsView) (input : List ℕ) (s : IsMeantBy p names options.depth input ran)
        → IfOk result (λ made. EndsBy (file_of made) made.end (Sums p names options input)) }
    // It is about the value in the memory that the run left.
    ensures region { (p : ProgramTree) (names : TextsView) (input : List ℕ) → IsLeft p names options input (record { ran = ran; names = names })
        → IfOk result (λ made. SumsMemory p names options input made.end) }
    ensures memory { IfErr result (λ stop. stop ≡ Stop.Memory) }
    ensures alone { IfOk result (λ made. made.packed ≡ None) }
{
    match line_of(alloc, &mut ran, options) {
        Ok(line) => Ok(Made {
            file: None,
            packed: None,
            end: End::Prints(line),
        }),
        Err(_) => Err(Stop::Memory),
    }
}

/// The line about what a program means on the bytes of an input, within the depth, in memory of so many chunks, by so many workers.
///
/// # Errors
///
/// `Input` where the bytes are no packed file of a value of the type of main's parameter.
pub fn made_run<R: Threads + Wait + Sync, G: Gate + Sync>(
    alloc: Global,
    runtime: Runtime<'_, R, G>,
    request: Request<'_>,
) -> Result<Made, Stop<'static>>
    requires short { length request.input.now ≤ FILE_BYTES }
    ensures made { IfOk result (λ made. EndsBy (file_of made) made.end (Sums
        (tree_in request.entry) (names_in request.entry) request.entry.options request.entry.input.now)) }
    // It is about the value in the region memory that the run left.
    ensures region { IfOk result (λ made. SumsMemory (tree_in request.entry) (names_in request.entry) request.entry.options request.entry.input.now made.end) }
    ensures stop { IfErr result (IsRunStop (tree_in request.entry) (names_in request.entry) request.entry.input.now) }
    ensures alone { IfOk result (λ made. made.packed ≡ None) }
{
    let end = match run_packed(
        alloc,
        runtime,
        &request.compiled.typed,
        &request.compiled.names,
        request.input,
        request.options,
    ) {
        Ok(end) => end,
        Err(stop) => return Err(stop),
    };
    match end {
        RunEnd::Value(ran) => line_made(alloc, ran, request.options),
        RunEnd::NoValue(reason) => Ok(no_value(reason)),
    }
}

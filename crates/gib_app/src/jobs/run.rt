//! `run`: prints what a program means on an input.

ghost use Rattle.std.specs.Prelude.{◌≡◌, ◌≤◌, ℕ, List, length, None, IfOk, IfErr};
ghost use Rattle.gib_value.specs.Text.{AreHeld};
ghost use Rattle.gib_syntax.specs.{Declarations.{output_type}, Tree.{ProgramTree}, Parts.{program_of}};
ghost use Rattle.gib_app.specs.{Cores.{layouts_asked}, Jobs.{Runs, RunsBoth}, Kept.{EndsBy, EndsByBoth, file_of, packed_of}};
ghost use Rattle.gib_app.specs.{MachineRun.{IsMeant, IsMeantAs, IsMeantBy}, Remains.{ComesOfMemory, IsLeft}, Replaying.{IsImageFile}};
ghost use Rattle.gib_app.specs.Stops.{IsReady, IsRunStop};
ghost use Rattle.gib_words.specs.Ranges.{AreOfRun};

use crate::compile::Compiled;
use crate::imaging::{image_alone, with_text};
use crate::machine_run::{RunEnd, run_packed};
use crate::made::{End, Made, Reason, Valued};
use crate::packed_result::packed_result;
use crate::printing::no_value;
use crate::runtime::Runtime;
use crate::stop::Stop;
use crate::text_result::printed_by;
use gib_arena::SoleMem;
use gib_base::limits::FILE_BYTES;
use gib_compact::CompactFault;
use gib_edge::outside::Gate;
use gib_mem::Mem;
use gib_types::Ty;
use gib_words::plan::Options;
use std::alloc::Global;
use std::sync::Wait;
use std::thread::Threads;

/// What a run makes that leaves a value: its image too, where that is asked for.
fn finish<R: Threads + Sync>(
    alloc: Global,
    threads: &R,
    value: Valued,
    options: Options,
) -> Result<Made, Stop<'static>>
    requires names { AreHeld value.ran.lowered.code.laid.table value.names.short }
    requires stands { IsMeant value }
    requires few { (⟦<SoleMem as Mem>⟧.view value.ran.memory).limit ≤ 65536 }
    ensures made { (p : ProgramTree) (input : List ℕ) → value.ran.lowered.code.laid ≡ layouts_asked options p
        → (⟦<SoleMem as Mem>⟧.view value.ran.memory).limit ≤ options.chunks
        → (s : IsMeantBy p value.names options.depth input value.ran)
        → IfOk result (λ made. EndsBy (file_of made) made.end (Runs p value.names options input)) }
    // It comes from the memory that the run left.
    ensures region { (p : ProgramTree) (input : List ℕ) → IsLeft p value.names options input value
        → IfOk result (λ made. ComesOfMemory p value.names options input (file_of made) made.end) }
    ensures memory { IfErr result (λ stop. stop ≡ Stop.Memory) }
    ensures alone { IfOk result (λ made. made.packed ≡ None) }
{
    if !options.image {
        return Ok(printed_by(alloc, threads, value, options.workers));
    }
    with_text(alloc, value, true, None)
}

/// What a run makes whose result would have too long a packed file: the image of its memory, where that is asked for.
fn without_packed(alloc: Global, value: Valued, image: bool) -> Result<Made, Stop<'static>>
    requires stands { IsMeant value }
    requires few { (⟦<SoleMem as Mem>⟧.view value.ran.memory).limit ≤ 65536 }
    ensures image { (p : ProgramTree) (depth : ℕ) (input : List ℕ) (s : IsMeantBy p value.names depth input value.ran)
        → IfOk result (λ made. IsImageFile image value.ran.lowered.code.laid (output_type p)
        (⟦<SoleMem as Mem>⟧.view value.ran.memory) value.ran.root s.result (file_of made)) }
    ensures long { IfOk result (λ made. (made.end ≡ End.NoValue Reason.Long) × (packed_of made ≡ None)) }
    ensures memory { IfErr result (λ stop. stop ≡ Stop.Memory) }
{
    match image_alone(alloc, value, image) {
        Ok(file) => {
            let mut made = no_value(Reason::Long);
            made.file = file;
            Ok(made)
        }
        Err(_) => Err(Stop::Memory),
    }
}

/// What a run makes that leaves a value of this type: its image and its packed file too, where these are asked for. The packed file is made before
/// the text, which may then be of any length; and the text is made before anything is written, so that memory cannot run out for it behind a write.
fn finish_run<R: Threads + Sync>(
    alloc: Global,
    threads: &R,
    value: Valued,
    ty: Ty,
    options: Options,
) -> Result<Made, Stop<'static>>
    requires names { AreHeld value.ran.lowered.code.laid.table value.names.short }
    requires stands { IsMeantAs ty value }
    requires few { (⟦<SoleMem as Mem>⟧.view value.ran.memory).limit ≤ 65536 }
    ensures made { (p : ProgramTree) (input : List ℕ) → ty ≡ output_type p → value.ran.lowered.code.laid ≡ layouts_asked options p
        → (⟦<SoleMem as Mem>⟧.view value.ran.memory).limit ≤ options.chunks
        → (s : IsMeantBy p value.names options.depth input value.ran)
        → IfOk result (λ made. EndsByBoth (file_of made) (packed_of made) made.end (RunsBoth p value.names options input)) }
    // It comes from the memory that the run left.
    ensures region { (p : ProgramTree) (input : List ℕ) → IsLeft p value.names options input value
        → IfOk result (λ made. ComesOfMemory p value.names options input (file_of made) made.end) }
    ensures memory { IfErr result (λ stop. stop ≡ Stop.Memory) }
{
    if !options.packs {
        return finish(alloc, threads, value, options);
    }
    let (packed, value) = packed_result(alloc, threads, value, ty, options.workers);
    match packed {
        Ok(packed) => with_text(alloc, value, options.image, Some(packed)),
        Err(fault) => match fault {
            CompactFault::Long => without_packed(alloc, value, options.image),
            CompactFault::Memory => Err(Stop::Memory),
        },
    }
}

/// What a program means on the bytes of an input, within the depth, in memory of so many chunks, by so many workers.
///
/// # Errors
///
/// `Input` where the bytes are no packed file of a value of the type of main's parameter.
pub fn run<R: Threads + Wait + Sync, G: Gate + Sync>(
    alloc: Global,
    runtime: Runtime<'_, R, G>,
    compiled: Compiled,
    options: Options,
    input: &[u8],
) -> Result<Made, Stop<'static>>
    requires ready { IsReady (program_of compiled.typed) compiled.names }
    requires short { length input.now ≤ FILE_BYTES }
    requires range { AreOfRun options }
    ensures made { IfOk result (λ made. EndsByBoth (file_of made) (packed_of made) made.end
        (RunsBoth (program_of compiled.typed) compiled.names options input.now)) }
    // What is printed stands in the region memory that the run left, in as many chunks as are asked for, and where an image is asked for, it is
    // of that memory.
    ensures region { IfOk result (λ made. ComesOfMemory (program_of compiled.typed) compiled.names options input.now (file_of made) made.end) }
    ensures stop { IfErr result (IsRunStop (program_of compiled.typed) compiled.names input.now) }
{
    let threads = runtime.threads;
    let Compiled { typed, names } = compiled;
    let ty = typed.output_type();
    let ended = run_packed(alloc, runtime, &typed, &names, input, options);
    // No way out has the program to drop.
    drop(typed);
    let end = match ended {
        Ok(end) => end,
        Err(stop) => return Err(stop),
    };
    match end {
        RunEnd::Value(ran) => finish_run(alloc, threads, Valued { ran, names }, ty, options),
        RunEnd::NoValue(reason) => Ok(no_value(reason)),
    }
}

//! The text of what a run leaves, by several workers.

ghost use Rattle.std.specs.Prelude.{◌≡◌, ◌≤◌, ℕ, List, None, false, IfOk};
ghost use Rattle.gib_value.specs.Text.{AreHeld};
ghost use Rattle.gib_syntax.specs.Tree.{ProgramTree};
ghost use Rattle.gib_words.specs.declared.plan.Options.{Options as OptionValues};
ghost use Rattle.gib_app.specs.{Cores.{layouts_asked}, Jobs.{Runs}, Kept.{EndsBy, StandsAgain, file_of}, MachineRun.{IsMeant, IsMeantBy}};
ghost use Rattle.gib_app.specs.{Remains.{ComesOfMemory, IsLeft}, Running.{text_line}};

use crate::machine_run::Ran;
use crate::made::{End, Made, Valued};
use crate::printing::only_prints;
use gib_arena::SoleMem;
use gib_base::Memory;
use gib_mem::Mem;
use gib_print::Printing;
use gib_text::text_by;
use std::alloc::Global;
use std::thread::Threads;

/// The text of what a run leaves and a line feed, by so many workers. The value comes back, with the memory in which it stands.
///
/// # Errors
///
/// Want of memory.
fn text_result<R: Threads + Sync>(
    alloc: Global,
    threads: &R,
    value: Valued,
    workers: u32,
) -> (Result<Vec<u8>, Memory>, Valued)
    requires names { AreHeld value.ran.lowered.code.laid.table value.names.short }
    requires stands { IsMeant value }
    ensures text { (p : ProgramTree) (depth : ℕ) (input : List ℕ) (s : IsMeantBy p value.names depth input value.ran)
        → IfOk result.0 (λ text. text.items ≡ text_line p value.names s.result) }
    ensures again { StandsAgain value result.1 }
{
    let Valued { ran, names } = value;
    let Ran {
        lowered,
        memory,
        root,
    } = ran;
    let printing = Printing {
        alloc,
        layouts: lowered.code().layouts(),
        names: &names,
    };
    let (text, memory) = text_by(threads, printing, memory, root, workers);
    let ran = Ran {
        lowered,
        memory,
        root,
    };
    (text, Valued { ran, names })
}

/// What a run makes whose value is printed: its text, where several workers make it; by one worker, and where there is no memory for
/// all of the text, the value, which is then printed from region memory.
pub fn printed_by<R: Threads + Sync>(
    alloc: Global,
    threads: &R,
    value: Valued,
    workers: u32,
) -> Made
    requires names { AreHeld value.ran.lowered.code.laid.table value.names.short }
    requires stands { IsMeant value }
    ensures made { (p : ProgramTree) (options : OptionValues) (input : List ℕ) → value.ran.lowered.code.laid ≡ layouts_asked options p
        → options.image ≡ false → (⟦<SoleMem as Mem>⟧.view value.ran.memory).limit ≤ options.chunks
        → (s : IsMeantBy p value.names options.depth input value.ran)
        → EndsBy (file_of result) result.end (Runs p value.names options input) }
    // It comes from the memory that the run left.
    ensures region { (p : ProgramTree) (options : OptionValues) (input : List ℕ) → options.image ≡ false → IsLeft p value.names options input value
        → ComesOfMemory p value.names options input (file_of result) result.end }
    ensures alone { result.packed ≡ None }
{
    if workers <= 1 {
        return Made {
            file: None,
            packed: None,
            end: End::Value(value),
        };
    }
    let (text, value) = text_result(alloc, threads, value, workers);
    match text {
        Ok(text) => only_prints(text),
        Err(_) => Made {
            file: None,
            packed: None,
            end: End::Value(value),
        },
    }
}

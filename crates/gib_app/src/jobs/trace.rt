//! `trace`: prints what a program means on an input, and makes the journal of a run by workers.

ghost use Rattle.std.specs.Prelude.{◌≡◌, ◌≤◌, ℕ, List, length, IfOk, IfErr, None};
ghost use Rattle.gib_value.specs.Text.{AreHeld};
ghost use Rattle.gib_syntax.specs.Tree.{ProgramTree};
ghost use Rattle.gib_words.specs.{declared.plan.Options.{Options as OptionValues}, Ranges.{AreOfRun}};
ghost use Rattle.gib_app.specs.{Cores.{layouts_asked}, Jobs.{Traces}, Kept.{EndsBy, file_of, names_in, tree_in}, Stops.{IsReady, IsRunStop}};
ghost use Rattle.gib_app.specs.{MachineRun.{SomeStandsIn, StandsIn}, Replaying.{IsTrace}, Workers.{IsTraced}};

use crate::imaging::text_of;
use crate::machine_run::{Ran, ran_of};
use crate::made::{End, Made, Reason};
use crate::printing::of_stop;
use crate::request::Request;
use crate::runtime::Runtime;
use crate::stop::Stop;
use crate::tracing::{TracedRun, trace_packed};
use gib_base::Texts;
use gib_base::limits::FILE_BYTES;
use gib_edge::outside::Gate;
use gib_locked::{Traced, write_journal};
use gib_mem::{Mem, PlainMem};
use std::alloc::Global;
use std::sync::Wait;
use std::thread::Threads;

/// What is printed of what such a run leaves, with the text of its journal.
fn with_journal(
    alloc: Global,
    mut ran: Ran<PlainMem>,
    names: &Texts,
    journal: Vec<u8>,
) -> Result<Made, Stop<'static>>
    requires names { AreHeld ran.lowered.code.laid.table names.now.short }
    requires stands { SomeStandsIn names.now ran.lowered (⟦<PlainMem as Mem>⟧.view ran.memory) ran.root }
    ensures made { (p : ProgramTree) (options : OptionValues) (input : List ℕ) → IsTrace p names.now options input journal.items
        → StandsIn p names.now options.depth input ran.lowered (⟦<PlainMem as Mem>⟧.view ran.memory) ran.root
        → IfOk result (λ made. EndsBy (file_of made) made.end (Traces p names.now options input)) }
    ensures memory { IfErr result (λ stop. stop ≡ Stop.Memory) }
    ensures alone { IfOk result (λ made. made.packed ≡ None) }
{
    match text_of(alloc, &mut ran, names) {
        Ok(text) => Ok(Made {
            file: Some(journal),
            packed: None,
            end: End::Prints(text),
        }),
        Err(_) => Err(Stop::Memory),
    }
}

/// What such a run leaves: its journal, and the text of its value or why there is none.
fn left_of(alloc: Global, run: TracedRun, names: &Texts) -> Result<Made, Stop<'static>>
    requires names { AreHeld run.lowered.code.laid.table names.now.short }
    requires traced { (p : ProgramTree) × (options : OptionValues) × (input : List ℕ)
        × IsTraced p names.now options input run.traced.journal.settings run.traced.journal.lines.all.items
        (⟦<PlainMem as Mem>⟧.view run.traced.memory) run.traced.answer
        × (run.lowered.code.laid ≡ layouts_asked options p) }
    ensures made { (p : ProgramTree) (options : OptionValues) (input : List ℕ)
        → IsTraced p names.now options input run.traced.journal.settings run.traced.journal.lines.all.items
        (⟦<PlainMem as Mem>⟧.view run.traced.memory) run.traced.answer
        → run.lowered.code.laid ≡ layouts_asked options p → IfOk result (λ made. EndsBy (file_of made) made.end (Traces p names.now options input)) }
    ensures memory { IfErr result (λ stop. stop ≡ Stop.Memory) }
    ensures alone { IfOk result (λ made. made.packed ≡ None) }
{
    let TracedRun { lowered, traced } = run;
    let Traced {
        answer,
        memory,
        journal,
    } = traced;
    let Ok(file) = write_journal(alloc, &journal) else {
        return Err(Stop::Memory);
    };
    match ran_of(lowered, memory, answer) {
        Ok(ran) => with_journal(alloc, ran, names, file),
        Err(why) => Ok(Made {
            file: Some(file),
            packed: None,
            end: End::NoValue(Reason::Meant(why)),
        }),
    }
}

/// What a program means on the bytes of an input, within the depth, by workers over one lock, and the journal of what happened. It is made
/// too where the program means no value.
///
/// # Errors
///
/// `Input` where the bytes are no packed file of a value of the type of main's parameter.
pub fn trace<R: Threads + Wait + Sync, G: Gate + Sync>(
    alloc: Global,
    runtime: Runtime<'_, R, G>,
    request: Request<'_>,
) -> Result<Made, Stop<'static>>
    requires ready { IsReady (tree_in request) (names_in request) }
    requires short { length request.input.now ≤ FILE_BYTES }
    requires range { AreOfRun request.options }
    ensures made { IfOk result (λ made. EndsBy (file_of made) made.end (Traces
        (tree_in request.entry) (names_in request.entry) request.entry.options request.entry.input.now)) }
    ensures stop { IfErr result (IsRunStop (tree_in request.entry) (names_in request.entry) request.entry.input.now) }
    ensures alone { IfOk result (λ made. made.packed ≡ None) }
{
    match trace_packed(
        alloc,
        runtime,
        &request.compiled.typed,
        &request.compiled.names,
        request.input,
        request.options,
    ) {
        Ok(run) => left_of(alloc, run, &request.compiled.names),
        Err(stop) => of_stop(stop),
    }
}

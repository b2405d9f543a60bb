//! Runs a program by workers over one lock, and keeps the journal of what happened.

ghost use Rattle.std.specs.Prelude.{◌≡◌, ◌≤◌, length, false, IfOk, IfErr, MatchOption};
ghost use Rattle.gib_types.specs.Tree.{Datum};
ghost use Rattle.gib_file.specs.Packed.{Packed};
ghost use Rattle.gib_core.specs.{Cost.{run_cost}, Parts.{core_of}, Tight.{Tight}};
ghost use Rattle.gib_locked.specs.Limits.{are_settings};
ghost use Rattle.gib_lower.specs.Lowering.{lower_program};
ghost use Rattle.gib_syntax.specs.Parts.{program_of};
ghost use Rattle.gib_app.specs.{Cores.{core_asked, layouts_asked}, Replaying.{IsSetBy}, Workers.{IsEndBy, IsTraced, IsTraceStop, IsWorkersStop, engine_of}};
ghost use Rattle.gib_words.specs.Ranges.{AreOfRun};

use crate::loading::load_input;
use crate::lowering::lowered;
use crate::made::Reason;
use crate::packed::survey_input;
use crate::runtime::Runtime;
use crate::stop::Stop;
use gib_base::Texts;
use gib_base::limits::FILE_BYTES;
use gib_check::Typed;
use gib_core::Lowered;
use gib_edge::outside::Gate;
use gib_file::Survey;
use gib_load::LoadFault;
use gib_locked::{Settings, Traced, run_loaded};
use gib_mem::{Mem, PlainMem};
use gib_weave::RunFault;
use gib_words::plan::Options;
use std::alloc::Global;
use std::sync::Wait;
use std::thread::Threads;

/// What a run by workers leaves: the code that ran, and what the workers hand back.
#[derive(Drop)]
pub struct TracedRun {
    pub lowered: Lowered,
    pub traced: Traced,
}

/// What workers start with; none exactly where an option is past its limits.
fn settings_of(options: Options) -> Option<Settings>
    ensures { MatchOption result (are_settings options.depth options.chunks options.fork ≡ false) (IsSetBy options) }
{
    Settings::make(options.depth, options.chunks, options.fork, options.access)
}

/// Runs the code on the value of a survey by workers, in a memory of its own.
fn trace_survey<R: Threads + Wait + Sync, G: Gate + Sync>(
    alloc: Global,
    runtime: Runtime<'_, R, G>,
    lowered: &Lowered,
    survey: Survey<'_>,
    options: Options,
) -> Result<Traced, Stop<'static>>
    requires table { survey.table ≡ lowered.now.code.laid.table }
    requires ty { survey.ty ≡ (core_of lowered.now.core).main.parameter }
    requires range { AreOfRun options }
    ensures ends { IfOk result (λ made. (v : Datum) → Packed survey.entry.table survey.entry.ty v survey.entry.bytes
        → IsEndBy (engine_of lowered.now) v made.journal.settings made.journal.lines.all.items (⟦<PlainMem as Mem>⟧.view made.memory) made.answer) }
    ensures set { IfOk result (λ made. IsSetBy options made.journal.settings) }
    ensures limit { IfOk result (λ made. (⟦<PlainMem as Mem>⟧.view made.memory).limit ≡ options.chunks) }
    ensures stop { IfErr result (λ stop. (v : Datum) → Packed survey.entry.table survey.entry.ty v survey.entry.bytes
        → IsWorkersStop (Tight options.chunks (run_cost (core_of lowered.now.core) options.depth options.fork v)) stop) }
{
    let _packed = survey.payload();
    let Some(settings) = settings_of(options) else {
        unreachable!()
    };
    let loaded = match load_input(alloc, lowered, survey, options.chunks) {
        Ok(loaded) => loaded,
        Err(LoadFault::Full) => return Err(Stop::NoValue(Reason::Full)),
        Err(LoadFault::Memory) => return Err(Stop::Memory),
    };
    match run_loaded(
        runtime.threads,
        alloc,
        lowered,
        loaded,
        settings,
        options.workers,
        runtime.gate,
    ) {
        Ok(traced) => Ok(traced),
        Err(RunFault::Full) => Err(Stop::NoValue(Reason::Full)),
        Err(RunFault::Memory) => Err(Stop::Memory),
    }
}

/// Runs a program on the bytes of a packed file by so many workers over one lock, with at most so many calls and forks nested, in memory of
/// so many chunks. The answer is what the program means, whatever the workers do, and the events of the journal lead to it again.
///
/// # Errors
///
/// `Input` where the bytes are no packed file of a value of the type of main's parameter; else `NoValue(Full)` where so many chunks may
/// not be enough. `Memory`: want of memory.
pub fn trace_packed<R: Threads + Wait + Sync, G: Gate + Sync>(
    alloc: Global,
    runtime: Runtime<'_, R, G>,
    typed: &Typed,
    names: &Texts,
    file: &[u8],
    options: Options,
) -> Result<TracedRun, Stop<'static>>
    requires short { length file.now ≤ FILE_BYTES }
    requires range { AreOfRun options }
    ensures ends { IfOk result (λ run. IsTraced (program_of typed.now) names.now options file.now run.traced.journal.settings run.traced.journal.lines.all.items
        (⟦<PlainMem as Mem>⟧.view run.traced.memory) run.traced.answer) }
    // It is the code of the program's core that ran, in a memory of so many chunks.
    ensures code { IfOk result (λ run. run.lowered.code ≡ lower_program (core_asked options (program_of typed.now))) }
    ensures limit { IfOk result (λ run. (⟦<PlainMem as Mem>⟧.view run.traced.memory).limit ≡ options.chunks) }
    // The heads lie as those of the program's core.
    ensures laid { IfOk result (λ run. run.lowered.code.laid ≡ layouts_asked options (program_of typed.now)) }
    ensures stop { IfErr result (IsTraceStop (program_of typed.now) names.now options file.now) }
{
    let survey = match survey_input(alloc, typed, names, file) {
        Ok(survey) => survey,
        Err(stop) => return Err(stop),
    };
    let _packed = survey.payload();
    let lowered = match lowered(alloc, typed, options.access) {
        Ok(lowered) => lowered,
        Err(_) => return Err(Stop::Memory),
    };
    match trace_survey(alloc, runtime, &lowered, survey, options) {
        Ok(traced) => Ok(TracedRun { lowered, traced }),
        Err(stop) => Err(stop),
    }
}

//! Runs a program by one worker or more, from the bytes of a packed file to a root in region memory, and prints from there.

ghost use Rattle.std.specs.Prelude.{◌≡◌, ◌≤◌, ◌<◌, ◌+◌, ℕ, List, length, IfOk, IfErr, OnOk, IsErrOf, MatchResult, Ok, Err};
ghost use Rattle.gib_edge.specs.Causes.{Rose, Appends, AppendsPart, PutsPieces, PutsSomePieces};
ghost use Rattle.gib_types.specs.Tree.{Datum};
ghost use Rattle.gib_mem.specs.Memory.{Memory};
ghost use Rattle.gib_value.specs.Text.{AreHeld};
ghost use Rattle.gib_file.specs.Packed.{Packed};
ghost use Rattle.gib_syntax.specs.{Declarations.{output_type}, Meaning.{run}, Parts.{program_of}, Tree.{ProgramTree}};
ghost use Rattle.gib_core.specs.{LoweredParts.{LoweredParts}, Numbering.{AreNumbered}, Parts.{core_of}};
ghost use Rattle.gib_lower.specs.Lowering.{lower_program};
ghost use Rattle.gib_weave.specs.Running.{IsStart, Kept};
ghost use Rattle.gib_pool.specs.Runs.{IsRun};
ghost use Rattle.gib_app.specs.{Cores.{core_asked, layouts_asked}, Jobs.{run_forks}, Running.{IsInput, text_line}, Replaying.{root_in}};
ghost use Rattle.gib_app.specs.MachineRun.{StandsIn, SomeStandsIn, IsRunEnd, RunsFor, IsRootOf, Lacks, EndsWith, OnEnd, OnRan, ended, program_cost};
ghost use Rattle.gib_app.specs.{MachineRun.{LeavesRoot, LeavesNone}, Stops.{IsRunStop}};

use crate::lowering::lowered;
use crate::made::Reason;
use crate::packed::{survey_input, survey_typed};
use crate::runtime::Runtime;
use crate::stop::Stop;
use gib_arena::SoleMem;
use gib_base::Texts;
use gib_base::limits::FILE_BYTES;
use gib_check::Typed;
use gib_code::Answer;
use gib_core::{Checked, Lowered};
use gib_edge::outside::{Gate, Sink};
use gib_file::{Survey, one_file};
use gib_load::{LoadFault, load};
use gib_lower::lower;
use gib_mem::{CHUNK, Mem};
use gib_packed::Root;
use gib_pool::{Config, Loaded, run_by};
use gib_print::{PrintFault, print_at};
use gib_region::Tails;
use gib_weave::{RunFault, run};
use gib_words::plan::Options;
use std::alloc::Global;
use std::sync::Wait;
use std::thread::Threads;

/// What a run leaves: the code with the layouts of its heads, the region memory, and the root in it for which the result
/// stands.
#[derive(Drop)]
pub struct Ran<M> {
    pub lowered: Lowered,
    pub memory: M,
    pub root: Root,
}

/// Why a run leaves no root.
#[derive(Clone, Copy)]
enum RunStop {
    NoValue(Reason),
    Memory,
}

/// How the run of a program ends: with what it leaves, or without a value.
#[derive(Drop)]
pub enum RunEnd {
    Value(Ran<SoleMem>),
    NoValue(Reason),
}

/// The root that an answer of the machine is, or why there is none.
fn root_in(answer: Answer) -> Result<Root, gib_types::Reason>
    ensures { result ≡ root_in answer }
{
    match answer {
        Answer::Whole(value) => Ok(Root::Whole(value)),
        Answer::Truth(value) => Ok(Root::Truth(value)),
        Answer::At(address) => Ok(Root::At(address)),
        // main gives one value
        Answer::Parts(_) => Err(gib_types::Reason::Deep),
        Answer::NoValue(why) => Err(why),
    }
}

/// What a run leaves that ended with this answer, or why there is no value.
pub fn ran_of<M: Drop>(
    lowered: Lowered,
    memory: M,
    answer: Answer,
) -> Result<Ran<M>, gib_types::Reason>
    ensures none { IfErr result (λ why. root_in answer ≡ Err why) }
    ensures some { IfOk result (λ ran. (root_in answer ≡ Ok ran.root) × (ran.memory ≡ memory) × (ran.lowered ≡ lowered)) }
{
    match root_in(answer) {
        Ok(root) => Ok(Ran {
            lowered,
            memory,
            root,
        }),
        Err(why) => Err(why),
    }
}

/// What the end of a run of the code is to a run.
fn end_of(end: Result<Answer, RunFault>) -> Result<Root, RunStop>
    ensures { (l : LoweredParts) (depth forks : ℕ) (v : Datum) (m m' : Memory) → IsRun l depth forks v m m' end
        → EndsWith l depth forks m.limit v m'.cells result }
{
    match end {
        Ok(answer) => match root_in(answer) {
            Ok(root) => Ok(root),
            Err(why) => Err(RunStop::NoValue(Reason::Meant(why))),
        },
        Err(RunFault::Memory) => Err(RunStop::Memory),
        Err(RunFault::Full) => Err(RunStop::NoValue(Reason::Full)),
    }
}

/// Runs the code on a value that was loaded: by workers that steal sides from one another; or, where no more than one is asked for, by the
/// machine in place, without a runtime's handle.
#[tactic(auto, using(crate::proofs::Roots::alone_is_run))]
fn run_code<R: Threads + Wait + Sync, G: Gate + Sync>(
    alloc: Global,
    runtime: Runtime<'_, R, G>,
    lowered: &Lowered,
    loaded: Loaded,
    options: Options,
) -> (Result<Answer, RunFault>, SoleMem)
    requires starts { (v : Datum) × IsStart lowered.now loaded.root loaded.tails (⟦<SoleMem as Mem>⟧.view loaded.memory) v }
    ensures ends { (v : Datum) → IsStart lowered.now loaded.root loaded.tails (⟦<SoleMem as Mem>⟧.view loaded.memory) v
        → IsRun lowered.now options.depth (run_forks options) v (⟦<SoleMem as Mem>⟧.view loaded.memory) (⟦<SoleMem as Mem>⟧.view result.1) result.0 }
    ensures kept { Kept (⟦<SoleMem as Mem>⟧.view loaded.memory) (⟦<SoleMem as Mem>⟧.view result.1) }
{
    if options.workers > 1 {
        let config = Config {
            workers: options.workers,
            depth: options.depth,
            forks: options.fork,
        };
        run_by(
            runtime.threads,
            alloc,
            lowered,
            loaded,
            config,
            runtime.gate,
        )
    } else {
        let Loaded {
            mut memory,
            tails,
            root,
        } = loaded;
        let end = run(alloc, lowered, &mut memory, tails, root, options.depth);
        (end, memory)
    }
}

/// Loads the value of a survey into a memory in which nothing is drawn, and runs the code on it. The memory comes back.
fn run_loaded<R: Threads + Wait + Sync, G: Gate + Sync>(
    alloc: Global,
    runtime: Runtime<'_, R, G>,
    lowered: &Lowered,
    survey: Survey<'_>,
    memory: SoleMem,
    options: Options,
) -> (Result<Root, RunStop>, SoleMem)
    requires table { survey.table ≡ lowered.now.code.laid.table }
    requires ty { survey.ty ≡ (core_of lowered.now.core).main.parameter }
    requires undrawn { (⟦<SoleMem as Mem>⟧.view memory).drawn ≡ 0 }
    ensures ends { (v : Datum) → Packed survey.entry.table survey.entry.ty v survey.entry.bytes
        → EndsWith lowered.now options.depth (run_forks options) (⟦<SoleMem as Mem>⟧.view memory).limit v (⟦<SoleMem as Mem>⟧.view result.1).cells result.0 }
    ensures limit { IfOk result.0 (λ _. (⟦<SoleMem as Mem>⟧.view result.1).limit ≡ (⟦<SoleMem as Mem>⟧.view memory).limit) }
{
    let _packed = survey.payload();
    let mut memory = memory;
    let mut tails = Tails::new();
    let layouts = lowered.code().layouts();
    match load(alloc, layouts, survey, &mut memory, &mut tails) {
        Ok(root) => {
            let loaded = Loaded {
                memory,
                tails,
                root,
            };
            let (end, memory) = run_code(alloc, runtime, lowered, loaded, options);
            (end_of(end), memory)
        }
        Err(LoadFault::Full) => (Err(RunStop::NoValue(Reason::Full)), memory),
        Err(LoadFault::Memory) => (Err(RunStop::Memory), memory),
    }
}

/// A region memory, and the root in it for which a result stands.
#[derive(Drop)]
struct Rooted {
    memory: SoleMem,
    root: Root,
}

/// Runs the code on the value of a survey, in a memory of its own with so many chunks.
fn run_within<R: Threads + Wait + Sync, G: Gate + Sync>(
    alloc: Global,
    runtime: Runtime<'_, R, G>,
    lowered: &Lowered,
    survey: Survey<'_>,
    chunks: u32,
    options: Options,
) -> Result<Rooted, RunStop>
    requires table { survey.table ≡ lowered.now.code.laid.table }
    requires ty { survey.ty ≡ (core_of lowered.now.core).main.parameter }
    ensures limit { IfOk result (λ left. (⟦<SoleMem as Mem>⟧.view left.memory).limit ≡ chunks) }
    ensures root { IfOk result (LeavesRoot lowered.now options.depth (λ v. Packed survey.entry.table survey.entry.ty v survey.entry.bytes)) }
    ensures halts { IfErr result (LeavesNone lowered.now options.depth (run_forks options) chunks
        (λ v. Packed survey.entry.table survey.entry.ty v survey.entry.bytes)) }
{
    let memory = match SoleMem::make(alloc, chunks) {
        Ok(memory) => memory,
        Err(_) => return Err(RunStop::Memory),
    };
    let (end, memory) = run_loaded(alloc, runtime, lowered, survey, memory, options);
    match end {
        Ok(root) => Ok(Rooted { memory, root }),
        Err(stop) => Err(stop),
    }
}

/// The chunks with which a run on a payload begins: enough for most runs, and few enough that a short one is not kept waiting for them.
const FIRST_CHUNKS: u64 = 1_024;

/// How many times as many chunks the next run of the code has.
const GROWTH: u64 = 8;

/// The first limit of the chunks of a run: they have room for eight times the payload. There may be so many at most.
fn first_limit(payload: usize, most: u32) -> u32
    ensures { result ≤ most }
{
    let ample = payload as u64 / (CHUNK / GROWTH);
    ample.max(FIRST_CHUNKS).min(most as u64) as u32
}

/// The limit that comes behind one that was too low.
fn next_limit(limit: u32, most: u32) -> u32
    requires { limit < most }
    ensures more { limit < result }
    ensures most { result ≤ most }
{
    let wider = (limit as u64).max(1) * GROWTH;
    wider.min(most as u64) as u32
}

/// Runs the code on the value of a survey, in a memory of its own. All its chunks are written once before the run, so it begins with few of them, and
/// begins anew with more where these were not enough. Only a run with all of them tells that there are too few.
fn run_on<R: Threads + Wait + Sync, G: Gate + Sync>(
    alloc: Global,
    runtime: Runtime<'_, R, G>,
    lowered: &Lowered,
    survey: Survey<'_>,
    options: Options,
) -> Result<Rooted, RunStop>
    requires table { survey.table ≡ lowered.now.code.laid.table }
    requires ty { survey.ty ≡ (core_of lowered.now.core).main.parameter }
    ensures limit { IfOk result (λ left. (⟦<SoleMem as Mem>⟧.view left.memory).limit ≤ options.chunks) }
    ensures root { IfOk result (LeavesRoot lowered.now options.depth (λ v. Packed survey.entry.table survey.entry.ty v survey.entry.bytes)) }
    ensures halts { IfErr result (LeavesNone lowered.now options.depth (run_forks options) options.chunks
        (λ v. Packed survey.entry.table survey.entry.ty v survey.entry.bytes)) }
{
    let mut limit = first_limit(survey.payload().len(), options.chunks);
    'limits: while limit < options.chunks {
        let Runtime { threads, gate } = runtime;
        let found = run_within(
            alloc,
            Runtime { threads, gate },
            lowered,
            survey.again(),
            limit,
            options,
        );
        match found {
            Err(RunStop::NoValue(Reason::Full)) => limit = next_limit(limit, options.chunks),
            end => return end,
        }
    }
    run_within(alloc, runtime, lowered, survey, options.chunks, options)
}

/// How the run of a program ends whose code was run so.
fn ended(lowered: Lowered, left: Result<Rooted, RunStop>) -> Result<RunEnd, Stop<'static>>
    ensures { result ≡ ended lowered left }
{
    match left {
        Ok(Rooted { memory, root }) => Ok(RunEnd::Value(Ran {
            lowered,
            memory,
            root,
        })),
        Err(RunStop::NoValue(reason)) => Ok(RunEnd::NoValue(reason)),
        Err(RunStop::Memory) => Err(Stop::Memory),
    }
}

/// Runs a program on the bytes of a packed file with the depth, the chunks of 4,096 bytes, the workers and the forks of the options; fields are
/// reached as the options say. What the program means stands for the root, in the memory that is handed back, whatever the workers do; or
/// there is no value: `Meant` where the program means none, with the reason, and `Full` where so many chunks may not be enough.
///
/// # Errors
///
/// `Input` where the bytes are no packed file of a value of the type of main's parameter. `Memory`: want of memory.
pub fn run_packed<R: Threads + Wait + Sync, G: Gate + Sync>(
    alloc: Global,
    runtime: Runtime<'_, R, G>,
    typed: &Typed,
    names: &Texts,
    file: &[u8],
    options: Options,
) -> Result<RunEnd, Stop<'static>>
    requires short { length file.now ≤ FILE_BYTES }
    ensures stands { IfOk result (IsRunEnd (core_asked options (program_of typed.now)) (program_of typed.now) names.now options.depth
        (run_forks options) options.chunks file.now) }
    // It is the code of the program's core that ran, in a memory of no more chunks.
    ensures code { IfOk result (OnRan (λ ran. ran.lowered.code ≡ lower_program (core_asked options (program_of typed.now)))) }
    ensures limit { IfOk result (OnRan (λ ran. (⟦<SoleMem as Mem>⟧.view ran.memory).limit ≤ options.chunks)) }
    // The heads lie as those of the program's core.
    ensures laid { IfOk result (OnRan (λ ran. ran.lowered.code.laid ≡ layouts_asked options (program_of typed.now))) }
    ensures stop { IfErr result (IsRunStop (program_of typed.now) names.now file.now) }
    // The other way round: of which value the file is, and what the program means on it, tells how the run ends.
    ensures only { (v : Datum) → IsInput (program_of typed.now) names.now v file.now
        → MatchResult result (OnEnd (λ ran. IsRootOf ran.lowered.code.laid (⟦<SoleMem as Mem>⟧.view ran.memory).cells (output_type (program_of typed.now))
        (run (program_of typed.now) options.depth v) ran.root)
        (Lacks (run (program_of typed.now) options.depth v) options.chunks
        (program_cost (program_of typed.now) options (run_forks options) v))) (λ stop. stop ≡ Stop.Memory) }
{
    one_file();
    let survey = match survey_input(alloc, typed, names, file) {
        Ok(survey) => survey,
        Err(stop) => return Err(stop),
    };
    let _packed = survey.payload();
    match lowered(alloc, typed, options.access) {
        Ok(lowered) => {
            let left = run_on(alloc, runtime, &lowered, survey, options);
            ended(lowered, left)
        }
        Err(_) => Err(Stop::Memory),
    }
}

/// Runs a core that is written out, in the same way.
///
/// # Errors
///
/// As `run_packed`, for each program in whose place this core can run.
pub fn run_located<R: Threads + Wait + Sync, G: Gate + Sync>(
    alloc: Global,
    runtime: Runtime<'_, R, G>,
    core: Checked,
    names: &Texts,
    file: &[u8],
    options: Options,
) -> Result<RunEnd, Stop<'static>>
    requires short { length file.now ≤ FILE_BYTES }
    requires numbered { AreNumbered (core_of core) }
    ensures stands { (p : ProgramTree) → RunsFor (core_of core) p names.now
        → IfOk result (IsRunEnd (core_of core) p names.now options.depth (run_forks options) options.chunks file.now) }
    // It is the code of this very core that ran, in a memory of no more chunks.
    ensures code { IfOk result (OnRan (λ ran. ran.lowered.code ≡ lower_program (core_of core))) }
    ensures limit { IfOk result (OnRan (λ ran. (⟦<SoleMem as Mem>⟧.view ran.memory).limit ≤ options.chunks)) }
    ensures stop { (p : ProgramTree) → RunsFor (core_of core) p names.now → IfErr result (IsRunStop p names.now file.now) }
{
    let lowered = match lower(alloc, core) {
        Ok(lowered) => lowered,
        Err(_) => return Err(Stop::Memory),
    };
    let _code = lowered.code();
    let core = lowered.core();
    let types = core.types();
    let ty = core.main().parameter;
    let survey = match survey_typed(alloc, types, ty, names, file) {
        Ok(survey) => survey,
        Err(stop) => return Err(stop),
    };
    let _packed = survey.payload();
    let left = run_on(alloc, runtime, &lowered, survey, options);
    ended(lowered, left)
}

/// Puts the text of what a run leaves and a line feed, in pieces of 4,096 bytes and a last one that may be shorter. The memory of
/// the run stays.
///
/// # Errors
///
/// `Memory`, and the sink was not called; `Write` where the sink failed, which took a front of the bytes.
pub fn print_ran<M: Mem, O: Sink>(
    alloc: Global,
    ran: &mut Ran<M>,
    names: &Texts,
    out: &mut O,
) -> Result<(), PrintFault>
    requires names { AreHeld ran.old.lowered.code.laid.table names.now.short }
    requires stands { SomeStandsIn names.now ran.old.lowered (M.view ran.old.memory) ran.old.root }
    ensures done { (p : ProgramTree) (depth : ℕ) (input : List ℕ) (s : StandsIn p names.now depth input ran.old.lowered (M.view ran.old.memory) ran.old.root)
        → OnOk result (Appends (O.view out.old).taken (O.view out.new).taken (text_line p names.now s.result)) }
    ensures part { (p : ProgramTree) (depth : ℕ) (input : List ℕ) (s : StandsIn p names.now depth input ran.old.lowered (M.view ran.old.memory) ran.old.root)
        → IsErrOf result PrintFault.Write → AppendsPart (O.view out.old).taken (O.view out.new).taken (text_line p names.now s.result) }
    ensures cause { IsErrOf result PrintFault.Write → Rose (O.view out.old).faults (O.view out.new).faults }
    ensures later { (O.view out.old).faults ≤ (O.view out.new).faults }
    ensures quiet { (IsErrOf result PrintFault.Write → ⊥) → (O.view out.new).faults ≡ (O.view out.old).faults }
    ensures pieces { (p : ProgramTree) (depth : ℕ) (input : List ℕ) (s : StandsIn p names.now depth input ran.old.lowered (M.view ran.old.memory) ran.old.root)
        → OnOk result (PutsPieces (O.view out.old) (O.view out.new) (length (text_line p names.now s.result))) }
    ensures some { (p : ProgramTree) (depth : ℕ) (input : List ℕ) (s : StandsIn p names.now depth input ran.old.lowered (M.view ran.old.memory) ran.old.root)
        → IsErrOf result PrintFault.Write → PutsSomePieces (O.view out.old) (O.view out.new) (length (text_line p names.now s.result)) }
    ensures still { IsErrOf result PrintFault.Memory → O.view out.new ≡ O.view out.old }
    ensures same { M.view ran.new.memory ≡ M.view ran.old.memory }
    ensures kept { ran.new.lowered ≡ ran.old.lowered }
    ensures root { ran.new.root ≡ ran.old.root }
{
    let layouts = ran.lowered.code().layouts();
    print_at(
        alloc,
        &mut ran.memory,
        layouts.types(),
        names,
        layouts,
        ran.root,
        out,
    )
}

//! A run of a core on a value that was loaded, by several workers.

ghost use Rattle.std.specs.Prelude.{◌≡◌, ◌≢◌, ◌≤◌, ℕ, List, IfOk, IsErrOf};
ghost use Rattle.std.specs.Vec.{vec_capacity};
ghost use Rattle.gib_types.specs.Tree.{Datum};
ghost use Rattle.gib_core.specs.Parts.{core_of};
ghost use Rattle.gib_machine.specs.Stepping.{with_tails};
ghost use Rattle.gib_weave.specs.{Running.{IsStart, Kept, word_of}, Starting.{root_start}, declared.root_run.RunFault.TheVariants.{Full, Memory}};
ghost use Rattle.gib_arena.specs.{Passes.{view, IsOf}, Tree.{IsAlone}};
ghost use Rattle.gib_frame.specs.{declared.due.Ending.TheVariants.{NotRun}, Answers.{drawn_by}};
ghost use Rattle.gib_pool.specs.{Active.{IsBackWhole}, Runs.{pass_memory, IsOutcome, IsRun}};

use crate::active::ActiveTask;
use crate::permits::Permits;
use crate::shared::Shared;
use crate::sleep::Sleep;
use crate::threads::{Config, count_workers, make_workers, work_together};
use crate::workspace::Workspace;
use crossbeam_utils::CachePadded;
use gib_arena::{Arena, Pass, SoleMem};
use gib_code::Answer;
use gib_core::Lowered;
use gib_edge::outside::Gate;
use gib_frame::Ending;
use gib_mem::Mem;
use gib_packed::Root;
use gib_region::Tails;
use gib_weave::{RunFault, Runnable, root_machine};
use std::alloc::{AllocError, Global};
use std::sync::Wait;
use std::thread::Threads;

/// A value that was loaded: its root in a memory, and the tails that are kept for what is placed next.
#[derive(Drop)]
pub struct Loaded {
    pub memory: SoleMem,
    pub tails: Tails,
    pub root: Root,
}

/// What a run answers whose root was run and ended so.
fn outcome_of(ending: Ending) -> Result<Answer, RunFault>
    requires { ending ≢ NotRun }
    ensures { IsOutcome ending result }
{
    match ending {
        Ending::Answer(answer) => Ok(answer),
        Ending::Full => Err(RunFault::Full),
        Ending::NotRun => unreachable!(),
    }
}

/// The workspace of a run's root: main's machine with the word of its parameter, and room for a frame for each fork that may nest.
///
/// # Errors
///
/// Want of memory.
fn root_workspace(
    alloc: Global,
    lowered: &Runnable<'_>,
    root: Root,
    config: Config,
) -> Result<Box<Workspace>, AllocError>
    ensures machine { IfOk result (λ w. (tails : List ℕ) → with_tails w.value.machine tails ≡ root_start (core_of lowered.now.core) lowered.now.code (word_of root) config.depth config.forks tails) }
    ensures room { IfOk result (λ w. config.forks ≤ vec_capacity w.value.frames) }
{
    let machine = root_machine(alloc, lowered.lowered(), root, config.depth, config.forks)?;
    Workspace::of(alloc, machine, config.forks)
}

/// Counts the chunks by the first pass, where no other one is out: it drew all that are drawn. The pass is as it was.
fn count_all(arena: &Arena, pass: &mut Pass)
    requires own { IsOf arena.now pass.old }
    requires alone { IsAlone (view pass.old).branch }
    ensures own { IsOf arena.now pass.new }
    ensures same { view pass.new ≡ view pass.old }
    ensures all { drawn_by pass.new ≡ (view pass.new).holding.seen }
{
    pass.chunks(arena);
}

/// Runs a core on the value of the root over the first pass of an arena, by so many workers, with at most `depth` calls and `level` forks
/// nested. However the run ends, the pass comes back with all that was split off it.
///
/// # Errors
///
/// `Full`: it draws a chunk, and all are drawn, so so many may not be enough. `Memory`: want of memory, before the first step.
fn run_in<'a, R: Threads + Wait + Sync, G: Gate + Sync>(
    rt: &R,
    alloc: Global,
    shared: &Shared<'a, G>,
    first: Pass,
    tails: Tails,
    root: Root,
    config: Config,
) -> (Result<Answer, RunFault>, Pass)
    requires own { IsOf shared.now.arena.now first }
    requires alone { IsAlone (view first).branch }
    requires starts { (d : Datum) × IsStart shared.now.lowered.now root tails (pass_memory first) d }
    ensures back { IsBackWhole shared.entry.now.arena.now first result.1 }
    ensures ends { (d : Datum) → IsStart shared.entry.now.lowered.now root tails (pass_memory first) d
        → IsRun shared.entry.now.lowered.now config.depth config.forks d (pass_memory first) (pass_memory result.1) result.0 }
    ensures full { IsErrOf result.0 Full → (pass_memory result.1).share ≡ (pass_memory result.1).limit }
    ensures wants { IsErrOf result.0 Memory → pass_memory result.1 ≡ pass_memory first }
{
    shared.lowered.core();
    let code = shared.lowered.code();
    let Ok(workspace) = root_workspace(alloc, shared.lowered, root, config) else {
        return (Err(RunFault::Memory), first);
    };
    let count = count_workers(code, config);
    let Ok(mut workers) = make_workers(alloc, code, config, count) else {
        return (Err(RunFault::Memory), first);
    };
    let Some(worker) = workers.pop() else {
        unreachable!()
    };
    let mut pass = first;
    count_all(shared.arena, &mut pass);
    let active = ActiveTask::make(workspace, tails, pass);
    let (ending, mut last) = work_together(rt, alloc, shared, active, worker, workers);
    count_all(shared.arena, &mut last);
    (outcome_of(ending), last)
}

/// Runs a core on a value that was loaded by so many workers, with at most `depth` calls and `level` forks nested. The answer is what the
/// core means. However the run ends, the memory comes back, and no other pass of it is out.
///
/// # Errors
///
/// `Full`: it draws a chunk, and all are drawn, so so many may not be enough. `Memory`: want of memory, before the first step.
pub fn run_by<R: Threads + Wait + Sync, G: Gate + Sync>(
    rt: &R,
    alloc: Global,
    lowered: &Lowered,
    loaded: Loaded,
    config: Config,
    gate: &G,
) -> (Result<Answer, RunFault>, SoleMem)
    requires starts { (d : Datum) × IsStart lowered.now loaded.root loaded.tails (⟦<SoleMem as Mem>⟧.view loaded.memory) d }
    ensures ends { (d : Datum) → IsStart lowered.entry.now loaded.root loaded.tails (⟦<SoleMem as Mem>⟧.view loaded.memory) d
        → IsRun lowered.entry.now config.depth config.forks d (⟦<SoleMem as Mem>⟧.view loaded.memory) (⟦<SoleMem as Mem>⟧.view result.1) result.0 }
    ensures kept { Kept (⟦<SoleMem as Mem>⟧.view loaded.memory) (⟦<SoleMem as Mem>⟧.view result.1) }
    ensures full { IsErrOf result.0 Full → (⟦<SoleMem as Mem>⟧.view result.1).share ≡ (⟦<SoleMem as Mem>⟧.view result.1).limit }
    ensures wants { IsErrOf result.0 Memory → ⟦<SoleMem as Mem>⟧.view result.1 ≡ ⟦<SoleMem as Mem>⟧.view loaded.memory }
{
    let Loaded {
        memory,
        tails,
        root,
    } = loaded;
    let (arena, first) = memory.into_parts();
    let sleep = CachePadded::new(Sleep::new());
    let permits = CachePadded::new(Permits::new(config.workers.max(1)));
    let runnable = Runnable::make(alloc, lowered);
    let shared = Shared {
        arena: &arena,
        lowered: &runnable,
        sleep: &sleep,
        permits: &permits,
        gate,
    };
    let (end, last) = run_in(rt, alloc, &shared, first, tails, root, config);
    (end, SoleMem::of_parts(arena, last))
}

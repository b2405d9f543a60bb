//! The workers of a run and their threads.

ghost use Rattle.std.specs.Prelude.{◌≡◌, ◌≢◌, ◌<◌, ◌+◌, ◌-◌, ◌++◌, ℕ, [], length, map, slice_get, is_some, Some, false, IfOk};
ghost use Rattle.gib_code.specs.Instruction.{instruction_of};
ghost use Rattle.gib_machine.specs.Sides.{fork_of};
ghost use Rattle.gib_weave.specs.Owing.{Debt};
ghost use Rattle.gib_pool.specs.Forking as spec;
ghost use Rattle.gib_pool.specs.{Active.{Holds, IsOver, OwesStill}, Victims.{deques, victims, listed, in_turn}};

use crate::active::ActiveTask;
use crate::forks::new_forks;
use crate::helping::help;
use crate::hooks::Hooks;
use crate::shared::Shared;
use crate::stealer::Stealer;
use crate::worker::Worker;
use crate::working::work;
use crate::workspace::Workspace;
use gib_arena::Pass;
use gib_code::{Code, Instr};
use gib_edge::outside::Gate;
use gib_frame::Ending;
use std::alloc::{AllocError, Global};
use std::sync::Wait;
use std::thread::{Threads, join};

/// How a run is set.
#[derive(Clone, Copy)]
pub struct Config {
    /// How many workers run at a time: at least 1, for which 0 stands too. There are twice as many, each in a thread of its own, the first in
    /// the caller's, since one that waits lets another run; and the first alone where nothing can be forked, or one runs at a time.
    pub workers: u32,
    /// How many calls may nest.
    pub depth: u32,
    /// How many forks may nest.
    pub forks: u32,
}

/// Gives the worker at a place a stealer of the forks of another one.
///
/// # Errors
///
/// Want of memory.
fn add_stealer<'a>(
    workers: &mut Vec<Worker<'a>>,
    place: usize,
    other: usize,
) -> Result<(), AllocError>
    requires there { place < length workers.old.items }
    requires other { other < length workers.old.items }
    ensures same { IfOk result (λ _. deques workers.new.items ≡ deques workers.old.items) }
    ensures more { IfOk result (λ _. victims workers.new.items place ≡ victims workers.old.items place ++ listed (slice_get (deques workers.old.items) other)) }
    ensures others { IfOk result (λ _. (q : ℕ) → q ≢ place → victims workers.new.items q ≡ victims workers.old.items q) }
{
    let stealer = Stealer::make(&workers[other].forks)?;
    workers[place].stealers.push(stealer)?;
    Ok(())
}

/// Gives the worker at a place a stealer of the forks of each other one, first of those of the next one.
///
/// # Errors
///
/// Want of memory.
fn add_stealers<'a>(workers: &mut Vec<Worker<'a>>, place: usize) -> Result<(), AllocError>
    requires there { place < length workers.old.items }
    requires none { victims workers.old.items place ≡ [] }
    ensures same { IfOk result (λ _. deques workers.new.items ≡ deques workers.old.items) }
    ensures turn { IfOk result (λ _. victims workers.new.items place ≡ in_turn (deques workers.old.items) place (length workers.old.items - 1)) }
    ensures others { IfOk result (λ _. (q : ℕ) → q ≢ place → victims workers.new.items q ≡ victims workers.old.items q) }
{
    let count = workers.len();
    'steps: for step in 0..count - 1 {
        add_stealer(workers, place, (place + 1 + step) % count)?;
    }
    Ok(())
}

/// The workspace of a worker; none for the first one, number 0, whose task has its own.
///
/// # Errors
///
/// Want of memory.
fn workspace_of(
    alloc: Global,
    code: &Code,
    config: Config,
    number: u32,
) -> Result<Option<Box<Workspace>>, AllocError> {
    if number == 0 {
        return Ok(None);
    }
    let workspace = Workspace::make(alloc, code, config.depth, config.forks)?;
    Ok(Some(workspace))
}

/// So many workers without forks, the first one last, each of which may steal from all others, the next one first. Their workspaces are made for the run of
/// the code.
///
/// # Errors
///
/// Want of memory.
pub(crate) fn make_workers<'a>(
    alloc: Global,
    code: &Code,
    config: Config,
    count: u32,
) -> Result<Vec<Worker<'a>>, AllocError>
    ensures count { IfOk result (λ workers. length workers.items ≡ count) }
    ensures turn { IfOk result (λ workers. (p : ℕ) → p < count → victims workers.items p ≡ in_turn (deques workers.items) p (count - 1)) }
{
    let mut workers = Vec::new(alloc);
    'made: for step in 0..count {
        let number = count - 1 - step;
        workers.push(Worker {
            number,
            forks: new_forks(alloc)?,
            stealers: Vec::new(alloc),
            workspace: workspace_of(alloc, code, config, number)?,
        })?;
    }
    let made = workers.len();
    'stealing: for place in 0..made {
        add_stealers(&mut workers, place)?;
    }
    Ok(workers)
}

/// Whether an instruction is a fork.
fn is_fork(instr: &Instr) -> bool
    ensures { result ≡ is_some (fork_of (Some (instruction_of instr.now))) }
{
    match instr {
        Instr::Fork(_) => true,
        _ => false,
    }
}

/// Whether a fork stands among these instructions.
fn has_fork(instructions: &[Instr]) -> bool
    ensures { result ≡ spec.has_fork (map instruction_of instructions.now) }
{
    let mut rest = instructions;
    'instructions: while let [instr, after @ ..] = rest {
        if is_fork(instr) {
            return true;
        }
        rest = after;
    }
    false
}

/// How many workers there are: one where nothing can be forked, or one runs at a time.
pub(crate) fn count_workers(code: &Code, config: Config) -> u32
    ensures some { 0 < result }
    ensures forks { config.forks ≡ 0 → result ≡ 1 }
    ensures code { spec.has_fork code.now.instructions ≡ false → result ≡ 1 }
{
    if config.forks == 0 || config.workers < 2 || !has_fork(code.instructions()) {
        return 1;
    }
    config.workers.saturating_mul(2).max(1)
}

/// Runs a task by the first worker, in the caller's thread, while the others run what it and they fork. A worker whose
/// thread cannot be started is missing.
pub(crate) fn work_together<'a, R: Threads + Wait + Sync, G: Gate + Sync>(
    rt: &R,
    alloc: Global,
    shared: &Shared<'a, G>,
    active: ActiveTask,
    first: Worker<'a>,
    mut workers: Vec<Worker<'a>>,
) -> (Ending, Pass)
    requires holds { Holds shared.now.arena.now shared.now.lowered.now active }
    requires owes { (d : Debt) × OwesStill shared.now.lowered.now d active }
    requires begins { (active.workspace.value.frames.items ≡ []) × (active.here ≡ 0) }
    ensures over { IsOver shared.entry.now.arena.now shared.entry.now.lowered.now (λ (d : Debt). OwesStill shared.entry.now.lowered.now d active) active result.0 result.1 }
{
    let Some(worker) = workers.pop() else {
        return work_first(rt, alloc, shared, active, first);
    };
    let hooks = Hooks {
        alloc,
        sleep: shared.sleep,
        permits: shared.permits,
        gate: shared.gate,
        number: worker.number,
    };
    let (_, end) = join(
        rt,
        move || help(rt, worker, &hooks),
        move || -> (Ending, Pass)
            requires holds { Holds shared.now.arena.now shared.now.lowered.now active }
            requires owes { (d : Debt) × OwesStill shared.now.lowered.now d active }
            requires begins { (active.workspace.value.frames.items ≡ []) × (active.here ≡ 0) }
            ensures over { IsOver shared.entry.now.arena.now shared.entry.now.lowered.now (λ (d : Debt). OwesStill shared.entry.now.lowered.now d active) active result.0 result.1 }
        { work_together(rt, alloc, shared, active, first, workers) },
    );
    end
}

/// Runs a task to its end by the first worker, and ends the run.
fn work_first<'a, R: Wait, G: Gate>(
    rt: &R,
    alloc: Global,
    shared: &Shared<'a, G>,
    active: ActiveTask,
    first: Worker<'a>,
) -> (Ending, Pass)
    requires holds { Holds shared.now.arena.now shared.now.lowered.now active }
    requires owes { (d : Debt) × OwesStill shared.now.lowered.now d active }
    requires begins { (active.workspace.value.frames.items ≡ []) × (active.here ≡ 0) }
    ensures over { IsOver shared.entry.now.arena.now shared.entry.now.lowered.now (λ (d : Debt). OwesStill shared.entry.now.lowered.now d active) active result.0 result.1 }
{
    let Worker {
        number,
        mut forks,
        stealers: _,
        workspace: _,
    } = first;
    let hooks = Hooks {
        alloc,
        sleep: shared.sleep,
        permits: shared.permits,
        gate: shared.gate,
        number,
    };
    let mut permit = shared.permits.acquire(rt);
    let (ending, pass, _) = work(
        rt,
        shared.arena,
        shared.lowered,
        active,
        &mut forks,
        &hooks,
        &mut permit,
    );
    permit.release(rt);
    shared.sleep.end();
    (ending, pass)
}

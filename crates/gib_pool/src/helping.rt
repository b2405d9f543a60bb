//! A worker without a task of its own runs those of others.

ghost use Rattle.std.specs.Prelude.{◌≡◌};
ghost use Rattle.crossbeam_deque.specs.Handles.{worker_deque};
ghost use Rattle.gib_pool.specs.Mine.{IsMine};

use crate::active::ActiveTask;
use crate::forks::Forks;
use crate::hooks::Hooks;
use crate::permits::Permit;
use crate::sleep::Sleep;
use crate::stealer::Stealer;
use crate::worker::Worker;
use crate::working::work;
use crate::workspace::Workspace;
use gib_edge::outside::Gate;
use gib_frame::{Ending, Task, put_answer};
use gib_region::Tails;
use std::sync::Wait;

/// Runs a side that was stolen, and tells its frame how it ended. To begin it takes no memory. The workspace comes back. Where it was made
/// for fewer calls or forks, as none of the same run is, the side is given back.
pub(crate) fn run_task<'a, R: Wait, G: Gate>(
    rt: &R,
    task: Task<'a>,
    mut workspace: Box<Workspace>,
    forks: &mut Forks<'a>,
    hooks: &Hooks<'_, G>,
    permit: &mut Permit<'_>,
) -> Box<Workspace>
    requires { IsMine forks.old }
    ensures { IsMine forks.new × (worker_deque forks.new ≡ worker_deque forks.old) }
{
    let (reply, arena, lowered, side, pass) = task.open();
    if !workspace.begin(lowered.code(), side) {
        put_answer(rt, reply, Ending::NotRun, pass);
        hooks.answered();
        return workspace;
    }
    let active = ActiveTask::make(workspace, Tails::new(), pass);
    let (ending, pass, workspace) = work(rt, arena, lowered, active, forks, hooks, permit);
    put_answer(rt, reply, ending, pass);
    hooks.answered();
    workspace
}

/// A fork of any of these workers. They are asked in turn.
fn steal_first<'a, R: Wait>(rt: &R, stealers: &mut [Stealer<'a>]) -> Option<Task<'a>> {
    for stealer in stealers {
        if let Some(task) = stealer.steal(rt) {
            return Some(task);
        }
    }
    None
}

/// A fork of any other worker. They are asked in turn from the one at this place on.
fn steal_any<'a, R: Wait>(rt: &R, stealers: &mut [Stealer<'a>], from: u32) -> Option<Task<'a>> {
    let count = stealers.len();
    if count == 0 {
        return None;
    }
    let (before, after) = stealers.split_at_mut(from as usize % count);
    if let Some(task) = steal_first(rt, after) {
        return Some(task);
    }
    steal_first(rt, before)
}

/// What a look for a fork comes to.
#[derive(Drop)]
enum Look<'a> {
    Stolen(Task<'a>),
    /// The run is over.
    Over,
    /// There was none, and another worker woke this one.
    Woken,
}

/// A fork of any other worker, found by one look, or by a second one after the worker said that it listens; else it sleeps.
fn look_once<'a, R: Wait>(
    rt: &R,
    stealers: &mut [Stealer<'a>],
    sleep: &Sleep,
    place: u32,
) -> Look<'a> {
    if let Some(task) = steal_any(rt, stealers, place >> 8) {
        return Look::Stolen(task);
    }
    let key = sleep.listen();
    if sleep.is_over() {
        return Look::Over;
    }
    if let Some(task) = steal_any(rt, stealers, place >> 8) {
        return Look::Stolen(task);
    }
    key.wait(rt);
    Look::Woken
}

/// The next of some numbers that look random: where a worker begins to look for a fork.
fn next_place(place: u32) -> u32 {
    place.wrapping_mul(747796405).wrapping_add(2891336453)
}

/// A fork of any other worker; none where the run is over. Where there is nothing to steal it sleeps: it looks once, and once more after it
/// said that it listens, so that it misses no fork, and who forks has nobody to wake while a look finds something.
fn find_task<'a, R: Wait>(
    rt: &R,
    stealers: &mut [Stealer<'a>],
    sleep: &Sleep,
    place: u32,
) -> Option<Task<'a>> {
    for _ in rt.forever() {
        match look_once(rt, stealers, sleep, place) {
            Look::Stolen(task) => return Some(task),
            Look::Over => return None,
            Look::Woken => {}
        }
    }
    unreachable!()
}

/// Runs what others fork until the run is over, each with a permit.
pub(crate) fn help<'a, R: Wait, G: Gate>(rt: &R, worker: Worker<'a>, hooks: &Hooks<'_, G>) {
    let Worker {
        number,
        mut forks,
        mut stealers,
        workspace,
    } = worker;
    let Some(mut workspace) = workspace else {
        return;
    };
    let mut place = number;
    'turns: for _ in rt.forever() {
        place = next_place(place);
        let Some(task) = find_task(rt, &mut stealers, hooks.sleep, place) else {
            return;
        };
        let mut permit = hooks.permits.acquire(rt);
        hooks.stolen();
        workspace = run_task(rt, task, workspace, &mut forks, hooks, &mut permit);
        permit.release(rt);
    }
    unreachable!()
}

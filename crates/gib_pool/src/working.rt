//! A worker runs a task to its end.

ghost use Rattle.std.specs.Prelude.{◌≡◌};
ghost use Rattle.crossbeam_deque.specs.Handles.{worker_deque, worker_view};
ghost use Rattle.gib_weave.specs.Owing.{Debt};
ghost use Rattle.gib_pool.specs.{Active.{Goes, Holds, IsHere, IsOver, OwesStill}, Mine.{IsMine}};

use crate::active::ActiveTask;
use crate::forking::fork_here;
use crate::forks::Forks;
use crate::hooks::Hooks;
use crate::joining::join_here;
use crate::leaving::leave;
use crate::permits::Permit;
use crate::running::run_on;
use crate::workspace::Workspace;
use gib_arena::{Arena, Pass};
use gib_edge::outside::Gate;
use gib_frame::Ending;
use gib_machine::Turn;
use gib_weave::Runnable;
use std::sync::Wait;

/// Goes on until the task's machine stood once. Where the task has ended, how it did, its pass and the workspace come back.
fn stand_once<'a, R: Wait, G: Gate>(
    rt: &R,
    arena: &'a Arena,
    lowered: &'a Runnable<'a>,
    active: ActiveTask,
    forks: &mut Forks<'a>,
    hooks: &Hooks<'_, G>,
    permit: &mut Permit<'_>,
) -> Result<ActiveTask, (Ending, Pass, Box<Workspace>)>
    requires holds { Holds arena.now lowered.now active }
    requires owes { (d : Debt) × OwesStill lowered.now d active }
    requires mine { IsMine forks.old }
    requires here { IsHere active (worker_view forks.old).mine }
    ensures mine { IsMine forks.new × (worker_deque forks.new ≡ worker_deque forks.old) }
    ensures goes { Goes arena.entry.now lowered.entry.now (λ (d : Debt). OwesStill lowered.entry.now d active) active (worker_view forks.new).mine result }
{
    let (active, turn) = run_on(rt, arena, lowered, active);
    match turn {
        Turn::Went => unreachable!(),
        Turn::Ended => {
            let answer = active.workspace.machine.ended_with(lowered.code());
            let ActiveTask {
                workspace,
                pass,
                here: _,
            } = active;
            Err((Ending::Answer(answer), pass, workspace))
        }
        Turn::Full => Err(leave(rt, arena, active, forks, permit)),
        Turn::AtFork => {
            let active = fork_here(hooks.alloc, arena, lowered, active, forks);
            if active.is_offered() {
                hooks.forked();
            }
            Ok(active)
        }
        Turn::AtJoin => join_here(rt, arena, lowered, active, forks, permit),
    }
}

/// Runs a task to its end: its forks are offered to others, and those that nobody stole are run here. Its pass comes back with all
/// that was split off it, and the workspace for the next task.
pub(crate) fn work<'a, R: Wait, G: Gate>(
    rt: &R,
    arena: &'a Arena,
    lowered: &'a Runnable<'a>,
    active: ActiveTask,
    forks: &mut Forks<'a>,
    hooks: &Hooks<'_, G>,
    permit: &mut Permit<'_>,
) -> (Ending, Pass, Box<Workspace>)
    requires holds { Holds arena.now lowered.now active }
    requires owes { (d : Debt) × OwesStill lowered.now d active }
    requires mine { IsMine forks.old }
    requires here { IsHere active (worker_view forks.old).mine }
    ensures mine { IsMine forks.new × (worker_deque forks.new ≡ worker_deque forks.old) }
    ensures over { IsOver arena.entry.now lowered.entry.now (λ (d : Debt). OwesStill lowered.entry.now d active) active result.0 result.1 }
{
    let mut current = active;
    'turns: for _ in rt.forever() {
        match stand_once(rt, arena, lowered, current, forks, hooks, permit) {
            Ok(next) => current = next,
            Err(end) => return end,
        }
    }
    unreachable!()
}

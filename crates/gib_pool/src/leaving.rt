//! A worker leaves a task before its end.

ghost use Rattle.std.specs.Prelude.{◌≡◌};
ghost use Rattle.crossbeam_deque.specs.Handles.{worker_deque, worker_view};
ghost use Rattle.gib_arena.specs.Passes.{view};
ghost use Rattle.gib_core.specs.LoweredParts.{LoweredParts};
ghost use Rattle.gib_weave.specs.Owing.{Debt};
ghost use Rattle.gib_pool.specs.{Active.{Holds, IsHere, IsBackWhole, PaysStill, Settles}, Mine.{IsMine}};

use crate::active::ActiveTask;
use crate::drain::drain_frames;
use crate::forks::Forks;
use crate::permits::Permit;
use crate::workspace::Workspace;
use gib_arena::{Arena, Pass};
use gib_frame::Ending;
use std::sync::Wait;

/// Leaves a task whose pass saw all chunks drawn. All that was split off its pass comes back, and so does the workspace.
pub(crate) fn leave<'a, R: Wait>(
    rt: &R,
    arena: &'a Arena,
    active: ActiveTask,
    forks: &mut Forks<'a>,
    permit: &mut Permit<'_>,
) -> (Ending, Pass, Box<Workspace>)
    requires holds { (l : LoweredParts) × Holds arena.now l active }
    requires mine { IsMine forks.old }
    requires here { IsHere active (worker_view forks.old).mine }
    ensures mine { IsMine forks.new × (worker_deque forks.new ≡ worker_deque forks.old) }
    ensures back { IsBackWhole arena.entry.now active.pass result.1 }
    ensures settles { (l : LoweredParts) → (view active.pass).holding.seen ≡ (view active.pass).branch.limit → Settles l (λ (d : Debt). PaysStill l d active) result.0 result.1 }
{
    let ActiveTask {
        mut workspace,
        mut pass,
        mut here,
    } = active;
    let at = &mut *workspace;
    drain_frames(
        rt,
        arena,
        &mut pass,
        &mut at.frames,
        forks,
        &mut here,
        permit,
    );
    (Ending::Full, pass, workspace)
}

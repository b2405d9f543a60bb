//! A worker at a join.

ghost use Rattle.std.specs.Prelude.{◌≡◌, IsOk, Some};
ghost use Rattle.crossbeam_deque.specs.Handles.{worker_deque, worker_view};
ghost use Rattle.gib_types.specs.declared.reason.Reason.{Reason};
ghost use Rattle.gib_machine.specs.{Sides.{unwinding}, declared.turn.Turn.TheVariants.{AtJoin}};
ghost use Rattle.gib_weave.specs.Owing.{Debt};
ghost use Rattle.gib_pool.specs.{Active.{Goes, Holds, IsHere, StandsAt}, Mine.{IsMine}};

use crate::active::ActiveTask;
use crate::back::{Back, settle};
use crate::forks::Forks;
use crate::leaving::leave;
use crate::permits::Permit;
use crate::workspace::Workspace;
use gib_arena::{Arena, Pass};
use gib_frame::Ending;
use gib_weave::Runnable;
use std::sync::Wait;

/// Takes the newest right side in place where nobody ran it, or joins the answer of who did.
///
/// # Errors
///
/// The task is left: who ran the right side found all chunks drawn, and the left side has a value. Where all chunks are drawn and the left
/// side has no value, the task goes on with the left side's reason.
pub(crate) fn join_here<'a, R: Wait>(
    rt: &R,
    arena: &'a Arena,
    lowered: &Runnable<'_>,
    mut active: ActiveTask,
    forks: &mut Forks<'a>,
    permit: &mut Permit<'_>,
) -> Result<ActiveTask, (Ending, Pass, Box<Workspace>)>
    requires holds { Holds arena.now lowered.now active }
    requires stands { (d : Debt) × StandsAt lowered.now d active AtJoin }
    requires mine { IsMine forks.old }
    requires here { IsHere active (worker_view forks.old).mine }
    ensures mine { IsMine forks.new × (worker_deque forks.new ≡ worker_deque forks.old) }
    ensures goes { Goes arena.entry.now lowered.entry.now (λ (d : Debt). StandsAt lowered.entry.now d active AtJoin) active (worker_view forks.new).mine result }
    ensures unwinds { (why : Reason) → unwinding active.workspace.value.machine.doing ≡ Some why → IsOk result }
{
    let code = lowered.code();
    let at = &mut *active.workspace;
    let Some(newest) = at.frames.pop() else {
        unreachable!()
    };
    let Some(frame) = newest else {
        at.machine.take(code);
        return Ok(active);
    };
    match settle(
        rt,
        arena,
        &mut active.pass,
        &frame,
        forks,
        &mut active.here,
        permit,
    ) {
        Back::Take => {
            at.machine.take(code);
            Ok(active)
        }
        Back::Answer(answer) => {
            at.machine.join(answer);
            Ok(active)
        }
        Back::Full => match at.machine.unwinding() {
            None => Err(leave(rt, arena, active, forks, permit)),
            Some(_) => {
                at.machine.take(code);
                Ok(active)
            }
        },
    }
}

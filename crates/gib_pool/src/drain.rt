//! The frames of a task that ends before its time.

ghost use Rattle.std.specs.Prelude.{◌≡◌, ◌≤◌, []};
ghost use Rattle.crossbeam_deque.specs.Handles.{worker_deque, worker_view};
ghost use Rattle.gib_core.specs.{Cost.{Cost}, LoweredParts.{LoweredParts}};
ghost use Rattle.gib_arena.specs.Passes.{view, IsOf};
ghost use Rattle.gib_frame.specs.Answers.{IsPaid, drawn_by};
ghost use Rattle.gib_pool.specs.{Active.{IsSamePass}, Lent.{Lends}, Mine.{IsMine}, Frames.{lent_of, AreHere}, Turn.{Pays}};

use crate::back::settle;
use crate::forks::Forks;
use crate::permits::Permit;
use gib_arena::{Arena, Pass};
use gib_frame::Frame;
use std::sync::Wait;

/// Takes the passes of all frames back, the newest first, so that none is out; what their sides answered is dropped.
pub(crate) fn drain_frames<'a, R: Wait>(
    rt: &R,
    arena: &'a Arena,
    pass: &mut Pass,
    frames: &mut Vec<Option<Frame>>,
    forks: &mut Forks<'a>,
    here: &mut usize,
    permit: &mut Permit<'_>,
)
    requires own { IsOf arena.now pass.old }
    requires lends { Lends pass.old (lent_of frames.old.items) }
    requires mine { IsMine forks.old }
    requires here { AreHere (lent_of frames.old.items) here.old (worker_view forks.old).mine }
    ensures own { IsOf arena.entry.now pass.new }
    ensures lends { Lends pass.new [] }
    ensures same { IsSamePass pass.old pass.new }
    ensures seen { (view pass.old).holding.seen ≤ (view pass.new).holding.seen }
    ensures mine { IsMine forks.new × (worker_deque forks.new ≡ worker_deque forks.old) }
    ensures paid { (l : LoweredParts) (most : Cost) → Pays l most (drawn_by pass.old) (lent_of frames.old.items) → IsPaid most (drawn_by pass.new) }
{
    'frames: while let Some(held) = frames.pop() {
        match held {
            None => {}
            Some(frame) => {
                settle(rt, arena, pass, &frame, forks, here, permit);
            }
        }
    }
}

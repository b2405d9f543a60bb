//! The end of a fork.

ghost use Rattle.std.specs.Prelude.{◌≡◌, ◌<◌, ◌≤◌, ◌++◌, ◌∷◌, [], ℕ, List, Option, Some};
ghost use Rattle.crossbeam_deque.specs.Handles.{worker_deque, worker_view};
ghost use Rattle.gib_mem.specs.Memory.{Grows, fresh};
ghost use Rattle.gib_arena.specs.{Sums.{times_path}, Passes.{view, cells, IsOf}};
ghost use Rattle.gib_frame.specs.{declared.due.Due.{Due}, Dues.{frame_due}};
ghost use Rattle.gib_pool.specs.{Lent.{Lends, path}, Mine.{IsMine}, Backs.{IsBack, IsLatest}};

use crate::forks::{Forks, take_back};
use crate::permits::Permit;
use gib_arena::{Arena, Pass};
use gib_code::Answer;
use gib_frame::{Ending, Frame};
use std::sync::Wait;

/// What a join goes on with.
#[derive(Drop)]
pub(crate) enum Back {
    /// Nobody ran the side: it is taken in place.
    Take,
    /// Another worker ran the side, and this is its answer.
    Answer(Answer),
    /// Another worker ran the side, and found all chunks drawn.
    Full,
}

/// Takes the latest fork back, or waits for who stole it, while another worker runs with the permit. The pass then knows both sides. `here` is
/// how many of the newest forks may still be in the deque: once one is gone all older ones are, so that none of them is looked for. It takes
/// no memory.
pub(crate) fn settle<'a, R: Wait>(
    rt: &R,
    arena: &'a Arena,
    pass: &mut Pass,
    frame: &Frame,
    forks: &mut Forks<'a>,
    here: &mut usize,
    permit: &mut Permit<'_>,
) -> Back
    requires own { IsOf arena.now pass.old × ((frame_due frame.now).pass.value.seat.table_id ≡ arena.now.table.shared.table_id) }
    requires out { 0 < times_path (path (frame_due frame.now)) (view pass.old).branch.out }
    requires mine { IsMine forks.old }
    requires latest { 0 < here.old → IsLatest (worker_view forks.old).mine (frame_due frame.now) }
    ensures own { IsOf arena.entry.now pass.new }
    ensures knows { Grows (cells pass.old) (cells pass.new) }
    ensures free { (q : ℕ) → cells pass.old q ≡ fresh → cells pass.new q ≡ fresh }
    ensures lends { (lent : List (Option Due)) → Lends pass.old (Some (frame_due frame.entry.now) ∷ lent) → Lends pass.new lent }
    ensures path { (view pass.new).branch.path ≡ (view pass.old).branch.path }
    ensures seen { ((view pass.old).holding.seen ≤ (view pass.new).holding.seen) × ((view pass.new).branch.limit ≡ (view pass.old).branch.limit) }
    ensures mine { IsMine forks.new × (worker_deque forks.new ≡ worker_deque forks.old) }
    ensures back { IsBack (frame_due frame.entry.now) (view pass.old) (view pass.new) (worker_view forks.old).mine (worker_view forks.new).mine here.old here.new result }
{
    if *here > 0 {
        *here -= 1;
        if let Some(task) = take_back(forks) {
            pass.join(arena, task.into_pass());
            return Back::Take;
        }
        *here = 0;
    }
    let (ending, his) = permit.wait_answer(rt, frame);
    pass.join(arena, his);
    match ending {
        Ending::Answer(answer) => Back::Answer(answer),
        Ending::Full => Back::Full,
        Ending::NotRun => Back::Take,
    }
}

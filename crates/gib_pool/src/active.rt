//! What a worker holds of the task that it is at.

ghost use Rattle.std.specs.Prelude.{◌≡◌, []};
ghost use Rattle.std.specs.Vec.{vec_capacity};
ghost use Rattle.gib_pool.specs.Frames.{newest_made};

use crate::workspace::Workspace;
use gib_arena::Pass;
use gib_region::Tails;

/// A task that a worker is at: its machine with its tails and frames, and the pass over whose bytes it works.
#[derive(Drop)]
pub(crate) struct ActiveTask {
    pub(crate) workspace: Box<Workspace>,
    pub(crate) pass: Pass,
    /// How many of the newest frames' tasks may still be in the worker's deque.
    pub(crate) here: usize,
}

impl ActiveTask {
    /// A task at its begin, with no right sides: its machine and the room for its frames are those of the workspace.
    pub(crate) fn make(mut workspace: Box<Workspace>, tails: Tails, pass: Pass) -> ActiveTask
        ensures machine { (result.workspace.value.machine ≡ workspace.value.machine) × (result.workspace.value.tails ≡ tails) }
        ensures pass { result.pass ≡ pass }
        ensures frames { (result.workspace.value.frames.items ≡ []) × (result.here ≡ 0) }
        ensures room { vec_capacity result.workspace.value.frames ≡ vec_capacity workspace.value.frames }
    {
        let at = &mut *workspace;
        at.tails = tails;
        at.frames.clear();
        ActiveTask {
            workspace,
            pass,
            here: 0,
        }
    }

    /// Whether the newest right side was offered to others: its frame was made, and not refused.
    pub(crate) fn is_offered(&self) -> bool
        ensures { result ≡ newest_made self.now.workspace.value.frames.items }
    {
        match self.workspace.frames.last() {
            None => false,
            Some(newest) => newest.is_some(),
        }
    }
}

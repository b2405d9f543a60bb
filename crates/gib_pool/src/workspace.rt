//! What a worker keeps from one task to the next.

ghost use Rattle.std.specs.Prelude.{◌≡◌, ◌≤◌, IsTrue, IfOk};
ghost use Rattle.std.specs.Vec.{vec_capacity};
ghost use Rattle.gib_machine.specs.{Frames.{FitsFrame}, State.{widest}, Sides.{side_start}, Starting.{waiting_of}};

use gib_base::Memory;
use gib_code::{Code, Side};
use gib_frame::Frame;
use gib_machine::Machine;
use gib_region::Tails;
use std::alloc::{AllocError, Global};

/// The machine of a worker, the tails of its task, and the room for its frames. All are taken before the first thread of a run is started, so
/// that to begin a side that was stolen takes no memory. They are a thousand bytes: a task that goes on has them by a `Box`.
#[derive(Drop)]
pub(crate) struct Workspace {
    pub(crate) machine: Machine,
    pub(crate) tails: Tails,
    /// For each right side that was not joined its frame, or none where it was not offered; the newest last. There is room for one for each fork
    /// that the task may nest.
    pub(crate) frames: Vec<Option<Frame>>,
}

impl Workspace {
    /// A workspace for sides of this code with at most so many calls and forks nested.
    ///
    /// # Errors
    ///
    /// Want of memory.
    pub(crate) fn make(
        alloc: Global,
        code: &Code,
        depth: u32,
        level: u32,
    ) -> Result<Box<Workspace>, Memory> {
        let machine = Machine::make(alloc, code, 0, &[], depth, 0)?;
        Workspace::of(alloc, machine, level)
    }

    /// A workspace with this machine, for a task that nests at most so many forks.
    ///
    /// # Errors
    ///
    /// Want of memory.
    pub(crate) fn of(
        alloc: Global,
        machine: Machine,
        level: u32,
    ) -> Result<Box<Workspace>, AllocError>
        ensures machine { IfOk result (λ w. w.value.machine ≡ machine) }
        ensures room { IfOk result (λ w. level ≤ vec_capacity w.value.frames) }
    {
        let frames = Vec::with_capacity(alloc, level as usize)?;
        let workspace = Workspace {
            machine,
            tails: Tails::new(),
            frames,
        };
        Ok(Box::new(alloc, workspace)?)
    }

    /// Makes the machine that of a side at its begin, with room for a frame for each fork that it may nest. False where the workspace was
    /// made for fewer calls or forks.
    pub(crate) fn begin(&mut self, code: &Code, side: Side) -> bool
        requires { FitsFrame (widest code.now.functions) (waiting_of side).words }
        ensures machine { IsTrue result → self.new.machine ≡ side_start code.now (waiting_of side) }
        ensures room { IsTrue result → side.level ≤ vec_capacity self.new.frames }
    {
        if self.frames.capacity() < side.level as usize {
            return false;
        }
        self.machine.restart(code, &side)
    }
}

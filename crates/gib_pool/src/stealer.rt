//! The way to the forks of another worker.

ghost use Rattle.std.specs.Prelude.{◌≡◌, IfOk};
ghost use Rattle.crossbeam_deque.specs.Handles.{IsPassOf, stealer_deque, worker_deque, view};
ghost use Rattle.gib_pool.specs.Stacks.{guest};

use crate::forks::{ForkStealer, Forks, StealPass, steal_fork};
use crossbeam_deque::Steal;
use gib_frame::Task;
use std::alloc::AllocError;
use std::sync::Wait;

/// A stealer of the forks of another worker, with what it knows of their deque.
#[derive(Drop)]
pub(crate) struct Stealer<'a> {
    forks: ForkStealer<'a>,
    pass: StealPass<'a>,
    ghost own: { IsPassOf (stealer_deque forks) pass × (view pass ≡ guest) },
}

impl<'a> Stealer<'a> {
    /// A stealer of these forks.
    ///
    /// # Errors
    ///
    /// Want of memory.
    pub(crate) fn make(worker: &Forks<'a>) -> Result<Stealer<'a>, AllocError>
        ensures { IfOk result (λ stealer. stealer_deque stealer.forks ≡ worker_deque worker.now) }
    {
        let forks = worker.stealer()?;
        let pass = forks.pass();
        Ok(Stealer { forks, pass })
    }

    /// One try to take the oldest of the forks.
    fn try_steal(&mut self) -> Steal<Task<'a>> {
        steal_fork(&self.forks, &mut self.pass)
    }

    /// The oldest of the forks; None where there is none. It tries again where the deque says so, as where another worker took one meanwhile.
    pub(crate) fn steal<R: Wait>(&mut self, rt: &R) -> Option<Task<'a>> {
        for _ in rt.forever() {
            match self.try_steal() {
                Steal::Success(task) => return Some(task),
                Steal::Empty => return None,
                Steal::Retry => {}
            }
        }
        unreachable!()
    }
}

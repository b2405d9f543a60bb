//! The forks of one worker, which others may steal.

ghost use Rattle.std.specs.Prelude.{◌≡◌, [], ◌∷◌, ◌++◌, IfOk, IfErr, IfSome, IfNone};
ghost use Rattle.crossbeam_deque.specs.Handles.{IsPassOf, stealer_deque, worker_deque, worker_view, view};
ghost use Rattle.gib_pool.specs.{Mine.{IsMine}, Stacks.{own, guest, due_of}};

use crossbeam_deque::protocol::{Lesson, Outcome, Protocol};
use crossbeam_deque::{Pass, Steal, Stealer, Worker};
use gib_frame::{Due, Task};
use std::alloc::{AllocError, Global};
use std::collections::LinkedList;

/// What a worker has pushed and not popped, the oldest first. Contracts speak of it; no value of it is made.
pub(crate) struct Stack {
    pub(crate) owner: bool,
    pub(crate) mine: LinkedList<Due>,
}

/// The rule of a deque of forks: its owner knows what it pushed and did not pop.
pub(crate) struct Stacking;

impl<'a> Protocol<Task<'a>, Stack> for Stacking {
    ghost use Rattle.std.specs.Prelude.{[]};
    ghost use Rattle.gib_pool.specs.Stacks.{own, guest, Stacked};

    ghost holds = { Stacked };

    ghost first = { own [] };

    ghost guest = { guest };
}

/// What the owner knows after a push.
pub(crate) struct Push;

impl<'a> Outcome<Task<'a>, Stack> for Push {
    ghost use Rattle.gib_pool.specs.Stacks.{Pushed};

    ghost then = { Pushed };
}

/// What the owner knows after a pop.
pub(crate) struct Pop;

impl<'a> Outcome<Task<'a>, Stack> for Pop {
    ghost use Rattle.gib_pool.specs.Stacks.{Popped};

    ghost then = { Popped };
}

/// What another worker knows after a steal.
pub(crate) struct StealOldest;

impl<'a> Outcome<Task<'a>, Stack> for StealOldest {
    ghost use Rattle.gib_pool.specs.Stacks.{Stole};

    ghost then = { Stole };
}

/// What the owner is told where it looks how many there are: no more than that.
pub(crate) struct Look;

impl<'a> Lesson<Task<'a>, Stack> for Look {
    ghost use Rattle.std.specs.Prelude.{⊤};

    ghost fact = { λ _ _. ⊤ };
}

/// The forks of a worker, in its own hands.
pub(crate) type Forks<'a> = Worker<Task<'a>, Global, Stack, Stacking>;

/// The forks of a worker, for others to steal.
pub(crate) type ForkStealer<'a> = Stealer<Task<'a>, Global, Stack, Stacking>;

/// What a worker that steals knows of a deque.
pub(crate) type StealPass<'a> = Pass<Task<'a>, Stack>;

/// So many forks that wait to be stolen are enough: who has them runs the right sides of further ones itself, which costs far less. It is as
/// many as a run of the command line nests where it is not told otherwise. One that is stolen makes room for the next.
const ENOUGH: usize = 4;

/// The slots for forks that are taken at first, so that no push grows them.
const SLOTS: usize = 2 * ENOUGH;

/// No forks, in the hands of their worker.
///
/// # Errors
///
/// Want of memory.
pub(crate) fn new_forks<'a>(alloc: Global) -> Result<Forks<'a>, AllocError>
    ensures { IfOk result (λ forks. IsMine forks) }
{
    Forks::lifo_as(alloc, SLOTS)
}

/// Offers a task to whoever steals it.
///
/// # Errors
///
/// Want of memory; the task comes back.
pub(crate) fn push_fork<'a>(forks: &mut Forks<'a>, task: Task<'a>) -> Result<(), Task<'a>>
    requires { IsMine forks.old }
    ensures same { IsMine forks.new × (worker_deque forks.new ≡ worker_deque forks.old) }
    ensures ok { IfOk result (λ _. worker_view forks.new ≡ own ((worker_view forks.old).mine ++ due_of task.entry ∷ [])) }
    ensures err { IfErr result (λ t. (t ≡ task.entry) × (worker_view forks.new ≡ worker_view forks.old)) }
{
    forks.push_as::<Push>(task)
}

/// Whether enough forks wait to be stolen, so that there is no need to offer one more. One load tells it.
pub(crate) fn are_enough<'a>(forks: &mut Forks<'a>) -> bool
    requires { IsMine forks.old }
    ensures same { IsMine forks.new × (worker_deque forks.new ≡ worker_deque forks.old) }
    ensures view { worker_view forks.new ≡ worker_view forks.old }
{
    forks.len_as::<Look>() >= ENOUGH
}

/// The task that was pushed last and not popped, where none was stolen since.
pub(crate) fn take_back<'a>(forks: &mut Forks<'a>) -> Option<Task<'a>>
    requires { IsMine forks.old }
    ensures same { IsMine forks.new × (worker_deque forks.new ≡ worker_deque forks.old) }
    ensures some { IfSome result (λ t. (worker_view forks.old).mine ≡ (worker_view forks.new).mine ++ due_of t ∷ []) }
    ensures none { IfNone result (worker_view forks.new ≡ worker_view forks.old) }
{
    forks.pop_as::<Pop>()
}

/// The oldest task of another worker, where there is one.
pub(crate) fn steal_fork<'a>(stealer: &ForkStealer<'a>, pass: &mut StealPass<'a>) -> Steal<Task<'a>>
    requires { IsPassOf (stealer_deque stealer.now) pass.old × (view pass.old ≡ guest) }
    ensures { IsPassOf (stealer_deque stealer.now) pass.new × (view pass.new ≡ guest) }
{
    stealer.steal_as::<StealOldest>(pass)
}

//! A worker at a fork.

ghost use Rattle.std.specs.Prelude.{◌≡◌, ◌<◌, ◌+◌, ◌^◌, ◌∷◌, ℕ, List, Option, slice_get};
ghost use Rattle.crossbeam_deque.specs.Handles.{worker_deque, worker_view};
ghost use Rattle.gib_core.specs.Parts.{core_of};
ghost use Rattle.gib_machine.specs.{State.{widest}, Machine.{next}, Sides.{right_of}, Stepping.{with_tails}, declared.turn.Turn.TheVariants.{AtFork}};
ghost use Rattle.gib_machine.specs.State as asks;
ghost use Rattle.gib_weave.specs.{Owing.{Debt}, Sound.{SideSafe}};
ghost use Rattle.gib_arena.specs.Passes.{cells, IsOf};
ghost use Rattle.gib_frame.specs.declared.due.Due.{Due};
ghost use Rattle.gib_pool.specs.{Frames.{due_maybe, AreHere}, Active.{Holds, IsHere, IsOn, StandsAt}, Mine.{IsMine}, Offers.{Offers}};

use crate::active::ActiveTask;
use crate::forks::{Forks, are_enough};
use crate::offer::offer_side;
use gib_arena::{Arena, Pass};
use gib_frame::Frame;
use gib_machine::Machine;
use gib_weave::Runnable;
use std::alloc::Global;

/// Offers the right side of the fork at which the machine stands; none where enough sides wait to be stolen, or memory refuses this one or its
/// frame.
#[tactic(auto, using(crate::proofs::Offering::none_offered, crate::proofs::Offering::offered_on))]
fn offer_here<'a>(
    alloc: Global,
    arena: &'a Arena,
    lowered: &'a Runnable<'a>,
    machine: &Machine,
    pass: &mut Pass,
    forks: &mut Forks<'a>,
    here: &mut usize,
) -> Option<Frame>
    requires own { IsOf arena.now pass.old }
    requires made { machine.now.width ≡ widest lowered.now.code.functions }
    requires fork { (tails : List ℕ) × (next lowered.now.code (with_tails machine.now tails) ≡ asks.AtFork) }
    requires owes { (tails : List ℕ) × (e : Debt) × SideSafe (core_of lowered.now.core) lowered.now.code e (cells pass.old) (right_of (with_tails machine.now tails) (slice_get lowered.now.code.instructions machine.now.ip)) }
    requires mine { IsMine forks.old }
    requires few { here.old + 1 < 2 ^ 64 }
    ensures offers { (tails : List ℕ)
        → Offers arena.entry.now lowered.entry.now (right_of (with_tails machine.entry.now tails) (slice_get lowered.entry.now.code.instructions machine.entry.now.ip))
        pass.old pass.new (worker_view forks.old).mine (worker_view forks.new).mine result }
    ensures here { (lent : List (Option Due)) → AreHere lent here.old (worker_view forks.old).mine → AreHere (due_maybe result ∷ lent) here.new (worker_view forks.new).mine }
    ensures mine { IsMine forks.new × (worker_deque forks.new ≡ worker_deque forks.old) }
{
    if are_enough(forks) {
        return None;
    }
    let Ok(side) = machine.side(alloc, lowered.code()) else {
        return None;
    };
    let frame = offer_side(alloc, arena, lowered, pass, side, forks)?;
    *here += 1;
    Some(frame)
}

/// Offers the right side of the fork to whoever steals it, and begins the left side. Where it is not offered, the right side is left to be
/// taken in place. The room for the frame was taken with the task.
pub(crate) fn fork_here<'a>(
    alloc: Global,
    arena: &'a Arena,
    lowered: &'a Runnable<'a>,
    mut active: ActiveTask,
    forks: &mut Forks<'a>,
) -> ActiveTask
    requires holds { Holds arena.now lowered.now active }
    requires stands { (d : Debt) × StandsAt lowered.now d active AtFork }
    requires mine { IsMine forks.old }
    requires here { IsHere active (worker_view forks.old).mine }
    ensures mine { IsMine forks.new × (worker_deque forks.new ≡ worker_deque forks.old) }
    ensures on { IsOn arena.entry.now lowered.entry.now (λ (d : Debt). StandsAt lowered.entry.now d active AtFork) active (worker_view forks.new).mine result }
{
    let at = &mut *active.workspace;
    let frame = offer_here(
        alloc,
        arena,
        lowered,
        &at.machine,
        &mut active.pass,
        forks,
        &mut active.here,
    );
    at.machine.left(lowered.code());
    at.frames.push_reserved(frame);
    active
}

//! A worker's machine goes on over the bytes of the worker's pass.

ghost use Rattle.std.specs.Prelude.{List};
ghost use Rattle.gib_weave.specs.Owing.{Debt};
ghost use Rattle.gib_frame.specs.declared.due.Due.{Due};
ghost use Rattle.gib_pool.specs.Active.{Holds, IsHere, IsSamePass, OwesStill, StandsAt};

use crate::active::ActiveTask;
use crate::going::go_on;
use gib_arena::{Arena, ArenaMem, names_tell};
use gib_machine::Turn;
use gib_weave::Runnable;
use std::sync::Wait;

/// Goes on until the machine stands at a fork, at a join or at its end, or draws where all chunks are drawn.
pub(crate) fn run_on<R: Wait>(
    rt: &R,
    arena: &Arena,
    lowered: &Runnable<'_>,
    active: ActiveTask,
) -> (ActiveTask, Turn)
    requires holds { Holds arena.now lowered.now active }
    requires owes { (d : Debt) × OwesStill lowered.now d active }
    ensures holds { Holds arena.entry.now lowered.entry.now result.0 }
    ensures stands { (d : Debt) → OwesStill lowered.entry.now d active → StandsAt lowered.entry.now d result.0 result.1 }
    ensures here { (mine : List Due) → IsHere active mine → IsHere result.0 mine }
    ensures same { IsSamePass active.pass result.0.pass }
{
    let ActiveTask {
        mut workspace,
        pass,
        here,
    } = active;
    let mut mem = ArenaMem::make(arena, pass);
    let at = &mut *workspace;
    let turn = go_on(rt, lowered, &mut at.machine, &mut mem, &mut at.tails);
    let (_arena, pass) = mem.into_pass();
    names_tell();
    let active = ActiveTask {
        workspace,
        pass,
        here,
    };
    (active, turn)
}

//! A frame and its task; the answer is given, and waited for.

ghost use Rattle.std.specs.Prelude.{◌≡◌, [], IfOk, IfErr};
ghost use Rattle.std.specs.Arc.{arc_value};
ghost use Rattle.gib_arena.specs.Passes.{view, cells, IsOf};
ghost use Rattle.gib_machine.specs.{Frames.{FitsFrame}, State.{widest}, Starting.{waiting_of}};
ghost use Rattle.gib_frame.specs.{Answers.{Delivers, Owes, drawn_by}, Dues.{frame_due, reply_due}};

use crate::due::{Due, Ending, Give, Given, Sit, Take};
use crate::ends::{Cell, Frame, Reply, Task};
use atomic_table::Table;
use gib_arena::{Arena, Pass};
use gib_code::Side;
use gib_weave::Runnable;
use std::alloc::Global;
use std::snapshot::Snapshot;
use std::sync::{Arc, Condvar, Mutex, Wait};

/// Nothing lies in the slot.
const FREE: u64 = 0;

/// An answer lies in the slot.
const PRESENT: u64 = 1;

/// A thread has the slot.
const TAKEN: u64 = 3;

/// A frame for a right side, with the task that runs it in a pass that was split for it.
///
/// # Errors
///
/// Want of memory; the pass comes back.
pub fn make<'a>(
    alloc: Global,
    arena: &'a Arena,
    lowered: &'a Runnable<'a>,
    side: Side,
    pass: Pass,
) -> Result<(Frame, Task<'a>), Pass>
    requires pass { IsOf arena.now pass × ((view pass).branch.out ≡ []) × (drawn_by pass ≡ 0) }
    requires fits { FitsFrame (widest lowered.now.code.functions) (waiting_of side).words }
    requires owes { Owes lowered.now (cells pass) side }
    ensures due { IfOk result (λ r. (frame_due r.0).lowered.value ≡ lowered.entry.now) }
    ensures side { IfOk result (λ r. ((frame_due r.0).side.value ≡ side) × ((frame_due r.0).pass.value ≡ pass)) }
    ensures task { IfOk result (λ r. r.1 ≡ record { due = frame_due r.0; arena = arena.entry.now; lowered = lowered.entry.now; side = side; pass = pass }) }
    ensures err { IfErr result (λ p. p ≡ pass) }
{
    let due = Due {
        lowered: Snapshot::of(lowered.lowered()),
        side: Snapshot::of(&side),
        pass: Snapshot::of(&pass),
    };
    let Ok((table, _seat)) = Table::vacant(alloc, &[FREE], 1, &due) else {
        return Err(pass);
    };
    let cell = Cell {
        table,
        gate: Mutex::new(()),
        came: Condvar::new(),
    };
    let Ok(cell) = Arc::new(alloc, cell) else {
        return Err(pass);
    };
    let Ok(other) = Arc::try_clone(&cell) else {
        return Err(pass);
    };
    Ok((
        Frame { cell },
        Task::make(other, arena, lowered, side, pass),
    ))
}

/// Tells how a task ended, and hands its pass over. It takes no memory, and waits only while the other end looks at the slot.
pub fn put_answer<R: Wait>(rt: &R, reply: Reply, ending: Ending, pass: Pass)
    requires { Delivers (reply_due reply) ending pass }
{
    let Reply { cell } = reply;
    let shared = &cell.table.shared;
    let (_word, mut seat) = shared.load_new_seat::<Sit>(0);
    'turns: for _ in rt.forever() {
        if shared.compare_exchange::<Take>(&mut seat, 0, FREE, TAKEN) == FREE {
            let _ = shared.exchange(&mut seat, 0, Some(Given { ending, pass }));
            shared.store::<Give>(&mut seat, 0, PRESENT);
            let _told = cell.gate.lock(rt);
            cell.came.notify_all();
            return;
        }
    }
    unreachable!()
}

/// Waits until the task has ended, and takes its pass. It sleeps until they are there.
pub fn wait_answer<R: Wait>(rt: &R, frame: &Frame) -> (Ending, Pass)
    ensures { Delivers (frame_due frame.now) result.0 result.1 }
{
    let shared = &frame.cell.table.shared;
    let (_word, mut seat) = shared.load_new_seat::<Sit>(0);
    'turns: for _ in rt.forever() {
        if shared.compare_exchange::<Take>(&mut seat, 0, PRESENT, TAKEN) == PRESENT {
            let old = shared.exchange(&mut seat, 0, None);
            shared.store::<Give>(&mut seat, 0, FREE);
            if let Some(given) = old {
                return (given.ending, given.pass);
            }
        } else {
            let gate = frame.cell.gate.lock(rt);
            let _ = frame
                .cell
                .came
                .wait_while(rt, gate, |_| shared.peek(0) != PRESENT);
        }
    }
    unreachable!()
}

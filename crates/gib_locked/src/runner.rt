//! The workers of a run, and the lock that they share.

ghost use Rattle.std.specs.Prelude.{◌≡◌, ◌<◌};
ghost use Rattle.gib_locked.specs.{Run.{IsRun}, Locked.{IsAnswerOf}};

use crate::held::{Did, End, Held};
use crate::journal::{Journal, Lines};
use crate::settings::Settings;
use counted_slot::{Counted, FREE, PRESENT, TAKEN};
use gib_edge::outside::{Gate, Point};
use gib_weave::{Event, Weave};
use std::alloc::Global;
use std::snapshot::Snapshot;
use std::sync::{Condvar, Mutex, Wait};
use std::thread::{Threads, join};

/// How a run over the lock ended.
#[derive(Drop)]
pub enum Locked<'a> {
    /// The root has ended.
    Ended(Weave<'a>, Journal),
    /// An enabled step draws, and all chunks are drawn.
    Full(Weave<'a>, Journal),
    /// Want of memory.
    Memory,
}

// The slot's word is `FREE` where the value lies in it, `PRESENT` where a thread has it out.
type Slot<'a> = Counted<Option<Held<'a>>>;

// The lock, where those sleep that find no event, and the slot.
#[derive(Drop)]
struct Hall<'a> {
    lock: Mutex<()>,
    changed: Condvar,
    slot: Slot<'a>,
}

// Takes the value out, by the slot's turn; tries again where that is not given.
fn take_out<'a, R: Wait>(rt: &R, slot: &Slot<'a>) -> Held<'a>
    ensures { IsRun slot.now.value result.weave result.lines.all.items result.end }
{
    for _ in rt.forever() {
        let (found, claim) = slot.turn(FREE, TAKEN);
        if found == FREE {
            if let Some(held) = claim.put(None, PRESENT) {
                return held;
            }
        } else {
            claim.done();
        }
    }
    unreachable!()
}

// Puts the value back.
fn put_back<'a, R: Wait>(rt: &R, slot: &Slot<'a>, held: Held<'a>)
    requires { IsRun slot.now.value held.weave held.lines.all.items held.end }
{
    for _ in rt.forever() {
        let (found, claim) = slot.turn(PRESENT, TAKEN);
        if found == PRESENT {
            let _ = claim.put(Some(held), FREE);
            return;
        }
        claim.done();
    }
    unreachable!()
}

// Where a gate is told of an event that happened.
fn point_of(event: Event) -> Option<Point> {
    match event {
        Event::Fork(_) => Some(Point::Forked),
        Event::Steal(_) => Some(Point::Stolen),
        Event::Finish(_) => Some(Point::Answered),
        _ => None,
    }
}

// Whether an event may enable one of another worker's: a side that waits may be stolen, and the task of one that ended be joined.
fn wakes(event: Event) -> bool {
    match event {
        Event::Fork(_) | Event::Finish(_) => true,
        _ => false,
    }
}

// One worker, which has these tasks.
fn work<R: Wait, G: Gate>(
    rt: &R,
    alloc: Global,
    hall: &Hall<'_>,
    worker: u32,
    gate: &G,
    mut mine: Vec<u32>,
) {
    for _ in rt.forever() {
        let lock = hall.lock.lock(rt);
        let mut held = take_out(rt, &hall.slot);
        let did = held.act(alloc, &mut mine);
        put_back(rt, &hall.slot, held);
        match did {
            Did::Over => {
                hall.changed.notify_all();
                return;
            }
            Did::Nothing => {
                let _woken = hall.changed.wait(rt, lock);
            }
            Did::Applied(event) => {
                if wakes(event) {
                    hall.changed.notify_all();
                }
                drop(lock);
                if let Some(point) = point_of(event) {
                    gate.at(worker, point);
                }
            }
        }
    }
    unreachable!()
}

// The workers with these numbers and below: worker 0 is the caller's thread, and has these tasks. A worker whose thread cannot be
// started comes when the run has ended, and does nothing.
fn crew<R: Threads + Wait + Sync, G: Gate + Sync>(
    rt: &R,
    alloc: Global,
    hall: &Hall<'_>,
    worker: u32,
    gate: &G,
    mine: Vec<u32>,
) {
    if worker == 0 {
        work(rt, alloc, hall, 0, gate, mine);
        return;
    }
    join(
        rt,
        move || work(rt, alloc, hall, worker, gate, Vec::new(alloc)),
        move || -> ()
            requires { 0 < worker }
        { crew(rt, alloc, hall, worker - 1, gate, mine) },
    );
}

/// Runs a weave by so many workers, of which the caller's thread is the first, until its root has ended, a step draws where all chunks
/// are drawn, or memory is refused. The journal tells which events happened, in order. A gate is told of forks, of steals and of answers but the root's.
pub fn run_locked<'a, R: Threads + Wait + Sync, G: Gate + Sync>(
    rt: &R,
    alloc: Global,
    weave: Weave<'a>,
    settings: Settings,
    workers: u32,
    gate: &G,
) -> Locked<'a>
    requires { 0 < workers }
    ensures { IsAnswerOf weave.entry settings result }
{
    let mut mine = Vec::new(alloc);
    if mine.push(0u32).is_err() {
        return Locked::Memory;
    }
    let start = Snapshot::of(&weave);
    let held = Held {
        weave,
        lines: Lines::new(alloc),
        end: End::Going,
    };
    let hall = Hall {
        lock: Mutex::new(()),
        changed: Condvar::new(),
        slot: Counted::new(Some(held), &start),
    };
    crew(rt, alloc, &hall, workers - 1, gate, mine);
    finish(rt, &hall.slot, settings)
}

// Takes the value of a run that has ended out.
fn finish<'a, R: Wait>(rt: &R, slot: &Slot<'a>, settings: Settings) -> Locked<'a>
    ensures { IsAnswerOf slot.now.value settings result }
{
    for _ in rt.forever() {
        let Held { weave, lines, end } = take_out(rt, slot);
        match end {
            End::Ended => return Locked::Ended(weave, Journal { settings, lines }),
            End::Full => return Locked::Full(weave, Journal { settings, lines }),
            End::Memory => return Locked::Memory,
            End::Going => put_back(rt, slot, Held { weave, lines, end }),
        }
    }
    unreachable!()
}

//! The events of a journal happen to a weave.

ghost use Rattle.std.specs.Prelude.{◌≡◌, ◌++◌, ℕ, List, replicate, true, false, OnOk, IfErr};
ghost use Rattle.gib_weave.specs.{Applied.{event_of}, Woven.{WeaveParts}};
ghost use Rattle.gib_weave.specs.Weave as w;
ghost use Rattle.gib_locked.specs.{Lines.{counted}, Replays.{AllHappen, Goes, ReplaysTo, StopsAmong}, Run.{HasEnded}};

use crate::journal::{Journal, Line};
use crate::replay_fault::ReplayFault;
use gib_weave::{Event, Weave, WeaveFault};
use std::alloc::Global;

/// One event, so many times.
#[derive(Clone, Copy)]
struct Times {
    event: Event,
    count: u64,
}

/// An event, once.
fn once(event: Event) -> Times
    ensures event { result.event ≡ event }
    ensures count { result.count ≡ 1 }
{
    Times { event, count: 1 }
}

/// The events of a line.
fn times_of(line: Line) -> Times
    ensures { counted line ≡ replicate result.count (event_of result.event) }
{
    match line {
        Line::Steps(task, count) => Times {
            event: Event::Step(task),
            count,
        },
        Line::Forks(task) => once(Event::Fork(task)),
        Line::Steals(task) => once(Event::Steal(task)),
        Line::Takes(task) => once(Event::Take(task)),
        Line::Finishes(task) => once(Event::Finish(task)),
        Line::Joins(task) => once(Event::Join(task)),
    }
}

/// An event happens so many times; it stops at the first that is refused.
fn apply_times(alloc: Global, weave: &mut Weave<'_>, times: Times) -> Result<(), WeaveFault>
    ensures all { OnOk result ((start : WeaveParts) (es : List w.Event) → Goes start es weave.old → Goes start (es ++ replicate times.count (event_of times.event)) weave.new) }
    ensures stop { IfErr result (λ f. (start : WeaveParts) (es : List w.Event) → Goes start es weave.old → StopsAmong start es (event_of times.event) times.count weave.new f) }
{
    let mut made = 0;
    'times: while made < times.count {
        match weave.apply(alloc, times.event) {
            Ok(()) => made += 1,
            Err(fault) => return Err(fault),
        }
    }
    Ok(())
}

/// The events of all lines happen, in order; it stops at the first that is refused.
fn apply_lines(alloc: Global, weave: &mut Weave<'_>, lines: &Vec<Line>) -> Result<(), ReplayFault>
    ensures { AllHappen weave.old lines.now.items weave.new result }
{
    let mut at = 0;
    'lines: while at < lines.len() {
        match apply_times(alloc, weave, times_of(lines[at])) {
            Ok(()) => at += 1,
            Err(WeaveFault::NotNow) => return Err(ReplayFault::NotNow(at as u64 + 3)),
            Err(WeaveFault::Full) => return Err(ReplayFault::Full),
            Err(WeaveFault::Memory) => return Err(ReplayFault::Memory),
        }
    }
    Ok(())
}

fn is_over(weave: &Weave<'_>) -> bool
    ensures yes { result ≡ true → HasEnded weave.now }
    ensures no { result ≡ false → HasEnded weave.now → ⊥ }
{
    weave.ended().is_some()
}

/// The weave to which the events of a journal lead, one after another, from this one. Its root has ended.
///
/// # Errors
///
/// `NotNow`: an event is not enabled; the number is that of its line. `Full`: one draws, and all chunks are drawn. `Open`: all
/// happened, and the root has not ended. `Memory`: want of memory.
pub fn replay<'a>(
    alloc: Global,
    weave: Weave<'a>,
    journal: &Journal,
) -> Result<Weave<'a>, ReplayFault>
    ensures { ReplaysTo weave.entry journal.now.lines.all.items result }
{
    let mut weave = weave;
    match apply_lines(alloc, &mut weave, &journal.lines.all) {
        Ok(()) => {}
        Err(fault) => return Err(fault),
    }
    if !is_over(&weave) {
        return Err(ReplayFault::Open);
    }
    Ok(weave)
}

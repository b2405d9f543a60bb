//! What lies in the one slot of a run, and a worker's turn with it.

ghost use Rattle.std.specs.Prelude.{◌≡◌, ◌<◌, ℕ, [], ◌∷◌, ◌++◌, IsTrue, IfSome, IfNone, OnOk, OnErr};
ghost use Rattle.std.specs.Vec.{vec_len, vec_capacity};
ghost use Rattle.gib_types.specs.Tree.{Datum};
ghost use Rattle.gib_weave.specs.{Applied.{Applied, event_of}, Weave.{Enabled}, Woven.{IsSoundOn, WeaveParts, weave_of}};
ghost use Rattle.gib_locked.specs.{Choice.{HasNoOwn, HasNothing, IsChosen, IsOwn}, Lines.{counted_out}, Run.{HasEnded, IsRun}};
ghost use Rattle.gib_locked.specs.declared.held.End.TheVariants.{Going};

use crate::journal::Lines;
use counted_slot::Fits;
use gib_weave::{Event, Weave, WeaveFault};
use std::alloc::Global;
use std::snapshot::Snapshot;

/// Whether a run goes on, and if not, why it ended.
#[derive(Clone, Copy, PartialEq, Eq)]
pub enum End {
    Going,
    /// The root has ended.
    Ended,
    /// An enabled step draws, and all chunks are drawn.
    Full,
    /// Want of memory.
    Memory,
}

/// A weave, the lines that lead to it from the weave that the run began with, and whether the run goes on.
#[derive(Drop)]
pub struct Held<'a> {
    pub weave: Weave<'a>,
    pub lines: Lines,
    pub end: End,
}

impl<'a> Fits for Held<'a> {
    type Tag = Snapshot<Weave<'a>>;

    ghost fits = { λ start held. IsRun start.value held.weave held.lines.all.items held.end };
}

/// What a worker did in its turn.
#[derive(Clone, Copy, PartialEq, Eq)]
pub(crate) enum Did {
    /// One event.
    Applied(Event),
    /// Nothing: no event of its own is enabled, and none can be stolen.
    Nothing,
    /// It ended the run, or found it ended.
    Over,
}

/// An event of the task that a worker began last, of these. Its older tasks wait for that one. No run stands still by this: who waits for
/// a side waits for a task that was begun later, so the worker that began one last of all has an event.
fn own_event(weave: &Weave<'_>, mine: &Vec<u32>) -> Option<Event>
    ensures some { IfSome result (λ e. Enabled weave.now.lowered.code (weave_of weave.now) (event_of e) × IsOwn mine.now.items (event_of e)) }
    ensures none { IfNone result (HasNoOwn weave.now.lowered.code (weave_of weave.now) mine.now.items) }
{
    let Some(task) = mine.last() else {
        return None;
    };
    weave.pick_of(*task)
}

/// The next event of a worker with these tasks: one of its own, or else a steal.
fn choose(weave: &Weave<'_>, mine: &Vec<u32>) -> Option<Event>
    ensures some { IfSome result (λ e. IsChosen weave.now.lowered.code (weave_of weave.now) mine.now.items (event_of e)) }
    ensures none { IfNone result (HasNothing weave.now.lowered.code (weave_of weave.now) mine.now.items) }
{
    match own_event(weave, mine) {
        Some(event) => Some(event),
        None => weave.pick_steal(),
    }
}

fn goes_on(end: End) -> bool
    ensures { IsTrue result → end ≡ Going }
{
    match end {
        End::Going => true,
        End::Ended | End::Full | End::Memory => false,
    }
}

fn has_ended(weave: &Weave<'_>) -> bool
    ensures { IsTrue result → HasEnded weave.now }
{
    weave.ended().is_some()
}

impl<'a> Held<'a> {
    // An event happens, and is written down.
    fn happen(&mut self, alloc: Global, event: Event) -> Result<(), WeaveFault>
        requires { vec_len self.old.lines.all < vec_capacity self.old.lines.all }
        ensures lowered { self.new.weave.lowered ≡ self.old.weave.lowered }
        ensures applied { Applied self.old.weave.lowered.code (weave_of self.old.weave) (event_of event) (weave_of self.new.weave) result }
        ensures sound { (depth level : ℕ) (d : Datum) → IsSoundOn self.old.weave.lowered depth level d (weave_of self.old.weave) → IsSoundOn self.old.weave.lowered depth level d (weave_of self.new.weave) }
        ensures written { OnOk result (counted_out self.new.lines.all.items ≡ counted_out self.old.lines.all.items ++ event_of event ∷ []) }
        ensures same { OnErr result (self.new.lines.all.items ≡ self.old.lines.all.items) }
        ensures end { self.new.end ≡ self.old.end }
    {
        match self.weave.apply(alloc, event) {
            Ok(()) => {
                self.lines.add(event);
                Ok(())
            }
            Err(fault) => Err(fault),
        }
    }

    /// One turn of a worker: an event happens and is written down, or the run ends.
    pub(crate) fn act(&mut self, alloc: Global, mine: &mut Vec<u32>) -> Did
        ensures { (start : WeaveParts) → IsRun start self.old.weave self.old.lines.all.items self.old.end → IsRun start self.new.weave self.new.lines.all.items self.new.end }
    {
        if !goes_on(self.end) {
            return Did::Over;
        }
        let Some(event) = choose(&self.weave, mine) else {
            return Did::Nothing;
        };
        if self.lines.make_room().is_err() || mine.reserve(1).is_err() {
            self.end = End::Memory;
            return Did::Over;
        }
        let number = self.weave.tasks().min(u32::MAX as u64) as u32;
        match self.happen(alloc, event) {
            Ok(()) => {
                match event {
                    Event::Steal(_) => mine.push_reserved(number),
                    Event::Finish(_) => {
                        let _gone = mine.pop();
                    }
                    _ => {}
                }
                if has_ended(&self.weave) {
                    self.end = End::Ended;
                    return Did::Over;
                }
                Did::Applied(event)
            }
            Err(WeaveFault::NotNow) => Did::Nothing,
            Err(WeaveFault::Full) => {
                self.end = End::Full;
                Did::Over
            }
            Err(WeaveFault::Memory) => {
                self.end = End::Memory;
                Did::Over
            }
        }
    }
}

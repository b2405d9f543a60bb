//! The journal of a run.

ghost use Rattle.std.specs.Prelude.{◌≡◌, ◌<◌, ◌++◌, ◌∷◌, [], OnOk, true};
ghost use Rattle.std.specs.Vec.{vec_len, vec_capacity};
ghost use Rattle.gib_weave.specs.Applied.{event_of};
ghost use Rattle.gib_locked.specs.Lines.{are_lines, counted_out, is_line, line_of, longer};

use crate::settings::Settings;
use gib_base::Memory;
use gib_weave::Event;
use std::alloc::Global;

/// The most steps of one line.
pub(crate) const MOST: u64 = 9223372036854775807;

/// A line of a journal: steps of one task one after another, or one other event of a task.
#[derive(Clone, Copy, PartialEq, Eq)]
pub enum Line {
    /// So many steps of the task, one at least.
    Steps(u32, u64),
    Forks(u32),
    Steals(u32),
    Takes(u32),
    Finishes(u32),
    Joins(u32),
}

/// The lines of a journal: as few as its events have.
#[derive(Drop)]
pub struct Lines {
    pub all: Vec<Line>,
    pub ghost are: { are_lines all.items ≡ true },
}

/// What a weave was started with, and what happened to it, in order.
#[derive(Drop)]
pub struct Journal {
    pub settings: Settings,
    pub lines: Lines,
}

/// The line of one event.
fn line_of(event: Event) -> Line
    ensures value { result ≡ line_of event }
    ensures is { is_line result ≡ true }
{
    match event {
        Event::Step(task) => Line::Steps(task, 1),
        Event::Fork(task) => Line::Forks(task),
        Event::Steal(task) => Line::Steals(task),
        Event::Take(task) => Line::Takes(task),
        Event::Finish(task) => Line::Finishes(task),
        Event::Join(task) => Line::Joins(task),
    }
}

impl Lines {
    /// No line.
    pub fn new(alloc: Global) -> Lines
        ensures { result.all.items ≡ [] }
    {
        Lines {
            all: Vec::new(alloc),
        }
    }

    /// Takes the room for one more line.
    ///
    /// # Errors
    ///
    /// Want of memory. The lines are then as before.
    pub fn make_room(&mut self) -> Result<(), Memory>
        ensures same { self.new.all.items ≡ self.old.all.items }
        ensures room { OnOk result (vec_len self.new.all < vec_capacity self.new.all) }
    {
        self.all.reserve(1)
    }

    /// Writes down an event.
    pub fn add(&mut self, event: Event)
        requires { vec_len self.old.all < vec_capacity self.old.all }
        ensures events { counted_out self.new.all.items ≡ counted_out self.old.all.items ++ event_of event ∷ [] }
    {
        add_to(&mut self.all, event);
    }
}

fn add_to(lines: &mut Vec<Line>, event: Event)
    requires room { vec_len lines.old < vec_capacity lines.old }
    requires are { are_lines lines.old.items ≡ true }
    ensures events { counted_out lines.new.items ≡ counted_out lines.old.items ++ event_of event ∷ [] }
    ensures are { are_lines lines.new.items ≡ true }
{
    match lines.pop() {
        None => lines.push_reserved(line_of(event)),
        Some(last) => match with_more(last, event) {
            Some(line) => lines.push_reserved(line),
            None => {
                lines.push_reserved(last);
                lines.push_reserved(line_of(event));
            }
        },
    }
}

// The last line with one step more, where the event is a step of its task and the line has room.
fn with_more(last: Line, event: Event) -> Option<Line>
    ensures { result ≡ longer last event }
{
    match (last, event) {
        (Line::Steps(task, n), Event::Step(other)) if task == other && n < MOST => {
            Some(Line::Steps(task, n + 1))
        }
        _ => None,
    }
}

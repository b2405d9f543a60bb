//! Tasks, with the numbers of those from which may be stolen.

ghost use Rattle.std.specs.Prelude.{◌≡◌, ◌&&◌, ◌||◌, ℕ, length, OnOk, OnErr, IfOk, IfSome, IfNone};
ghost use Rattle.std.specs.Ordering.{nat_cmp};
ghost use Rattle.std.specs.BTreeSet.{contains};
ghost use Rattle.gib_mem.specs.Memory as M;
ghost use Rattle.gib_core.specs.Parts.{core_of};
ghost use Rattle.gib_weave.specs.Applied.{Applied, CanGo, TakesMemory, can_steal_from, event_of, number_of, opens, over, picked_of};
ghost use Rattle.gib_weave.specs.{Weave.{Finished, IsFinished, task, weave_start}, Running.{word_of}};
ghost use Rattle.gib_weave.specs.Weave as w;

use crate::event::Event;
use crate::task::WeaveFault;
use crate::tasks::Tasks;
use gib_base::Memory;
use gib_code::{Answer, Code};
use gib_core::Lowered;
use gib_mem::Mem;
use gib_packed::Root;
use gib_region::Tails;
use std::alloc::Global;
use std::collections::BTreeSet;
use std::marker::Model;

/// Tasks by their numbers, task 0 the root. Beside them stand the numbers of those that are open, which run and have a right side that
/// waits: so a steal is found in time that grows as the logarithm of how many these are.
#[derive(Drop)]
pub struct OpenTasks {
    tasks: Tasks,
    numbers: BTreeSet<u32>,
}

impl Model for OpenTasks {
    ghost use Rattle.std.specs.Prelude.{List};
    ghost use Rattle.gib_weave.specs.Applied.{AreOpen};
    ghost use Rattle.gib_weave.specs.Weave as w;

    ghost Value = { List w.Task };

    ghost view = { λ t. t.tasks };

    ghost invariant = { λ t. AreOpen t.numbers t.tasks };
}

/// The task to which an event happens.
fn number_of(event: Event) -> u32
    ensures { result ≡ number_of (event_of event) }
{
    match event {
        Event::Step(number)
        | Event::Fork(number)
        | Event::Steal(number)
        | Event::Take(number)
        | Event::Finish(number)
        | Event::Join(number) => number,
    }
}

/// Adds the task that an event may open, before it happens.
///
/// # Errors
///
/// Want of memory. The numbers are then as they were.
fn add_opened(numbers: &mut BTreeSet<u32>, event: Event) -> Result<(), Memory>
    ensures added { OnOk result ((i : ℕ) → contains nat_cmp numbers.new i ≡ (contains nat_cmp numbers.old i || opens (event_of event) i)) }
    ensures same { OnErr result (numbers.new.keys ≡ numbers.old.keys) }
    ensures forks { OnErr result (TakesMemory (event_of event)) }
{
    match event {
        Event::Fork(number) => {
            numbers.insert(number)?;
            Ok(())
        }
        _ => Ok(()),
    }
}

/// Takes the number of a task out that is not open.
fn shut(tasks: &Tasks, numbers: &mut BTreeSet<u32>, number: u32)
    ensures here { contains nat_cmp numbers.new number ≡ (contains nat_cmp numbers.old number && can_steal_from (task tasks.now number)) }
    ensures others { (i : ℕ) → (i ≡ number → ⊥) → contains nat_cmp numbers.new i ≡ contains nat_cmp numbers.old i }
{
    if !tasks.is_open(number) {
        numbers.remove(&number);
    }
}

impl OpenTasks {
    /// The root alone, on a value that was loaded. It may nest so many calls, and so many forks.
    ///
    /// # Errors
    ///
    /// Want of memory.
    pub fn start(
        alloc: Global,
        lowered: &Lowered,
        tails: Tails,
        root: Root,
        depth: u32,
        level: u32,
    ) -> Result<OpenTasks, Memory>
        ensures { IfOk result (λ tasks. (v : M.Memory) → over v tasks ≡ weave_start (core_of lowered.now.core) lowered.now.code v (word_of root) depth level tails) }
    {
        let tasks = Tasks::start(alloc, lowered, tails, root, depth, level)?;
        Ok(OpenTasks {
            tasks,
            numbers: BTreeSet::new(alloc),
        })
    }

    /// An event happens. A step takes a time that depends neither on how many tasks there are nor on how deep their stacks are; any
    /// other event takes beside that the logarithm of how many are open. A steal takes all memory of a machine, which a finish gives back.
    ///
    /// # Errors
    ///
    /// `NotNow`: it is not enabled. `Full`: it draws, and all chunks are drawn. `Memory`: want of memory, of a fork or a steal alone. All is
    /// then as it was.
    pub fn apply<V: Mem>(
        &mut self,
        alloc: Global,
        code: &Code,
        mem: &mut V,
        event: Event,
    ) -> Result<(), WeaveFault>
        requires { CanGo code.now (over (V.view mem.old) self.old) }
        ensures { Applied code.now (over (V.view mem.old) self.old) (event_of event) (over (V.view mem.new) self.new) result }
    {
        if let Event::Step(_) = event {
            return self.tasks.apply(alloc, code, mem, event);
        }
        match add_opened(&mut self.numbers, event) {
            Ok(()) => {}
            Err(_) => return Err(WeaveFault::Memory),
        }
        let applied = self.tasks.apply(alloc, code, mem, event);
        shut(&self.tasks, &mut self.numbers, number_of(event));
        applied
    }

    /// The event that a task may do, other than a steal; None where it has none.
    pub fn pick_of(&self, code: &Code, number: u32) -> Option<Event>
        ensures { (v : M.Memory) → picked_of result ≡ w.pick_of code.now (over v self.now) number }
    {
        self.tasks.pick_of(code, number)
    }

    /// An event other than a steal, of the newest task that has one; None where there is none.
    pub fn pick(&self, code: &Code) -> Option<Event>
        ensures { (v : M.Memory) → picked_of result ≡ w.pick code.now (over v self.now) }
    {
        self.tasks.pick(code)
    }

    /// A steal, from the newest task that has a right side that waits; None where there is none, or 2^32 tasks were made.
    pub fn pick_steal(&self) -> Option<Event>
        ensures { (v : M.Memory) → picked_of result ≡ w.pick_steal (over v self.now) }
    {
        if !self.tasks.has_steals() {
            return None;
        }
        match self.numbers.last() {
            None => None,
            Some(number) => Some(Event::Steal(*number)),
        }
    }

    /// The answer of the root; None until it has ended.
    pub fn ended(&self) -> Option<Answer>
        ensures some { IfSome result (λ a. (task self.now 0).stage ≡ Finished a) }
        ensures none { IfNone result (IsFinished (task self.now 0).stage → ⊥) }
    {
        self.tasks.ended()
    }

    /// How many tasks were made so far: the number of the next one.
    pub fn tasks(&self) -> u64
        ensures { result ≡ length self.now }
    {
        self.tasks.tasks()
    }
}

//! The tasks of a weave, and what becomes of them by events.

ghost use Rattle.std.specs.Prelude.{◌≡◌, ◌<◌, ◌^◌, ◌++◌, ◌∷◌, [], length, OnOk, OnErr, IsTrue, ◌↔◌, IfOk, IfSome, IfNone, false, None};
ghost use Rattle.gib_mem.specs.Memory as M;
ghost use Rattle.gib_core.specs.Parts.{core_of};
ghost use Rattle.gib_code.specs.Program.{Runs};
ghost use Rattle.gib_machine.specs.{Machine.{next}, Sides.{Waiting}, State.{AtJoin, widest}};
ghost use Rattle.gib_weave.specs.Applied.{Applied, CanGo, HaveWidth, IsOldest, can_steal_from, event_of, over, picked_of, side_task, stepped};
ghost use Rattle.gib_weave.specs.{Weave.{Finished, HasWaiting, IsFinished, IsOn, pick_steal, steal_below, task, weave_start}, Running.{word_of}};
ghost use Rattle.gib_weave.specs.Weave as w;

use crate::event::Event;
use crate::root_run::root_machine;
use crate::sides::Newest;
use crate::task::{Task, WeaveFault};
use gib_base::Memory;
use gib_code::{Answer, Code};
use gib_core::Lowered;
use gib_machine::{Stand, Turn};
use gib_mem::Mem;
use gib_packed::Root;
use gib_region::Tails;
use std::alloc::Global;
use std::marker::Model;

/// How many tasks may be made: each has a number.
const TASKS: usize = 1 << 32;

/// Tasks by their numbers. Task 0 is the root. The memory over which they run is handed to each call.
#[derive(Drop)]
pub struct Tasks {
    items: Vec<Task>,
}

impl Model for Tasks {
    ghost use Rattle.std.specs.Prelude.{List, ◌≤◌, ◌^◌, length};
    ghost use Rattle.gib_weave.specs.Weave as w;

    ghost Value = { List w.Task };

    ghost view = { λ t. t.items.items };

    ghost invariant = { λ t. length t.items.items ≤ 2 ^ 32 };
}

/// A turn as the answer of a step.
fn stepped(turn: Turn) -> Result<(), WeaveFault>
    ensures { result ≡ stepped turn }
{
    match turn {
        Turn::Went => Ok(()),
        Turn::Full => Err(WeaveFault::Full),
        Turn::AtFork => Err(WeaveFault::NotNow),
        Turn::AtJoin => Err(WeaveFault::NotNow),
        Turn::Ended => Err(WeaveFault::NotNow),
    }
}

impl Tasks {
    /// The root alone, on a value that was loaded. It may nest so many calls, and so many forks.
    ///
    /// # Errors
    ///
    /// Want of memory.
    #[tactic(auto, using(crate::proofs::Applying::root_alone))]
    pub fn start(
        alloc: Global,
        lowered: &Lowered,
        tails: Tails,
        root: Root,
        depth: u32,
        level: u32,
    ) -> Result<Tasks, Memory>
        ensures { IfOk result (λ tasks. (v : M.Memory) → over v tasks ≡ weave_start (core_of lowered.now.core) lowered.now.code v (word_of root) depth level tails) }
    {
        let machine = root_machine(alloc, lowered, root, depth, level)?;
        let task = Task::new(alloc, machine, tails);
        let items = vec![in alloc; task]?;
        Ok(Tasks { items })
    }

    /// The task of a number.
    fn at(&self, number: usize) -> &Task
        requires { number < length self.now }
        ensures { result.now ≡ task self.now number }
    {
        &self.items[number]
    }

    /// Whether neither the task nor the run has ended.
    #[tactic(auto, using(crate::proofs::Applying::is_not_past))]
    fn is_on(&self, number: usize) -> bool
        ensures on { (v : M.Memory) → IsTrue result ↔ IsOn (over v self.now) number }
        ensures below { IsTrue result → number < length self.now }
    {
        if number >= self.items.len() {
            return false;
        }
        if !self.at(0).is_running() {
            return false;
        }
        self.at(number).is_running()
    }

    /// Whether the task is on, and stands at a join.
    fn is_at_join(&self, code: &Code, number: usize) -> bool
        ensures on { (v : M.Memory) → IsTrue result ↔ (IsOn (over v self.now) number × (next code.now (task self.now number).state ≡ AtJoin)) }
        ensures below { IsTrue result → number < length self.now }
    {
        if !self.is_on(number) {
            return false;
        }
        self.at(number).is_at_join(code)
    }

    /// Whether the task is on and has a right side that waits, and one more task has a number.
    fn can_be_stolen_from(&self, number: usize) -> bool
        ensures on { (v : M.Memory) → IsTrue result ↔ (IsOn (over v self.now) number × (length self.now < 2 ^ 32) × HasWaiting (task self.now number).sides) }
        ensures below { IsTrue result → number < length self.now }
    {
        if !self.is_on(number) {
            return false;
        }
        if self.items.len() >= TASKS {
            return false;
        }
        self.at(number).has_waiting()
    }

    /// A task makes a micro-step.
    ///
    /// # Errors
    ///
    /// `NotNow`: it has none here. `Full`: it draws, and all chunks are drawn. All is then as it was.
    #[tactic(auto, using(crate::proofs::Applying::step_applied, crate::proofs::Applying::set_few))]
    pub fn step<V: Mem>(&mut self, code: &Code, mem: &mut V, number: u32) -> Result<(), WeaveFault>
        requires { CanGo code.now (over (V.view mem.old) self.old) }
        ensures { Applied code.now (over (V.view mem.old) self.old) (w.Step number) (over (V.view mem.new) self.new) result }
    {
        let place = number as usize;
        if !self.is_on(place) {
            return Err(WeaveFault::NotNow);
        }
        let turn = self.items[place].step(code, mem);
        stepped(turn)
    }

    /// A task's left side starts, and its right side waits.
    ///
    /// # Errors
    ///
    /// `NotNow`: it stands at no fork. `Memory`: want of memory. All is then as it was.
    #[tactic(auto, using(crate::proofs::Applying::set_few))]
    pub fn fork(&mut self, alloc: Global, code: &Code, number: u32) -> Result<(), WeaveFault>
        requires { Runs code.now }
        ensures { (v : M.Memory) → Applied code.now (over v self.old) (w.Fork number) (over v self.new) result }
    {
        let place = number as usize;
        if !self.is_on(place) {
            return Err(WeaveFault::NotNow);
        }
        if !self.at(place).is_at_fork(code) {
            return Err(WeaveFault::NotNow);
        }
        self.items[place].fork(alloc, code)
    }

    /// One more task.
    ///
    /// # Errors
    ///
    /// Want of memory. The tasks are then as they were.
    #[tactic(auto, using(crate::proofs::Applying::few_more))]
    fn add(&mut self, task: Task) -> Result<(), Memory>
        requires { length self.old < 2 ^ 32 }
        ensures added { OnOk result (self.new ≡ self.old ++ task ∷ []) }
        ensures same { OnErr result (self.new ≡ self.old) }
    {
        self.items.push(task)?;
        Ok(())
    }

    /// One more task, which runs the oldest right side of a task that waits.
    ///
    /// # Errors
    ///
    /// Want of memory. The tasks are then as they were.
    fn add_oldest(&mut self, alloc: Global, code: &Code, number: usize) -> Result<(), Memory>
        requires there { number < length self.old }
        requires few { length self.old < 2 ^ 32 }
        requires waits { HasWaiting (task self.old number).sides }
        requires width { (task self.old number).state.width ≡ widest code.now.functions }
        ensures added { OnOk result ((x : Waiting) × IsOldest (task self.old number).sides x × (self.new ≡ self.old ++ side_task code.now x ∷ [])) }
        ensures same { OnErr result (self.new ≡ self.old) }
    {
        let machine = self.at(number).oldest(alloc, code)?;
        let task = Task::new(alloc, machine, Tails::new());
        self.add(task)?;
        Ok(())
    }

    /// The oldest right side of a task that waits becomes a task of its own.
    ///
    /// # Errors
    ///
    /// `NotNow`: none waits, or 2^32 tasks were made. `Memory`: want of memory. All is then as it was.
    #[tactic(auto, using(crate::proofs::Applying::set_few))]
    pub fn steal(&mut self, alloc: Global, code: &Code, number: u32) -> Result<(), WeaveFault>
        requires { HaveWidth code.now self.old }
        ensures { (v : M.Memory) → Applied code.now (over v self.old) (w.Steal number) (over v self.new) result }
    {
        let place = number as usize;
        if !self.can_be_stolen_from(place) {
            return Err(WeaveFault::NotNow);
        }
        let side = self.items.len() as u32;
        match self.add_oldest(alloc, code, place) {
            Err(_) => Err(WeaveFault::Memory),
            Ok(()) => {
                self.items[place].begin_oldest(side);
                Ok(())
            }
        }
    }

    /// A task takes its newest right side back, which waits.
    ///
    /// # Errors
    ///
    /// `NotNow`: it stands at no join, or the side does not wait. All is then as it was.
    #[tactic(auto, using(crate::proofs::Applying::set_few))]
    pub fn take(&mut self, code: &Code, number: u32) -> Result<(), WeaveFault>
        requires { Runs code.now }
        ensures { (v : M.Memory) → Applied code.now (over v self.old) (w.Take number) (over v self.new) result }
    {
        let place = number as usize;
        if !self.is_at_join(code, place) {
            return Err(WeaveFault::NotNow);
        }
        if !self.at(place).side_waits() {
            return Err(WeaveFault::NotNow);
        }
        self.items[place].take(code);
        Ok(())
    }

    /// A task that has ended is finished.
    ///
    /// # Errors
    ///
    /// `NotNow`: it has not ended. All is then as it was.
    #[tactic(auto, using(crate::proofs::Applying::set_few))]
    pub fn finish(&mut self, alloc: Global, code: &Code, number: u32) -> Result<(), WeaveFault>
        ensures { (v : M.Memory) → Applied code.now (over v self.old) (w.Finish number) (over v self.new) result }
    {
        let place = number as usize;
        if !self.is_on(place) {
            return Err(WeaveFault::NotNow);
        }
        match self.at(place).end(code) {
            None => Err(WeaveFault::NotNow),
            Some(answer) => {
                self.items[place].finish(alloc, answer);
                Ok(())
            }
        }
    }

    /// The answer of a task that has ended and is not joined.
    #[tactic(auto, using(crate::proofs::Applying::none_finished))]
    fn finished(&self, number: usize) -> Option<Answer>
        ensures some { IfSome result (λ a. (task self.now number).stage ≡ Finished a) }
        ensures below { IfSome result (λ a. number < length self.now) }
        ensures none { IfNone result (IsFinished (task self.now number).stage → ⊥) }
    {
        if number >= self.items.len() {
            return None;
        }
        self.at(number).finished()
    }

    /// A task takes the answer of its newest right side's task, which has ended.
    ///
    /// # Errors
    ///
    /// `NotNow`: it stands at no join, or the side's task has not ended. All is then as it was.
    #[tactic(auto, using(crate::proofs::Applying::set_few))]
    pub fn join(&mut self, alloc: Global, code: &Code, number: u32) -> Result<(), WeaveFault>
        ensures { (v : M.Memory) → Applied code.now (over v self.old) (w.Join number) (over v self.new) result }
    {
        let place = number as usize;
        if !self.is_at_join(code, place) {
            return Err(WeaveFault::NotNow);
        }
        match self.at(place).side_begun() {
            None => Err(WeaveFault::NotNow),
            Some(side) => match self.finished(side as usize) {
                None => Err(WeaveFault::NotNow),
                Some(answer) => {
                    self.items[place].join(answer);
                    self.items[side as usize].leave(alloc);
                    Ok(())
                }
            },
        }
    }

    /// An event happens. It takes a time that depends neither on how many tasks there are nor on how deep their stacks are; a steal
    /// takes all memory of a machine, which a finish gives back.
    ///
    /// # Errors
    ///
    /// `NotNow`: it is not enabled. `Full`: it draws, and all chunks are drawn. `Memory`: want of memory, of a fork or a steal alone. All is
    /// then as it was.
    pub fn apply<V: Mem>(
        &mut self,
        alloc: Global,
        code: &Code,
        mem: &mut V,
        event: Event,
    ) -> Result<(), WeaveFault>
        requires { CanGo code.now (over (V.view mem.old) self.old) }
        ensures { Applied code.now (over (V.view mem.old) self.old) (event_of event) (over (V.view mem.new) self.new) result }
    {
        match event {
            Event::Step(number) => self.step(code, mem, number),
            Event::Fork(number) => self.fork(alloc, code, number),
            Event::Steal(number) => self.steal(alloc, code, number),
            Event::Take(number) => self.take(code, number),
            Event::Finish(number) => self.finish(alloc, code, number),
            Event::Join(number) => self.join(alloc, code, number),
        }
    }

    /// The event of a task at a join: its newest right side is taken back, or joined if its task has ended.
    #[tactic(auto, using(crate::proofs::Picking::no_sides, crate::proofs::Picking::newest_waits, crate::proofs::Picking::newest_ended, crate::proofs::Picking::newest_goes_on))]
    fn pick_at_join(&self, number: u32) -> Option<Event>
        requires { number < length self.now }
        ensures { picked_of result ≡ w.pick_at_join self.now number (task self.now number).sides }
    {
        match self.at(number as usize).newest_side() {
            None => None,
            Some(Newest::Waiting) => Some(Event::Take(number)),
            Some(Newest::Begun(side)) => match self.finished(side as usize) {
                Some(_) => Some(Event::Join(number)),
                None => None,
            },
        }
    }

    /// The event that a task may do, other than a steal; None where it has none.
    pub fn pick_of(&self, code: &Code, number: u32) -> Option<Event>
        ensures { (v : M.Memory) → picked_of result ≡ w.pick_of code.now (over v self.now) number }
    {
        let place = number as usize;
        if !self.is_on(place) {
            return None;
        }
        match self.at(place).stand(code) {
            Stand::Goes => Some(Event::Step(number)),
            Stand::Fork => Some(Event::Fork(number)),
            Stand::Join => self.pick_at_join(number),
            Stand::End => Some(Event::Finish(number)),
        }
    }

    /// An event other than a steal, of the newest task that has one; None where there is none.
    #[tactic(auto, using(crate::proofs::Picking::first_found, crate::proofs::Picking::not_this))]
    pub fn pick(&self, code: &Code) -> Option<Event>
        ensures { (v : M.Memory) → picked_of result ≡ w.pick code.now (over v self.now) }
    {
        let mut rest = self.items.len();
        'tasks: while rest > 0 {
            rest -= 1;
            if let Some(event) = self.pick_of(code, rest as u32) {
                return Some(event);
            }
        }
        None
    }

    /// Whether the task of a number is open: it runs, and has a right side that waits.
    #[tactic(auto, using(crate::proofs::Picking::not_running, crate::proofs::Picking::past_is_shut))]
    pub(crate) fn is_open(&self, number: u32) -> bool
        ensures { result ≡ can_steal_from (task self.now number) }
    {
        let place = number as usize;
        if place >= self.items.len() {
            return false;
        }
        let task = self.at(place);
        if !task.is_running() {
            return false;
        }
        task.has_waiting()
    }

    /// Whether the run goes on and one more task has a number, so that whatever task is open can be stolen from.
    #[tactic(auto, using(crate::proofs::Picking::steal_ended, crate::proofs::Picking::steal_many, crate::proofs::Picking::steal_few))]
    pub(crate) fn has_steals(&self) -> bool
        ensures yes { (v : M.Memory) → IsTrue result → steal_below (over v self.now) (length self.now) ≡ pick_steal (over v self.now) }
        ensures no { (v : M.Memory) → result ≡ false → None ≡ pick_steal (over v self.now) }
    {
        if !self.is_on(0) {
            return false;
        }
        self.items.len() < TASKS
    }

    /// The answer of the root; None until it has ended.
    pub fn ended(&self) -> Option<Answer>
        ensures some { IfSome result (λ a. (task self.now 0).stage ≡ Finished a) }
        ensures none { IfNone result (IsFinished (task self.now 0).stage → ⊥) }
    {
        self.finished(0)
    }

    /// How many tasks were made so far: the number of the next one.
    pub fn tasks(&self) -> u64
        ensures { result ≡ length self.now }
    {
        self.items.len() as u64
    }
}

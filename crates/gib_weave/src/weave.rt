//! A weave: tasks over one memory, and the events that happen to them.

ghost use Rattle.std.specs.Prelude.{◌≡◌, ℕ, length, IfOk, IfSome, IfNone};
ghost use Rattle.gib_types.specs.Tree.{Datum};
ghost use Rattle.gib_core.specs.Parts.{core_of};
ghost use Rattle.gib_weave.specs.{Applied.{Applied, event_of}, Running.{IsStart, word_of}};
ghost use Rattle.gib_weave.specs.{Weave.{Enabled, Finished, IsFinished, IsOf, IsSteal, Steal, task, weave_start}, Woven.{IsMeant, IsSoundOn, weave_of}};
ghost use Rattle.gib_weave.specs.Weave as w;

use crate::event::Event;
use crate::open_tasks::OpenTasks;
use crate::task::WeaveFault;
use gib_base::Memory;
use gib_code::Answer;
use gib_core::Lowered;
use gib_mem::{Mem, PlainMem};
use gib_packed::Root;
use gib_region::Tails;
use std::alloc::Global;
use std::marker::Model;

/// How many calls may be nested, and how many forks.
#[derive(Clone, Copy, PartialEq, Eq)]
pub struct Nesting {
    pub calls: u32,
    pub forks: u32,
}

/// Tasks that run the code of a core over one memory, from which nobody else draws. Whatever events happen, it stays sound: each byte
/// is put once, none is got that was not put, and the root's answer is what the core means.
#[derive(Drop)]
pub struct Weave<'a> {
    lowered: &'a Lowered,
    memory: PlainMem,
    tasks: OpenTasks,
}

impl<'a> Model for Weave<'a> {
    ghost use Rattle.gib_mem.specs.Plain.{plain_memory};
    ghost use Rattle.gib_weave.specs.{Applied.{over}, Woven.{WeaveParts, IsWoven}};

    ghost Value = { WeaveParts };

    ghost view = { λ w. record { lowered = w.lowered.now; bytes = w.memory.bytes.items; drawn = w.memory.drawn; limit = w.memory.limit; tasks = w.tasks } };

    ghost invariant = { λ w. IsWoven w.lowered.now (over (plain_memory w.memory.bytes.items w.memory.drawn w.memory.limit) w.tasks) };
}

impl<'a> Weave<'a> {
    /// The root alone, on a value that was loaded.
    ///
    /// # Errors
    ///
    /// Want of memory.
    pub fn start(
        alloc: Global,
        lowered: &'a Lowered,
        memory: PlainMem,
        tails: Tails,
        root: Root,
        nesting: Nesting,
    ) -> Result<Weave<'a>, Memory>
        requires { (d : Datum) × IsStart lowered.now root tails (⟦<PlainMem as Mem>⟧.view memory) d }
        ensures lowered { IfOk result (λ weave. weave.lowered ≡ lowered.now) }
        ensures starts { IfOk result (λ weave. weave_of weave ≡ weave_start (core_of lowered.now.core) lowered.now.code (⟦<PlainMem as Mem>⟧.view memory) (word_of root) nesting.calls nesting.forks tails) }
        ensures sound { IfOk result (λ weave. (d : Datum) → IsStart lowered.now root tails (⟦<PlainMem as Mem>⟧.view memory) d → IsSoundOn lowered.now nesting.calls nesting.forks d (weave_of weave)) }
    {
        lowered.core();
        lowered.code();
        let tasks = OpenTasks::start(alloc, lowered, tails, root, nesting.calls, nesting.forks)?;
        Ok(Weave {
            lowered,
            memory,
            tasks,
        })
    }

    /// An event happens.
    ///
    /// # Errors
    ///
    /// `NotNow`: it is not enabled. `Full`: it draws, and all chunks are drawn. `Memory`: want of memory, of a fork or a steal alone. All is
    /// then as it was.
    pub fn apply(&mut self, alloc: Global, event: Event) -> Result<(), WeaveFault>
        ensures lowered { self.new.lowered ≡ self.old.lowered }
        ensures applied { Applied self.old.lowered.code (weave_of self.old) (event_of event) (weave_of self.new) result }
        ensures sound { (depth level : ℕ) (d : Datum) → IsSoundOn self.old.lowered depth level d (weave_of self.old) → IsSoundOn self.old.lowered depth level d (weave_of self.new) }
    {
        self.lowered.core();
        let code = self.lowered.code();
        self.tasks.apply(alloc, code, &mut self.memory, event)
    }

    /// The answer of the root; None until it has ended. It is what the core means.
    pub fn ended(&self) -> Option<Answer>
        ensures some { IfSome result (λ a. (task self.now.tasks 0).stage ≡ Finished a) }
        ensures means { IfSome result (λ a. (depth level : ℕ) (d : Datum) → IsSoundOn self.now.lowered depth level d (weave_of self.now) → IsMeant self.now.lowered depth d (weave_of self.now) a) }
        ensures none { IfNone result (IsFinished (task self.now.tasks 0).stage → ⊥) }
    {
        self.tasks.ended()
    }

    /// An event that is enabled; None once the root has ended.
    pub fn pick(&self) -> Option<Event>
        ensures some { IfSome result (λ e. Enabled self.now.lowered.code (weave_of self.now) (event_of e)) }
        ensures none { IfNone result (IsFinished (task self.now.tasks 0).stage) }
    {
        self.lowered.core();
        self.tasks.pick(self.lowered.code())
    }

    /// An event of a task that is enabled, other than a steal; None where it has none.
    pub fn pick_of(&self, task: u32) -> Option<Event>
        ensures some { IfSome result (λ e. Enabled self.now.lowered.code (weave_of self.now) (event_of e) × IsOf task (event_of e)) }
        ensures none { IfNone result ((e : w.Event) → Enabled self.now.lowered.code (weave_of self.now) e → IsOf task e → ⊥) }
    {
        self.tasks.pick_of(self.lowered.code(), task)
    }

    /// A steal that is enabled; None where there is none.
    pub fn pick_steal(&self) -> Option<Event>
        ensures some { IfSome result (λ e. Enabled self.now.lowered.code (weave_of self.now) (event_of e) × IsSteal (event_of e)) }
        ensures none { IfNone result ((i : ℕ) → Enabled self.now.lowered.code (weave_of self.now) (Steal i) → ⊥) }
    {
        self.tasks.pick_steal()
    }

    /// How many tasks were made so far: the number of the next one.
    pub fn tasks(&self) -> u64
        ensures { result ≡ length self.now.tasks }
    {
        self.tasks.tasks()
    }

    /// The memory.
    pub fn mem(self) -> PlainMem
        ensures { ⟦<PlainMem as Mem>⟧.view result ≡ (weave_of self.entry).memory }
    {
        let Weave {
            lowered: _,
            memory,
            tasks: _,
        } = self;
        memory
    }
}

//! Runs on a value that was loaded, to an answer: by workers, and by the events of a journal.

ghost use Rattle.std.specs.Prelude.{◌≡◌, ◌<◌, IfOk, IfErr, IsErrOf};
ghost use Rattle.gib_types.specs.Tree.{Datum};
ghost use Rattle.gib_syntax.specs.Results as results;
ghost use Rattle.gib_core.specs.{Cost.{run_cost}, Meaning.{core_run}, Parts.{core_of}, Tight.{Tight}};
ghost use Rattle.gib_weave.specs.{Running.{IsStart, word_of}, Sound.{IsAnswer}, Weave.{weave_start}, Woven.{IsSoundOn, weave_of}};
ghost use Rattle.gib_locked.specs.Replays.{IsAnswered, IsNoEnd};

use crate::journal::Journal;
use crate::replay_fault::ReplayFault;
use crate::replaying::replay;
use crate::runner::{Locked, run_locked};
use crate::settings::Settings;
use gib_base::Memory;
use gib_code::Answer;
use gib_core::Lowered;
use gib_edge::outside::Gate;
use gib_mem::{Mem, PlainMem};
use gib_packed::Root;
use gib_region::Tails;
use gib_weave::{Nesting, RunFault, Weave};
use std::alloc::Global;
use std::sync::Wait;
use std::thread::Threads;

/// A value that was loaded: its root in a memory, and the tails that are kept for what is placed next.
#[derive(Drop)]
pub struct Loaded {
    pub memory: PlainMem,
    pub tails: Tails,
    pub root: Root,
}

/// What a journal leaves: the answer of the root, and the memory.
#[derive(Drop)]
pub struct Replayed {
    pub answer: Answer,
    pub memory: PlainMem,
}

/// What a run by workers leaves: the answer of the root, the memory, and the journal of what happened.
#[derive(Drop)]
pub struct Traced {
    pub answer: Answer,
    pub memory: PlainMem,
    pub journal: Journal,
}

/// The weave at its start, which runs code on a value that was loaded, with the settings' nesting.
///
/// # Errors
///
/// Want of memory.
fn start_loaded<'a>(
    alloc: Global,
    lowered: &'a Lowered,
    loaded: Loaded,
    settings: Settings,
) -> Result<Weave<'a>, Memory>
    requires { (d : Datum) × IsStart lowered.now loaded.root loaded.tails (⟦<PlainMem as Mem>⟧.view loaded.memory) d }
    ensures lowered { IfOk result (λ weave. weave.lowered ≡ lowered.now) }
    ensures starts { IfOk result (λ weave. weave_of weave ≡ weave_start (core_of lowered.now.core) lowered.now.code (⟦<PlainMem as Mem>⟧.view loaded.memory) (word_of loaded.root) settings.depth settings.fork loaded.tails) }
    ensures sound { IfOk result (λ weave. (d : Datum) → IsStart lowered.now loaded.root loaded.tails (⟦<PlainMem as Mem>⟧.view loaded.memory) d
        → IsSoundOn lowered.now settings.depth settings.fork d (weave_of weave)) }
{
    let Loaded {
        memory,
        tails,
        root,
    } = loaded;
    let nesting = Nesting {
        calls: settings.depth,
        forks: settings.fork,
    };
    Weave::start(alloc, lowered, memory, tails, root, nesting)
}

/// The events of a journal happen to the weave of the root alone, which runs code on a value that was loaded, with the journal's settings
/// of nesting. The answer is what the core means.
///
/// # Errors
///
/// `NotNow`: an event is not enabled; the number is that of its line. `Full`: one draws, and all chunks are drawn. `Open`: all
/// happened, and the root has not ended. `Memory`: want of memory.
pub fn replay_loaded(
    alloc: Global,
    lowered: &Lowered,
    loaded: Loaded,
    journal: &Journal,
) -> Result<Replayed, ReplayFault>
    requires { (d : Datum) × IsStart lowered.now loaded.root loaded.tails (⟦<PlainMem as Mem>⟧.view loaded.memory) d }
    ensures ends { IfOk result (λ made. IsAnswered lowered.now.code (weave_start (core_of lowered.now.core) lowered.now.code (⟦<PlainMem as Mem>⟧.view loaded.memory) (word_of loaded.root) journal.now.settings.depth journal.now.settings.fork loaded.tails)
        journal.now.lines.all.items (⟦<PlainMem as Mem>⟧.view made.memory) made.answer) }
    ensures limit { IfOk result (λ made. (⟦<PlainMem as Mem>⟧.view made.memory).limit ≡ (⟦<PlainMem as Mem>⟧.view loaded.memory).limit) }
    ensures means { IfOk result (λ made. (d : Datum) → IsStart lowered.now loaded.root loaded.tails (⟦<PlainMem as Mem>⟧.view loaded.memory) d
        → IsAnswer lowered.now.code.laid (⟦<PlainMem as Mem>⟧.view made.memory).cells (results.One (core_of lowered.now.core).main.result) (core_run (core_of lowered.now.core) journal.now.settings.depth d) made.answer) }
    ensures no_end { IfErr result (IsNoEnd lowered.now.code (weave_start (core_of lowered.now.core) lowered.now.code (⟦<PlainMem as Mem>⟧.view loaded.memory) (word_of loaded.root) journal.now.settings.depth journal.now.settings.fork loaded.tails) journal.now.lines.all.items) }
{
    let Ok(start) = start_loaded(alloc, lowered, loaded, journal.settings) else {
        return Err(ReplayFault::Memory);
    };
    let weave = match replay(alloc, start, journal) {
        Ok(weave) => weave,
        Err(fault) => return Err(fault),
    };
    match weave.ended() {
        Some(answer) => Ok(Replayed {
            answer,
            memory: weave.mem(),
        }),
        None => unreachable!(),
    }
}

/// Runs code on a value that was loaded by so many workers, of which the caller's thread is the first, with the settings' nesting. The
/// answer is what the core means, whatever the workers do, and the journal's events lead to it again.
///
/// # Errors
///
/// `Full`: it draws a chunk, and all are drawn, so so many may not be enough. `Memory`: want of memory.
pub fn run_loaded<R: Threads + Wait + Sync, G: Gate + Sync>(
    rt: &R,
    alloc: Global,
    lowered: &Lowered,
    loaded: Loaded,
    settings: Settings,
    workers: u32,
    gate: &G,
) -> Result<Traced, RunFault>
    requires start { (d : Datum) × IsStart lowered.now loaded.root loaded.tails (⟦<PlainMem as Mem>⟧.view loaded.memory) d }
    requires workers { 0 < workers }
    ensures ends { IfOk result (λ made. IsAnswered lowered.now.code (weave_start (core_of lowered.now.core) lowered.now.code (⟦<PlainMem as Mem>⟧.view loaded.memory) (word_of loaded.root) settings.depth settings.fork loaded.tails)
        made.journal.lines.all.items (⟦<PlainMem as Mem>⟧.view made.memory) made.answer) }
    ensures settings { IfOk result (λ made. made.journal.settings ≡ settings) }
    ensures limit { IfOk result (λ made. (⟦<PlainMem as Mem>⟧.view made.memory).limit ≡ (⟦<PlainMem as Mem>⟧.view loaded.memory).limit) }
    ensures means { IfOk result (λ made. (d : Datum) → IsStart lowered.now loaded.root loaded.tails (⟦<PlainMem as Mem>⟧.view loaded.memory) d
        → IsAnswer lowered.now.code.laid (⟦<PlainMem as Mem>⟧.view made.memory).cells (results.One (core_of lowered.now.core).main.result) (core_run (core_of lowered.now.core) settings.depth d) made.answer) }
    ensures full { IsErrOf result RunFault.Full → (d : Datum) → IsStart lowered.now loaded.root loaded.tails (⟦<PlainMem as Mem>⟧.view loaded.memory) d
        → Tight (⟦<PlainMem as Mem>⟧.view loaded.memory).limit (run_cost (core_of lowered.now.core) settings.depth settings.fork d) }
{
    let Ok(start) = start_loaded(alloc, lowered, loaded, settings) else {
        return Err(RunFault::Memory);
    };
    let (weave, journal) = match run_locked(rt, alloc, start, settings, workers, gate) {
        Locked::Ended(weave, journal) => (weave, journal),
        Locked::Full(_, _) => return Err(RunFault::Full),
        Locked::Memory => return Err(RunFault::Memory),
    };
    match weave.ended() {
        Some(answer) => Ok(Traced {
            answer,
            memory: weave.mem(),
            journal,
        }),
        None => unreachable!(),
    }
}

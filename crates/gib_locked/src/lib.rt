//! Journals of runs, and runs by workers over one lock: each event is applied by the thread that holds the one slot with the weave
//! and its journal.
#![tactic(auto)]

mod cut;
mod head;
mod held;
mod journal;
mod journal_fault;
mod law;
mod line;
mod loaded;
mod read;
mod replay_fault;
mod replaying;
mod runner;
mod settings;
mod write;

pub use journal::{Journal, Line, Lines};
pub use journal_fault::JournalFault;
pub use law::a_journal_has_one_end;
pub use loaded::{Loaded, Replayed, Traced, replay_loaded, run_loaded};
pub use read::read_journal;
pub use replay_fault::ReplayFault;
pub use replaying::replay;
pub use runner::{Locked, run_locked};
pub use settings::Settings;
pub use write::write_journal;

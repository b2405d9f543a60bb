//! Runs a program by the events of a journal.

ghost use Rattle.std.specs.Prelude.{◌≡◌, ◌≤◌, List, length, true, IfOk, IfErr};
ghost use Rattle.gib_types.specs.Tree.{Datum};
ghost use Rattle.gib_file.specs.Packed.{Packed};
ghost use Rattle.gib_code.specs.Program.{CodeTree};
ghost use Rattle.gib_core.specs.Parts.{core_of};
ghost use Rattle.gib_syntax.specs.Parts.{program_of};
ghost use Rattle.gib_weave.specs.Weave.{Weave};
ghost use Rattle.gib_locked.specs.{JournalText.{journal_text}, Lines.{are_lines}, Replays.{IsNoEnd}, declared.journal.Line.{Line}};
ghost use Rattle.gib_app.specs.Workers.{IsEndBy, IsNoJournal, IsNotReplayed, IsReplayed, LeavesOpen, StopsTo, engine_of};

use crate::input_fault::{InputFault, JournalFault};
use crate::loading::load_input;
use crate::lowering::lowered;
use crate::made::Reason;
use crate::packed::survey_input;
use crate::stop::Stop;
use gib_base::Texts;
use gib_base::limits::FILE_BYTES;
use gib_check::Typed;
use gib_core::Lowered;
use gib_file::{Survey, one_file};
use gib_load::LoadFault;
use gib_locked::{Journal, ReplayFault, Replayed, read_journal, replay_loaded};
use gib_mem::{Mem, PlainMem};
use std::alloc::Global;

/// What a replay leaves: the code that ran, and what the events of the journal leave.
#[derive(Drop)]
pub struct ReplayedRun {
    pub lowered: Lowered,
    pub replayed: Replayed,
}

/// Why a call stops at a journal.
fn of_journal(fault: JournalFault) -> Stop<'static>
    ensures { result ≡ Stop.Input (InputFault.Journal fault) }
{
    Stop::Input(InputFault::Journal(fault))
}

/// Why it stops at one whose events lead to no end.
fn of_replay(fault: ReplayFault) -> Stop<'static>
    ensures { (code : CodeTree) (start : Weave) (lines : List Line) → IsNoEnd code start lines fault → LeavesOpen code start lines result }
{
    match fault {
        ReplayFault::NotNow(line) => of_journal(JournalFault::NotEnabled(line)),
        ReplayFault::Full => Stop::NoValue(Reason::Full),
        ReplayFault::Open => of_journal(JournalFault::NotEnded),
        ReplayFault::Memory => Stop::Memory,
    }
}

/// The events of a journal happen to the code on the value of a survey, in a memory of its own.
fn replay_survey(
    alloc: Global,
    lowered: &Lowered,
    survey: Survey<'_>,
    journal: &Journal,
) -> Result<Replayed, Stop<'static>>
    requires table { survey.table ≡ lowered.now.code.laid.table }
    requires ty { survey.ty ≡ (core_of lowered.now.core).main.parameter }
    ensures ends { IfOk result (λ made. (v : Datum) → Packed survey.entry.table survey.entry.ty v survey.entry.bytes
        → IsEndBy (engine_of lowered.now) v journal.now.settings journal.now.lines.all.items (⟦<PlainMem as Mem>⟧.view made.memory) made.answer) }
    ensures limit { IfOk result (λ made. (⟦<PlainMem as Mem>⟧.view made.memory).limit ≤ 65536) }
    ensures stop { IfErr result (λ stop. (v : Datum) → Packed survey.entry.table survey.entry.ty v survey.entry.bytes
        → StopsTo (engine_of lowered.now) v journal.now.settings journal.now.lines.all.items stop) }
{
    let _packed = survey.payload();
    let loaded = match load_input(alloc, lowered, survey, journal.settings.chunks) {
        Ok(loaded) => loaded,
        Err(LoadFault::Full) => return Err(Stop::NoValue(Reason::Full)),
        Err(LoadFault::Memory) => return Err(Stop::Memory),
    };
    match replay_loaded(alloc, lowered, loaded, journal) {
        Ok(replayed) => Ok(replayed),
        Err(fault) => Err(of_replay(fault)),
    }
}

/// The journal whose text this is.
///
/// # Errors
///
/// `Input` with the first line that cannot stand in a journal; `Memory`.
fn journal_of(alloc: Global, bytes: &[u8]) -> Result<Journal, Stop<'static>>
    ensures journal { IfOk result (λ j. bytes.now ≡ journal_text j.settings j.lines.all.items) }
    ensures are { IfOk result (λ j. are_lines j.lines.all.items ≡ true) }
    ensures none { IfErr result (IsNoJournal bytes.now) }
{
    match read_journal(alloc, bytes) {
        Ok(journal) => Ok(journal),
        Err(gib_locked::JournalFault::Line(line)) => Err(of_journal(JournalFault::Line(line))),
        Err(gib_locked::JournalFault::Memory) => Err(Stop::Memory),
    }
}

/// Runs a program on the bytes of a packed file by the events of a journal, with the journal's settings. The answer is what the program
/// means within the journal's depth.
///
/// # Errors
///
/// `Input` where the first bytes are no packed file of a value of the type of main's parameter; else where the others are no journal; or
/// where its events do not lead to an end. `NoValue(Full)` where they lead to where chunks run out. `Memory`: want of memory.
pub fn replay_packed(
    alloc: Global,
    typed: &Typed,
    names: &Texts,
    file: &[u8],
    bytes: &[u8],
) -> Result<ReplayedRun, Stop<'static>>
    requires short { length file.now ≤ FILE_BYTES }
    requires few { length bytes.now ≤ FILE_BYTES }
    ensures ends { IfOk result (λ run. IsReplayed (program_of typed.now) names.now file.now bytes.now run.lowered.code.laid
        (⟦<PlainMem as Mem>⟧.view run.replayed.memory) run.replayed.answer) }
    ensures limit { IfOk result (λ run. (⟦<PlainMem as Mem>⟧.view run.replayed.memory).limit ≤ 65536) }
    ensures stop { IfErr result (IsNotReplayed (program_of typed.now) names.now file.now bytes.now) }
{
    one_file();
    let survey = match survey_input(alloc, typed, names, file) {
        Ok(survey) => survey,
        Err(stop) => return Err(stop),
    };
    let _packed = survey.payload();
    let journal = match journal_of(alloc, bytes) {
        Ok(journal) => journal,
        Err(stop) => return Err(stop),
    };
    let lowered = match lowered(alloc, typed, journal.settings.access) {
        Ok(lowered) => lowered,
        Err(_) => return Err(Stop::Memory),
    };
    match replay_survey(alloc, &lowered, survey, &journal) {
        Ok(replayed) => Ok(ReplayedRun { lowered, replayed }),
        Err(stop) => Err(stop),
    }
}

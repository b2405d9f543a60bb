//! The journal that a text is.

ghost use Rattle.std.specs.Prelude.{◌≡◌, List, true, MatchResult};
ghost use Rattle.gib_locked.specs.{Lines.{are_lines}, JournalText.{journal_text}, JournalReading.{EventsReadTo, ReadsTo}, declared.journal.Line.{Line}};
ghost use Rattle.gib_locked.specs.declared.settings.Settings.{Settings};

use crate::cut::cut;
use crate::head::read_settings;
use crate::journal::{Journal, Lines};
use crate::journal_fault::JournalFault;
use crate::line::read_next;
use std::alloc::Global;

/// The lines of events that the text is, with the last line behind them.
fn read_events(alloc: Global, text: &[u8]) -> Result<Lines, JournalFault>
    ensures { EventsReadTo text.now result }
{
    let mut lines = Vec::new(alloc);
    let mut rest = text;
    'lines: while let Some(parts) = cut(rest, b'\n') {
        if parts.front == b"end".as_slice() {
            if !parts.rest.is_empty() {
                return Err(JournalFault::Line(lines.len() as u64 + 4));
            }
            return Ok(Lines { all: lines });
        }
        let Some(line) = read_next(&lines, parts.front) else {
            return Err(JournalFault::Line(lines.len() as u64 + 3));
        };
        if lines.push(line).is_err() {
            return Err(JournalFault::Memory);
        }
        rest = parts.rest;
    }
    Err(JournalFault::Line(lines.len() as u64 + 3))
}

/// The journal whose text this is; else the first line that cannot stand.
fn read_text(alloc: Global, text: &[u8]) -> Result<Journal, JournalFault>
    ensures { ReadsTo text.now result }
{
    let Some(first) = cut(text, b'\n') else {
        return Err(JournalFault::Line(1));
    };
    if first.front != b"gibj 3".as_slice() {
        return Err(JournalFault::Line(1));
    }
    let Some(second) = cut(first.rest, b'\n') else {
        return Err(JournalFault::Line(2));
    };
    let Some(settings) = read_settings(second.front) else {
        return Err(JournalFault::Line(2));
    };
    match read_events(alloc, second.rest) {
        Ok(lines) => Ok(Journal { settings, lines }),
        Err(fault) => Err(fault),
    }
}

/// The journal whose text this is.
///
/// # Errors
///
/// `Line`: the number of the first line that cannot stand there, from 1 on; where the last line is missing, that of the line behind all;
/// where a line stands behind the last one, that one's. `Memory`: want of memory.
pub fn read_journal(alloc: Global, text: &[u8]) -> Result<Journal, JournalFault>
    ensures exact { ReadsTo text.now result }
    // The text of a journal is read, unless memory runs out, and gives that journal.
    ensures complete { (s : Settings) (ls : List Line) → are_lines ls ≡ true → text.now ≡ journal_text s ls
        → MatchResult result (λ j. (j.settings ≡ s) × (j.lines.all.items ≡ ls)) (λ e. e ≡ JournalFault.Memory) }
{
    match read_text(alloc, text) {
        Ok(journal) => Ok(journal),
        Err(fault) => Err(fault),
    }
}

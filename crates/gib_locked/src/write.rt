//! The text of a journal.

ghost use Rattle.std.specs.Prelude.{◌≡◌, ◌++◌, IfOk, OnOk};
ghost use Rattle.gib_locked.specs.JournalText.{fed, journal_text, line_text, numbers_text, settings_text, word_text};

use crate::journal::{Journal, Line};
use crate::settings::Settings;
use gib_base::{Memory, push_decimal};
use gib_types::FieldAccess;
use std::alloc::Global;

/// The word of an event.
fn word_of(line: Line) -> &'static [u8]
    ensures { result.now ≡ word_text line }
{
    match line {
        Line::Steps(_, _) => b"step",
        Line::Forks(_) => b"fork",
        Line::Steals(_) => b"steal",
        Line::Takes(_) => b"take",
        Line::Finishes(_) => b"finish",
        Line::Joins(_) => b"join",
    }
}

/// Writes the number of a line's task; of steps also how many.
fn push_numbers(alloc: Global, out: &mut Vec<u8>, line: Line) -> Result<(), Memory>
    ensures { OnOk result (out.new.items ≡ out.old.items ++ numbers_text line) }
{
    match line {
        Line::Steps(task, count) => {
            push_decimal(alloc, out, task as u64)?;
            out.push(b' ')?;
            push_decimal(alloc, out, count)
        }
        Line::Forks(task)
        | Line::Steals(task)
        | Line::Takes(task)
        | Line::Finishes(task)
        | Line::Joins(task) => push_decimal(alloc, out, task as u64),
    }
}

/// Writes an event line.
fn push_line(alloc: Global, out: &mut Vec<u8>, line: Line) -> Result<(), Memory>
    ensures { OnOk result (out.new.items ≡ out.old.items ++ fed (line_text line)) }
{
    out.extend_from_slice(word_of(line))?;
    out.push(b' ')?;
    push_numbers(alloc, out, line)?;
    out.push(b'\n')?;
    Ok(())
}

/// Writes the line of what the weave was started with.
fn push_settings(alloc: Global, out: &mut Vec<u8>, settings: Settings) -> Result<(), Memory>
    ensures { OnOk result (out.new.items ≡ out.old.items ++ fed (settings_text settings)) }
{
    out.extend_from_slice(b"depth ")?;
    push_decimal(alloc, out, settings.depth as u64)?;
    out.extend_from_slice(b" chunks ")?;
    push_decimal(alloc, out, settings.chunks as u64)?;
    out.extend_from_slice(b" fork ")?;
    push_decimal(alloc, out, settings.fork as u64)?;
    match settings.access {
        FieldAccess::Ends => out.extend_from_slice(b" skips 0\n")?,
        FieldAccess::Skips => out.extend_from_slice(b" skips 1\n")?,
    }
    Ok(())
}

/// The text of a journal.
///
/// # Errors
///
/// Want of memory.
pub fn write_journal(alloc: Global, journal: &Journal) -> Result<Vec<u8>, Memory>
    ensures { IfOk result (λ text. text.items ≡ journal_text journal.now.settings journal.now.lines.all.items) }
{
    let mut out = Vec::new(alloc);
    out.extend_from_slice(b"gibj 3\n")?;
    push_settings(alloc, &mut out, journal.settings)?;
    'lines: for line in &journal.lines.all {
        push_line(alloc, &mut out, *line)?;
    }
    out.extend_from_slice(b"end\n")?;
    Ok(out)
}

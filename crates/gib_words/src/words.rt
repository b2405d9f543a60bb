//! The words of a command line.

ghost use Rattle.std.specs.Prelude.{◌≡◌, ◌↔◌, IsTrue, None, Some, IfOk, MatchOption, option_map};
ghost use Rattle.clap.specs.Values.{kind_of};
ghost use Rattle.gib_words.specs.{Words.{asked, asked_by_command, bytes_of, sample as sample_plan}, Kept.{plan_of}};

use crate::commands::command_set;
use crate::matches::{entered_plan, usual};
use crate::plan::{Document, Job, Plan};
use crate::sample::{SAMPLE_INPUT, SAMPLE_SOURCE};
use clap::Error;
use clap::error::ErrorKind;
use std::alloc::{AllocError, Global};

/// To run the product's own program on its own input.
fn sample() -> Plan<'static>
    ensures { plan_of result ≡ sample_plan }
{
    Plan {
        first: None,
        source: Document::BuiltIn(SAMPLE_SOURCE),
        second: Some(Document::BuiltIn(SAMPLE_INPUT)),
        third: None,
        target: None,
        pack: None,
        job: Job::Run,
        options: usual(),
    }
}

/// Whether memory alone stopped a parse.
fn is_want_of_memory(error: &Error) -> bool
    ensures { IsTrue result ↔ (kind_of error.now ≡ ErrorKind.OutOfMemory) }
{
    matches!(error.kind(), ErrorKind::OutOfMemory)
}

/// What the command among the words asks for, the program's name first.
fn read_command<'a>(alloc: Global, words: &'a [String]) -> Result<Option<Plan<'a>>, AllocError>
    ensures { IfOk result (λ r. option_map plan_of r ≡ asked_by_command (bytes_of words.now)) }
{
    match command_set(alloc)?.try_get_matches_from(words) {
        Ok(matches) => Ok(entered_plan(&matches)),
        Err(error) => {
            if is_want_of_memory(&error) {
                Err(AllocError)
            } else {
                Ok(None)
            }
        }
    }
}

/// What the words ask for, the program's name first, where they are taken. An `Err` is want of memory alone.
pub fn read_words<'a>(alloc: Global, words: &'a [String]) -> Result<Option<Plan<'a>>, AllocError>
    ensures { IfOk result (λ r. MatchOption r (asked (bytes_of words.now) ≡ None) (λ plan. asked (bytes_of words.now) ≡ Some (plan_of plan))) }
{
    match words {
        [] | [_] => Ok(Some(sample())),
        _ => read_command(alloc, words),
    }
}

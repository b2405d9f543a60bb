//! The program: takes the words of its command line, makes the real shelf and sinks, and ends with the
//! status of the top call.
#![tactic(auto)]

use gib_app::{Status, gib};
use gib_edge::command_line::{WordsFault, taken_words};
use gib_edge::dir_shelf::DirShelf;
use gib_edge::outside::{FreeGate, Sink, put_all};
use gib_edge::std_sink::StdSink;
use std::env;
use std::process::ExitCode;

/// Puts the line of words that could not be taken from the system, which is that of words that are no command where one of them is no
/// UTF-8.
fn refuse<E: Sink>(err: &mut E, fault: WordsFault) -> Status {
    match fault {
        WordsFault::NoText => {
            let _ = put_all(err, b"gib: usage\n");
            Status::Usage
        }
        WordsFault::Memory => {
            let _ = put_all(err, b"gib: memory\n");
            Status::Memory
        }
    }
}

fn main(rt: HostRuntime) -> ExitCode {
    let mut err = StdSink::new(rt.stderr());
    let status = match taken_words(rt.alloc(), env::args(&rt)) {
        Ok(words) => gib(
            &rt,
            rt.alloc(),
            &words,
            &mut DirShelf::new(&rt),
            &mut StdSink::new(rt.stdout()),
            &mut err,
            &FreeGate,
        ),
        Err(fault) => refuse(&mut err, fault),
    };
    ExitCode::from(status.code())
}

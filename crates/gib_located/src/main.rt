//! The program: prints the core of a source as LoCal text.
#![tactic(auto)]

mod located;

use crate::located::{located, refuse};
use gib_edge::command_line::taken_words;
use gib_edge::dir_shelf::DirShelf;
use gib_edge::std_sink::StdSink;
use std::env;
use std::process::ExitCode;

fn main(rt: HostRuntime) -> ExitCode {
    let mut err = StdSink::new(rt.stderr());
    let status = match taken_words(rt.alloc(), env::args(&rt)) {
        Ok(words) => located(
            rt.alloc(),
            &words,
            &mut DirShelf::new(&rt),
            &mut StdSink::new(rt.stdout()),
            &mut err,
        ),
        Err(fault) => refuse(&mut err, fault),
    };
    ExitCode::from(status.code())
}

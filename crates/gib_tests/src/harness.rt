//! A place to run the top call in: files, a sink for the output and one for lines.

use gib_app::{Status, gib};
use gib_edge::mem_shelf::MemShelf;
use gib_edge::mem_sink::MemSink;
use gib_edge::outside::Gate;
use std::alloc::{AllocError, Global};
use std::sync::Wait;
use std::thread::Threads;

/// How a call ended, the files after it, and what it put.
#[derive(Drop)]
pub struct Ended {
    pub status: Status,
    pub shelf: MemShelf,
    pub out: MemSink,
    pub err: MemSink,
}

/// How a call has to end: its status, and all that it puts on `out` and on `err`.
#[derive(Clone, Copy)]
pub struct End<'a> {
    pub status: Status,
    pub out: &'a str,
    pub err: &'a str,
}

/// What fails: calls of the shelf by their numbers, and puts on `out` and on `err`, each behind so many bytes.
#[derive(Clone, Copy)]
pub struct Fails<'a> {
    pub shelf: &'a [u64],
    pub out: &'a [(u64, u64)],
    pub err: &'a [(u64, u64)],
}

/// Puts what stands between the spaces of a line.
fn push_words(alloc: Global, words: &mut Vec<String>, line: &str) -> Result<(), AllocError> {
    for word in line.split(' ') {
        words.push(String::from_str(alloc, word)?)?;
    }
    Ok(())
}

/// The words of a line, behind the program's name.
pub fn words_of(alloc: Global, line: &str) -> Result<Vec<String>, AllocError> {
    let mut words = Vec::new(alloc);
    push_words(alloc, &mut words, "gib")?;
    push_words(alloc, &mut words, line)?;
    Ok(words)
}

/// Files by their names and bytes.
fn files(alloc: Global, files: &[(&str, &[u8])]) -> Result<Vec<(String, Vec<u8>)>, AllocError> {
    let mut made = Vec::new(alloc);
    for (name, bytes) in files {
        made.push((
            String::from_str(alloc, name)?,
            Vec::from_slice(alloc, bytes)?,
        ))?;
    }
    Ok(made)
}

/// A sink with so much room, which fails so.
fn sink(alloc: Global, room: u64, fails: &[(u64, u64)]) -> Result<MemSink, AllocError> {
    let fails = Vec::from_slice(alloc, fails)?;
    MemSink::make(alloc, room, fails)
}

/// A shelf of these files, which fails so.
fn shelf(alloc: Global, given: &[(&str, &[u8])], fails: &[u64]) -> Result<MemShelf, AllocError> {
    let fails = Vec::from_slice(alloc, fails)?;
    let files = files(alloc, given)?;
    MemShelf::make(alloc, files, fails)
}

/// These files and empty sinks, before a call.
fn place(alloc: Global, given: &[(&str, &[u8])], fails: Fails<'_>) -> Result<Ended, AllocError> {
    let out = sink(alloc, 16_777_216, fails.out)?;
    let err = sink(alloc, 4_096, fails.err)?;
    let shelf = shelf(alloc, given, fails.shelf)?;
    Ok(Ended {
        status: Status::Done,
        shelf,
        out,
        err,
    })
}

/// Runs the top call on the words of this line and these files, where this fails; the workers of a run come to the gate.
pub fn call<R: Threads + Wait + Sync, G: Gate + Sync>(
    rt: &R,
    alloc: Global,
    gate: &G,
    line: &str,
    given: &[(&str, &[u8])],
    fails: Fails<'_>,
) -> Result<Ended, AllocError> {
    let words = words_of(alloc, line)?;
    let mut ended = place(alloc, given, fails)?;
    ended.status = gib(
        rt,
        alloc,
        &words,
        &mut ended.shelf,
        &mut ended.out,
        &mut ended.err,
        gate,
    );
    Ok(ended)
}

/// Whether a call ended so.
pub fn is_end(ended: &Ended, end: End<'_>) -> bool {
    ended.status == end.status
        && ended.out.bytes() == end.out.as_bytes()
        && ended.err.bytes() == end.err.as_bytes()
}

/// Whether a shelf has files of these names with these bytes, or none of a name.
pub fn has_files(shelf: &MemShelf, files: &[(&str, Option<&[u8]>)]) -> bool {
    for (name, bytes) in files {
        if shelf.file(name) != *bytes {
            return false;
        }
    }
    true
}

//! What stands round the program: shelves, sinks, words and the gate.

use gib_edge::command_line::{WordsFault, taken_words};
use gib_edge::dir_shelf::DirShelf;
use gib_edge::mem_shelf::MemShelf;
use gib_edge::mem_sink::MemSink;
use gib_edge::outside::{Failed, FreeGate, Gate, Point, Shelf, ShelfFault, Sink, put_all};
use gib_edge::std_sink::StdSink;
use std::alloc::{AllocError, Global};
use std::io::{Error, ErrorKind, Write};
use std::test::Fail;
use std::{env, fs};

// A shelf of files by their texts, which fails at these calls.
fn shelf_of(alloc: Global, files: &[(&str, &[u8])], fails: &[u64]) -> Result<MemShelf, AllocError> {
    let mut made = Vec::new(alloc);
    for (name, bytes) in files {
        let name = String::from_str(alloc, name)?;
        let bytes = Vec::from_slice(alloc, bytes)?;
        made.push((name, bytes))?;
    }
    let fails = Vec::from_slice(alloc, fails)?;
    MemShelf::make(alloc, made, fails)
}

// Whether a read gives these bytes, or fails where there are none.
fn reads<S: Shelf>(
    shelf: &mut S,
    alloc: Global,
    name: &str,
    most: u64,
    want: Option<&[u8]>,
) -> bool {
    match shelf.read(alloc, name, most) {
        Ok(bytes) => Some(bytes.as_slice()) == want,
        Err(fault) => fault == ShelfFault::Failed && want.is_none(),
    }
}

/// Names, how many bytes are read at most, and these.
const READS: [(&str, u64, Option<&[u8]>); 5] = [
    ("a", 9, Some(b"first")),
    ("a", 3, Some(b"fir")),
    ("a", 0, Some(b"")),
    ("b", 9, Some(b"")),
    ("c", 9, None),
];

// Whether a shelf of these files reads them, and what is written then.
fn keeps_files(shelf: &mut MemShelf, alloc: Global) -> bool {
    for (name, most, want) in &READS {
        if !reads(shelf, alloc, name, *most, *want) {
            return false;
        }
    }
    let faults = shelf.read_faults();
    let written = shelf.write(alloc, "a", b"written");
    written == Ok(())
        && reads(shelf, alloc, "a", 5, Some(b"writt"))
        && shelf.file("a") == Some(b"written".as_slice())
        && shelf.file("b") == Some(b"".as_slice())
        && faults == 1
        && shelf.write_faults() == 0
}

#[test]
fn mem_shelf_reads_what_it_holds(rt: HostRuntime) -> Result<(), Fail> {
    // Of two files with one name it has the first.
    let files: [(&str, &[u8]); 3] = [("a", b"first"), ("b", b""), ("a", b"second")];
    let mut shelf = shelf_of(rt.alloc(), &files, &[])?;
    assert!(rt; keeps_files(&mut shelf, rt.alloc()));
    Ok(())
}

// Whether a shelf whose second and fourth calls fail reads once and writes once.
fn fails_twice(shelf: &mut MemShelf, alloc: Global) -> bool {
    let is_read = reads(shelf, alloc, "a", 9, Some(b"kept"));
    let is_lost = reads(shelf, alloc, "a", 9, None);
    let written = shelf.write(alloc, "b", b"x");
    let is_kept = shelf.file("a") == Some(b"kept".as_slice());
    let unwritten = shelf.write(alloc, "a", b"y");
    is_read
        && is_lost
        && written == Ok(())
        && is_kept
        && unwritten == Err(ShelfFault::Failed)
        && shelf.file("a").is_none()
        && shelf.file("b") == Some(b"x".as_slice())
        && (shelf.read_faults(), shelf.write_faults(), shelf.calls()) == (1, 1, 4)
}

#[test]
fn mem_shelf_fails_at_the_listed_calls(rt: HostRuntime) -> Result<(), Fail> {
    let mut shelf = shelf_of(rt.alloc(), &[("a", b"kept")], &[1, 3])?;
    assert!(rt; fails_twice(&mut shelf, rt.alloc()));
    Ok(())
}

/// Pieces that are put, and what is answered.
const PIECES: [(&[u8], Result<(), Failed>); 5] = [
    (b"abc", Ok(())),
    (b"defg", Err(Failed)),
    (b"123456", Err(Failed)),
    (b"hi", Ok(())),
    (b"jkl", Err(Failed)),
];

// Whether a sink with room for ten bytes answers so.
fn takes_ten(sink: &mut MemSink) -> bool {
    for (piece, want) in &PIECES {
        if sink.put(piece) != *want {
            return false;
        }
    }
    let faults = sink.faults();
    let last = sink.put(b"m");
    faults == 3 && last == Err(Failed) && sink.bytes() == b"abcdehijkl".as_slice()
}

#[test]
fn mem_sink_keeps_to_its_room_and_fails_when_told(rt: HostRuntime) -> Result<(), Fail> {
    let fails = Vec::from_slice(rt.alloc(), &[(1, 2), (4, 9)])?;
    let mut sink = MemSink::make(rt.alloc(), 10, fails)?;
    assert!(rt; takes_ten(&mut sink));
    Ok(())
}

/// How many bytes are put, where a put fails, what is answered, and how many bytes were taken.
const LENGTHS: [(usize, (u64, u64), Result<(), Failed>, usize); 7] = [
    (0, (0, 0), Ok(()), 0),
    (5, (0, 3), Err(Failed), 3),
    (4096, (1, 0), Ok(()), 4096),
    (4097, (1, 0), Err(Failed), 4096),
    (5404, (1, 0), Err(Failed), 4096),
    (8192, (2, 0), Ok(()), 8192),
    (8193, (2, 9), Err(Failed), 8193),
];

// Whether so many bytes are put in pieces, where a put fails.
fn are_put(
    alloc: Global,
    len: usize,
    fails: (u64, u64),
    want: Result<(), Failed>,
    taken: usize,
) -> Result<bool, AllocError> {
    let bytes = vec![in alloc; 7u8; len]?;
    let fails = Vec::from_slice(alloc, &[fails])?;
    let mut sink = MemSink::make(alloc, 10_000, fails)?;
    let answer = put_all(&mut sink, &bytes);
    Ok(answer == want && sink.bytes().len() == taken)
}

#[test]
fn put_all_puts_pieces_of_4096_and_none_of_no_bytes(rt: HostRuntime) -> Result<(), Fail> {
    for (len, fails, want, taken) in &LENGTHS {
        assert!(rt; are_put(rt.alloc(), *len, *fails, *want, *taken)?, "{len}");
    }
    Ok(())
}

const FILE: &str = "gib_edge_test.tmp";

/// How many bytes are read at most, and these.
const FRONTS: [(u64, &[u8]); 4] = [(99, b"written"), (7, b"written"), (5, b"writt"), (0, b"")];

// Whether what is written is read again.
fn comes_back<S: Shelf>(shelf: &mut S, alloc: Global) -> bool {
    for (most, want) in &FRONTS {
        let written = shelf.write(alloc, FILE, b"written");
        if written != Ok(()) || !reads(shelf, alloc, FILE, *most, Some(want)) {
            return false;
        }
    }
    true
}

// Whether more bytes come back than any round number of them at which a write could be cut in silence, a MiB among them.
fn long_comes_back<S: Shelf>(shelf: &mut S, alloc: Global) -> Result<bool, AllocError> {
    let front = vec![in alloc; 3u8; 2_200_000]?;
    let mut long = Vec::from_slice(alloc, &front)?;
    long.push(4)?;
    let written = shelf.write(alloc, FILE, &long);
    Ok(
        written == Ok(())
            && reads(shelf, alloc, FILE, 3_000_000, Some(&long))
            && reads(shelf, alloc, FILE, 2_200_000, Some(&front)),
    )
}

#[test]
fn dir_shelf_reads_and_writes_the_current_folder(rt: HostRuntime) -> Result<(), Fail> {
    let mut shelf = DirShelf::new(&rt);
    assert!(rt; comes_back(&mut shelf, rt.alloc()));
    assert!(rt; long_comes_back(&mut shelf, rt.alloc())?);
    fs::remove_file(&rt, FILE)?;
    Ok(())
}

const UNREAD: [&str; 3] = ["no_such_file", ".", "no_such_folder/x"];

const UNWRITTEN: [&str; 3] = ["/dev/full", ".", "no_such_folder/x"];

// Whether no file of these names is read or written.
fn are_lost<S: Shelf>(shelf: &mut S, alloc: Global) -> bool {
    for name in &UNREAD {
        if !reads(shelf, alloc, name, 9, None) {
            return false;
        }
    }
    for name in &UNWRITTEN {
        if shelf.write(alloc, name, b"x") != Err(ShelfFault::Failed) {
            return false;
        }
    }
    true
}

#[test]
fn dir_shelf_fails_where_bytes_are_lost(rt: HostRuntime) -> Result<(), Fail> {
    let mut shelf = DirShelf::new(&rt);
    assert!(rt; are_lost(&mut shelf, rt.alloc()));
    let long = vec![in rt.alloc(); 3u8; 100_000]?;
    let written = shelf.write(rt.alloc(), "/dev/full", &long);
    assert!(rt; written == Err(ShelfFault::Failed));
    Ok(())
}

// Puts bytes on a stream.
fn puts<W: Write + Drop>(stream: W, bytes: &[u8]) -> Result<(), Failed> {
    let mut sink = StdSink::new(stream);
    put_all(&mut sink, bytes)
}

// Whether a stream of three bytes takes these of four.
fn takes_three() -> bool {
    let mut room = [0u8; 3];
    let answer = puts(room.as_mut_slice(), b"abcd");
    answer == Err(Failed) && room == *b"abc"
}

#[test]
fn std_sink_puts_on_the_streams(rt: HostRuntime) -> Result<(), Fail> {
    assert!(rt; puts(rt.stdout(), b"a line of a test\n") == Ok(()));
    assert!(rt; puts(rt.stderr(), b"another\n") == Ok(()));
    assert!(rt; takes_three());
    Ok(())
}

/// What the system tells in place of words, and what is answered.
const TOLD: [(ErrorKind, WordsFault); 2] = [
    (ErrorKind::InvalidData, WordsFault::NoText),
    (ErrorKind::OutOfMemory, WordsFault::Memory),
];

// What is answered in place of words.
fn fault_of(alloc: Global, kind: ErrorKind) -> Option<WordsFault> {
    taken_words(alloc, Err(Error::from(kind))).err()
}

#[test]
fn words_are_taken_or_refused_by_what_the_system_tells(rt: HostRuntime) -> Result<(), Fail> {
    let words = taken_words(rt.alloc(), env::args(&rt))?;
    assert!(rt; !words.is_empty());
    for (kind, want) in &TOLD {
        assert!(rt; fault_of(rt.alloc(), *kind) == Some(*want));
    }
    Ok(())
}

// Passes each point, as workers that share a gate do.
fn pass<G: Gate + Sync>(gate: &G) {
    for point in [Point::Forked, Point::Stolen, Point::Answered] {
        gate.at(3, point);
    }
}

#[test]
fn free_gate_returns(rt: HostRuntime) {
    pass(&FreeGate);
}

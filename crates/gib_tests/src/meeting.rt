//! Workers at a gate. Where each of two waits for the other's point, what they do is what no single thread can: another worker steals a side,
//! and answers it while the first one waits. Where the first one waits at work, as many others are at work at once as may be.

use crate::forking::{ADD_ONE, BOTH, Counting, Meeting, Sleeping, TWO_LEAVES};
use crate::harness::{End, Ended, Fails, call, has_files, is_end};
use gib_app::Status;
use gib_edge::outside::Gate;
use gib_types::Reason;
use gib_unit_tests::bytes::{packed, push_times};
use std::alloc::{AllocError, Global};
use std::sync::Wait;
use std::test::Fail;
use std::thread::Threads;
use std::time::Clock;

const BUILD: &str =
    "data Tree = Leaf Int | Node Tree Tree ; fun build (n : Int) : Tree = if (n < 1) then Leaf n else let par a = build (n - 1) and b = build (n - 1) in Node a b ; main (n : Int) : Tree = build n ;";

const COUNT: &str =
    "data Tree = Leaf Int | Node Tree Tree ; fun build (n : Int) : Tree = if (n < 1) then Leaf n else let par a = build (n - 1) and b = build (n - 1) in Node a b ; fun count (t : Tree) : Int = case t of { Leaf n -> 1 ; Node l r -> let par a = count l and b = count r in (a + b) } ; main (n : Int) : Int = let t = build n in count t ;";

const RIGHT_DOWN: &str =
    "fun down (n : Int) : Int = if (n < 1) then 0 else (1 + down (n - 1)) ; main (n : Int) : Int = let par a = down 3 and b = down n in (a + b) ;";

const LEFT_DOWN: &str =
    "fun down (n : Int) : Int = if (n < 1) then 0 else (1 + down (n - 1)) ; main (n : Int) : Int = let par a = down n and b = down 3 in (a + b) ;";

/// The left side divides by 0; the right one runs out of a depth of 3.
const DIVIDES_LEFT: &str =
    "fun down (n : Int) : Int = if (n < 1) then 0 else down (n - 1) ; fun div (n : Int) : Int = (1 quot n) ; main (n : Int) : Int = let par a = div n and b = down 5 in (a + b) ;";

/// The same with the sides exchanged.
const DIVIDES_RIGHT: &str =
    "fun down (n : Int) : Int = if (n < 1) then 0 else down (n - 1) ; fun div (n : Int) : Int = (1 quot n) ; main (n : Int) : Int = let par a = down 5 and b = div n in (a + b) ;";

/// Runs by two workers, by the forks that nest, their depth and their chunks.
const RUN: &str = "run a.gib a.gbp --workers 2 --fork 1 --depth 100 --chunks 128";

const TWO_FORKS: &str = "run a.gib a.gbp --workers 2 --fork 2 --depth 100 --chunks 128";

const FEW_CHUNKS: &str = "run a.gib a.gbp --workers 2 --fork 1 --depth 100 --chunks 16";

const TEN_DEEP: &str = "run a.gib a.gbp --workers 2 --fork 1 --depth 10 --chunks 16";

const THREE_DEEP: &str = "run a.gib a.gbp --workers 2 --depth 3 --chunks 16";

const TRACE: &str = "trace a.gib a.gbp a.gbj --workers 2";

const TRACE_DEEP: &str = "trace a.gib a.gbp a.gbj --workers 2 --depth 3 --chunks 16";

const ADDED: &str = "(Node (Leaf 2) (Leaf 3))\n";

const BUILT: &str =
    "(Node (Node (Node (Leaf 0) (Leaf 0)) (Node (Leaf 0) (Leaf 0))) (Node (Node (Leaf 0) (Leaf 0)) (Node (Leaf 0) (Leaf 0))))\n";

const TOO_DEEP: Status = Status::NoValue(Reason::Deep);

const DIVIDED: Status = Status::NoValue(Reason::Trap);

const DEPTH: &str = "gib: depth\n";

const CHUNKS: &str = "gib: chunks\n";

const BY_ZERO: &str = "gib: division by zero\n";

/// What both sides give, under one head.
const TOGETHER: &str = "(Node (Node (Leaf 2) (Leaf 3)) (Leaf 3))\n";

const STOLEN: Option<&[u8]> = Some(
    b"gibj 3\ndepth 10000 chunks 1024 fork 4 skips 0\nstep 0 7\nfork 0\nsteal 0\nstep 1 13\nfinish 1\nstep 0 11\njoin 0\nstep 0 6\nfinish 0\nend\n",
);

const PARTS_STOLEN: Option<&[u8]> = Some(
    b"gibj 3\ndepth 10000 chunks 1024 fork 4 skips 0\nstep 0 7\nfork 0\nsteal 0\nstep 1 17\nfinish 1\nstep 0 16\njoin 0\nstep 0 32\nfinish 0\nend\n",
);

const LEFT_DIVIDED: Option<&[u8]> = Some(
    b"gibj 3\ndepth 3 chunks 16 fork 4 skips 0\nfork 0\nsteal 0\nstep 1 13\nfinish 1\nstep 0 2\njoin 0\nfinish 0\nend\n",
);

const RIGHT_DIVIDED: Option<&[u8]> = Some(
    b"gibj 3\ndepth 3 chunks 16 fork 4 skips 0\nfork 0\nsteal 0\nstep 1 2\nfinish 1\nstep 0 13\njoin 0\nfinish 0\nend\n",
);

const ZERO: &[u8] = b"\0\0\0\0\0\0\0\0";

const THREE: &[u8] = b"\x03\0\0\0\0\0\0\0";

const FIVE: &[u8] = b"\x05\0\0\0\0\0\0\0";

const NINE: &[u8] = b"\x09\0\0\0\0\0\0\0";

const THIRTEEN: &[u8] = b"\x0d\0\0\0\0\0\0\0";

const FIFTY: &[u8] = b"2\0\0\0\0\0\0\0";

/// A program on an input, the words of a call by two workers, its status with what it puts, which is a line where it is not done, and the
/// journal that it writes.
type Row<'a> = (
    &'a str,
    &'a [u8],
    &'a str,
    Status,
    &'a str,
    Option<&'a [u8]>,
);

const ROWS: [Row<'static>; 14] = [
    (ADD_ONE, TWO_LEAVES, FEW_CHUNKS, Status::Done, ADDED, None),
    // Forks inside of forks, each of whose sides is a tree: the side that is stolen forks before it is answered.
    (BUILD, THREE, TWO_FORKS, Status::Done, BUILT, None),
    // Sides that are numbers, over trees of more than one chunk.
    (COUNT, NINE, RUN, Status::Done, "512\n", None),
    (RIGHT_DOWN, FIVE, TEN_DEEP, Status::Done, "8\n", None),
    // One of the sides runs out of depth.
    (RIGHT_DOWN, FIFTY, TEN_DEEP, TOO_DEEP, DEPTH, None),
    (LEFT_DOWN, FIFTY, TEN_DEEP, TOO_DEEP, DEPTH, None),
    // The whole tree has no room in so many chunks.
    (BUILD, THIRTEEN, FEW_CHUNKS, Status::Full, CHUNKS, None),
    // The journal tells it so.
    (ADD_ONE, TWO_LEAVES, TRACE, Status::Done, ADDED, STOLEN),
    // Sides of several parts.
    (BOTH, TWO_LEAVES, FEW_CHUNKS, Status::Done, TOGETHER, None),
    (
        BOTH,
        TWO_LEAVES,
        TRACE,
        Status::Done,
        TOGETHER,
        PARTS_STOLEN,
    ),
    // The left side's reason is told, whichever ends first.
    (DIVIDES_LEFT, ZERO, THREE_DEEP, DIVIDED, BY_ZERO, None),
    (
        DIVIDES_LEFT,
        ZERO,
        TRACE_DEEP,
        DIVIDED,
        BY_ZERO,
        LEFT_DIVIDED,
    ),
    (DIVIDES_RIGHT, ZERO, THREE_DEEP, TOO_DEEP, DEPTH, None),
    (
        DIVIDES_RIGHT,
        ZERO,
        TRACE_DEEP,
        TOO_DEEP,
        DEPTH,
        RIGHT_DIVIDED,
    ),
];

/// A source, which is `a.gib`, and its input, which is `a.gbp`.
fn two_files<'x>(source: &'x str, input: &'x [u8]) -> [(&'x str, &'x [u8]); 2] {
    [("a.gib", source.as_bytes()), ("a.gbp", input)]
}

/// How a call over a gate ends, on a source and the payload of its input.
fn called<R: Threads + Wait + Sync, G: Gate + Sync>(
    rt: &R,
    alloc: Global,
    gate: &G,
    words: &str,
    given: (&str, &[u8]),
) -> Result<Ended, AllocError> {
    let (source, payload) = given;
    let input = packed(alloc, payload)?;
    let files = two_files(source, &input);
    let fails = Fails {
        shelf: &[],
        out: &[],
        err: &[],
    };
    call(rt, alloc, gate, words, &files, fails)
}

/// How a call by two workers ends who come to each other's points; nothing where they do not.
fn met<R: Threads + Wait + Sync>(
    rt: &R,
    alloc: Global,
    source: &str,
    payload: &[u8],
    words: &str,
) -> Result<Option<Ended>, AllocError> {
    let gate = Meeting::new();
    let ended = called(rt, alloc, &gate, words, (source, payload))?;
    if gate.is_held() {
        Ok(Some(ended))
    } else {
        Ok(None)
    }
}

/// Whether a call by two workers ends so.
fn ends_so<R: Threads + Wait + Sync>(
    rt: &R,
    alloc: Global,
    row: &Row<'_>,
) -> Result<bool, AllocError> {
    let (source, payload, words, status, text, journal) = *row;
    let (out, err) = if status == Status::Done {
        (text, "")
    } else {
        ("", text)
    };
    match met(rt, alloc, source, payload, words)? {
        Some(ended) => Ok(
            is_end(&ended, End { status, out, err })
                && has_files(&ended.shelf, &[("a.gbj", journal)]),
        ),
        None => Ok(false),
    }
}

/// No run by one thread ends well here.
#[test]
fn two_workers_meet(rt: HostRuntime) -> Result<(), Fail> {
    for row in &ROWS {
        assert!(rt; ends_so(&rt, rt.alloc(), row)?, "{} {}", row.2, row.0);
    }
    Ok(())
}

/// What the image of such a run begins with: its header, the input, and the answer, whose second tree stands in a chunk of its own.
const FIRST: &[u8] =
    b"GIBI\x01\x02\0\0\x1b\0\0\0\0\0\0\0\x02\0\0\0\0\0\0\0\x01\x12\0\0\0\0\0\0\0\0\x01\0\0\0\0\0\0\0\0\x02\0\0\0\0\0\0\0\x01-\0\0\0\0\0\0\0\0\x02\0\0\0\0\0\0\0\xfe\0\x10";

/// The image of a run in which the right side is stolen: that side stands in the second chunk.
fn stolen_image(alloc: Global) -> Result<Vec<u8>, AllocError> {
    let mut image = Vec::from_slice(alloc, FIRST)?;
    push_times(&mut image, b"\0", 4_120usize.saturating_sub(FIRST.len()))?;
    image.extend_from_slice(b"\0\x03")?;
    push_times(&mut image, b"\0", 4_094)?;
    Ok(image)
}

/// Whether such a run leaves that image.
fn meet_over_an_image<R: Threads + Wait + Sync>(rt: &R, alloc: Global) -> Result<bool, AllocError> {
    let image = stolen_image(alloc)?;
    let words = "run a.gib a.gbp --image m.gbi --workers 2";
    let end = End {
        status: Status::Done,
        out: ADDED,
        err: "",
    };
    match met(rt, alloc, ADD_ONE, TWO_LEAVES, words)? {
        Some(ended) => Ok(
            is_end(&ended, end) && has_files(&ended.shelf, &[("m.gbi", Some(&image))]),
        ),
        None => Ok(false),
    }
}

#[test]
fn a_side_that_is_stolen_stands_in_a_chunk_of_its_own(rt: HostRuntime) -> Result<(), Fail> {
    assert!(rt; meet_over_an_image(&rt, rt.alloc())?);
    Ok(())
}

/// Three forks, each inside of the left side of the one before, whose right sides do not fork.
const THREE_FORKS: &str =
    "fun down (n : Int) : Int = if (n < 1) then 0 else (1 + down (n - 1)) ; fun one (n : Int) : Int = let par a = down n and b = down n in (a + b) ; fun two (n : Int) : Int = let par a = one n and b = down n in (a + b) ; fun three (n : Int) : Int = let par a = two n and b = down n in (a + b) ; main (n : Int) : Int = three n ;";

/// A tree whose right side alone has no room in so many chunks.
const RIGHT_GROWS: &str =
    "data Tree = Leaf Int | Node Tree Tree ; fun leaf (n : Int) : Tree = Leaf n ; fun grow (n : Int) : Tree = if (n < 1) then Leaf n else Node (grow (n - 1)) (grow (n - 1)) ; main (n : Int) : Tree = let par a = leaf n and b = grow n in Node a b ;";

/// Whether, by these words, so many others are at work at once beside the first worker, and never more.
fn works<R: Threads + Wait + Clock + Sync>(
    rt: &R,
    alloc: Global,
    words: &str,
    others: u32,
) -> Result<bool, AllocError> {
    let gate = Counting::new(rt, others);
    let end = End {
        status: Status::Done,
        out: "20\n",
        err: "",
    };
    let ended = called(rt, alloc, &gate, words, (THREE_FORKS, FIVE))?;
    Ok(is_end(&ended, end) && gate.is_held())
}

#[test]
fn one_of_two_works_beside_the_first(rt: HostRuntime) -> Result<(), Fail> {
    assert!(rt; works(&rt, rt.alloc(), "run a.gib a.gbp --workers 2", 1)?);
    Ok(())
}

#[test]
fn two_of_three_work_beside_the_first(rt: HostRuntime) -> Result<(), Fail> {
    assert!(rt; works(&rt, rt.alloc(), "run a.gib a.gbp --workers 3", 2)?);
    Ok(())
}

/// Whether a thief that finds all chunks drawn ends the run, and wakes the first worker, which sleeps.
fn thief_ends<R: Threads + Wait + Clock + Sync>(
    rt: &R,
    alloc: Global,
    words: &str,
) -> Result<bool, AllocError> {
    let gate = Sleeping::new(rt);
    let end = End {
        status: Status::Full,
        out: "",
        err: CHUNKS,
    };
    let ended = called(rt, alloc, &gate, words, (RIGHT_GROWS, THIRTEEN))?;
    Ok(is_end(&ended, end) && gate.is_held())
}

#[test]
fn who_ends_the_run_wakes_the_first(rt: HostRuntime) -> Result<(), Fail> {
    assert!(rt;
        thief_ends(
            &rt,
            rt.alloc(),
            "trace a.gib a.gbp a.gbj --workers 2 --chunks 16"
        )?
    );
    assert!(rt; thief_ends(&rt, rt.alloc(), "run a.gib a.gbp --workers 2 --chunks 16")?);
    Ok(())
}

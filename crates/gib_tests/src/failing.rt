//! Calls of the shelf and of the sinks that fail.

use self::Step::{Read, Write};
use crate::forking::{TAKEN, TWO_LEAVES};
use crate::harness::{End, Ended, Fails, call, is_end};
use gib_app::Status;
use gib_edge::mem_shelf::MemShelf;
use gib_edge::outside::FreeGate;
use gib_types::Reason;
use gib_unit_tests::bytes::{packed, push_times};
use std::alloc::{AllocError, Global};
use std::sync::Wait;
use std::test::Fail;
use std::thread::Threads;

/// A call of the shelf by its file, and what a written file holds then, where this is told.
#[derive(Clone, Copy)]
enum Step<'a> {
    Read(&'a str),
    Write(&'a str, Option<&'a [u8]>),
}

/// A call on the four files: the steps that it takes at the shelf, and what it puts in the end.
struct Command<'a> {
    words: &'a str,
    steps: &'a [Step<'a>],
    out: &'a str,
}

/// One is added to each leaf.
const SOURCE: &[u8] =
    b"data Tree = Leaf Int | Node Tree Tree ; fun add1 (t : Tree) : Tree = case t of { Leaf n -> Leaf (n + 1) ; Node l r -> let par a = add1 l and b = add1 r in Node a b } ; main (t : Tree) : Tree = add1 t ;";

/// The text of the tree.
const ADDED: &str = "(Node (Leaf 2) (Leaf 3))\n";

const UNWRITTEN: &str = "gib: cannot write\n";

/// A text of a value, and its packed file.
const TEXT: &[u8] = b"(Leaf 1)";

const LEAF: &[u8] = b"GIBP\x01\0\0\0\x09\0\0\0\0\0\0\0\0\x01\0\0\0\0\0\0\0";

/// The source that is made of 1.
const MADE: &[u8] =
    b"data Tree = Leaf Int | Node Tree Tree ; fun work ( t : Tree ) : Tree = case t of { Leaf n -> Leaf ( ( n * 3 ) + 1 ) ; Node l r -> let par a = work l and b = work r in Node a b } ; main ( t : Tree ) : Tree = work t ;\n";

/// The core of the source.
const CORE: &str =
    "fun add1 %0:Tree : Tree\n  case %0\n    Leaf %1\n      prim %2 = %1 + 1\n      past %3 Leaf\n      write %3 %2\n    Node %4 %5\n      reach %5 by offset\n      past %6 Node\n      par fork\n        here %7\n          call add1 %4\n        here %8\n          call add1 %5\n      write %6 %7 %8\nmain %0:Tree : Tree\n  call add1 %0\n";

const COMMANDS: [Command<'static>; 10] = [
    Command {
        words: "run a.gib a.gbp --image made",
        steps: &[Read("a.gib"), Read("a.gbp"), Write("made", None)],
        out: ADDED,
    },
    Command {
        words: "trace a.gib a.gbp made",
        steps: &[Read("a.gib"), Read("a.gbp"), Write("made", None)],
        out: ADDED,
    },
    Command {
        words: "replay a.gib a.gbp a.gbj --image made",
        steps: &[
            Read("a.gib"),
            Read("a.gbp"),
            Read("a.gbj"),
            Write("made", None),
        ],
        out: ADDED,
    },
    Command {
        words: "gen 1 1 s.gib made",
        steps: &[Write("s.gib", Some(MADE)), Write("made", None)],
        out: "gen 1 levels 1 leaves 2 sum 4442787497\n",
    },
    Command {
        words: "pack a.gib a.txt o.gbp",
        steps: &[Read("a.gib"), Read("a.txt"), Write("o.gbp", None)],
        out: "ok\n",
    },
    // A file that was read is written over.
    Command {
        words: "pack a.gib a.txt a.gib --v1",
        steps: &[Read("a.gib"), Read("a.txt"), Write("a.gib", Some(LEAF))],
        out: "ok\n",
    },
    Command {
        words: "pack a.gib a.txt a.txt --v1",
        steps: &[Read("a.gib"), Read("a.txt"), Write("a.txt", Some(LEAF))],
        out: "ok\n",
    },
    Command {
        words: "run --skips a.gib a.gbp --image m.gbi --chunks 16",
        steps: &[Read("a.gib"), Read("a.gbp"), Write("m.gbi", None)],
        out: ADDED,
    },
    Command {
        words: "run a.gib a.gbp --pack o.gbp --image m.gbi",
        steps: &[
            Read("a.gib"),
            Read("a.gbp"),
            Write("m.gbi", None),
            Write("o.gbp", None),
        ],
        out: ADDED,
    },
    Command {
        words: "core a.gib",
        steps: &[Read("a.gib")],
        out: CORE,
    },
];

/// The four files, of which the second is this input.
fn four_files<'x>(input: &'x [u8]) -> [(&'x str, &'x [u8]); 4] {
    [
        ("a.gib", SOURCE),
        ("a.gbp", input),
        ("a.gbj", TAKEN.as_bytes()),
        ("a.txt", TEXT),
    ]
}

/// What stood under a name before the call.
fn given<'x>(files: &[(&str, &'x [u8])], name: &str) -> Option<&'x [u8]> {
    for (file, bytes) in files {
        if *file == name {
            return Some(bytes);
        }
    }
    None
}

/// Whether a call ended with this line and nothing else: so many words, and the name of a file.
fn is_line(ended: &Ended, status: Status, words: &[u8], name: &str) -> bool {
    let Some(line) = ended.err.bytes().strip_prefix(words) else {
        return false;
    };
    ended.status == status
        && ended.out.bytes().is_empty()
        && line.strip_suffix(b"\n".as_slice()) == Some(name.as_bytes())
}

/// Whether the step that fails is told with its file, or the end of a call without such a step.
fn is_told(ended: &Ended, command: &Command<'_>, failing: usize) -> bool {
    match command.steps.get(failing) {
        Some(Read(name)) => is_line(ended, Status::ReadFault, b"gib: cannot read ", name),
        Some(Write(name, _)) => is_line(ended, Status::WriteFault, b"gib: cannot write ", name),
        None => is_end(
            ended,
            End {
                status: Status::Done,
                out: command.out,
                err: "",
            },
        ),
    }
}

/// Whether a file stands as the step at a place leaves it: written, lost where this step fails, or as it was before.
fn is_left(
    file: Option<&[u8]>,
    due: Option<&[u8]>,
    old: Option<&[u8]>,
    place: usize,
    failing: usize,
) -> bool {
    if place < failing {
        file.is_some() && (due.is_none() || file == due)
    } else if place == failing {
        file.is_none()
    } else {
        file == old
    }
}

/// Whether a step writes a file.
fn is_written(steps: &[Step<'_>], file: &str) -> bool {
    for step in steps {
        if let Write(name, _) = step {
            if *name == file {
                return true;
            }
        }
    }
    false
}

/// Whether all files stand as the steps up to the failing one leave them, and the others as they were.
fn are_left(shelf: &MemShelf, files: &[(&str, &[u8])], steps: &[Step<'_>], failing: usize) -> bool {
    for place in 0..steps.len() {
        if let Write(name, due) = steps[place] {
            if !is_left(shelf.file(name), due, given(files, name), place, failing) {
                return false;
            }
        }
    }
    for (name, bytes) in files {
        if !is_written(steps, name) && shelf.file(name) != Some(*bytes) {
            return false;
        }
    }
    true
}

/// Whether a call whose step at this place fails ends so.
fn fails_so<R: Threads + Wait + Sync>(
    rt: &R,
    alloc: Global,
    command: &Command<'_>,
    failing: usize,
) -> Result<bool, AllocError> {
    let input = packed(alloc, TWO_LEAVES)?;
    let files = four_files(&input);
    let fails = Fails {
        shelf: &[failing as u64],
        out: &[],
        err: &[],
    };
    let ended = call(rt, alloc, &FreeGate, command.words, &files, fails)?;
    Ok(is_told(&ended, command, failing) && are_left(&ended.shelf, &files, command.steps, failing))
}

/// Whether a call ended so, and put so many bytes of this text.
fn has_put(ended: &Ended, status: Status, text: &[u8], taken: usize) -> bool {
    let line = if status == Status::Done {
        ""
    } else {
        UNWRITTEN
    };
    ended.status == status
        && ended.out.bytes().len() == taken
        && text.starts_with(ended.out.bytes())
        && ended.err.bytes() == line.as_bytes()
}

/// Whether what is written stands though the output ends behind two bytes.
fn ends_unput<R: Threads + Wait + Sync>(
    rt: &R,
    alloc: Global,
    command: &Command<'_>,
) -> Result<bool, AllocError> {
    let input = packed(alloc, TWO_LEAVES)?;
    let files = four_files(&input);
    let fails = Fails {
        shelf: &[],
        out: &[(0, 2)],
        err: &[],
    };
    let ended = call(rt, alloc, &FreeGate, command.words, &files, fails)?;
    Ok(
        has_put(&ended, Status::WriteFault, command.out.as_bytes(), 2)
            && are_left(&ended.shelf, &files, command.steps, command.steps.len()),
    )
}

#[test]
fn a_call_that_fails_is_told(rt: HostRuntime) -> Result<(), Fail> {
    for command in &COMMANDS {
        // No call takes more than four steps: behind its last one it ends well.
        for failing in 0..5usize {
            assert!(rt;
                fails_so(&rt, rt.alloc(), command, failing)?,
                "{} {failing}",
                command.words
            );
        }
        assert!(rt; ends_unput(&rt, rt.alloc(), command)?, "{}", command.words);
    }
    Ok(())
}

/// The packed file of a list of so many ones, and its text.
fn list(alloc: Global, count: usize) -> Result<(Vec<u8>, Vec<u8>), AllocError> {
    let mut payload = Vec::new(alloc);
    push_times(&mut payload, b"\x01\x01\0\0\0\0\0\0\0", count)?;
    payload.push(0)?;
    let mut text = Vec::new(alloc);
    push_times(&mut text, b"(Cons 1 ", count)?;
    text.extend_from_slice(b"Nil")?;
    push_times(&mut text, b")", count)?;
    text.push(b'\n')?;
    Ok((packed(alloc, &payload)?, text))
}

/// Whether a run on a list of so many ones puts so many bytes of its text, and ends so, where puts fail.
fn puts_a_list<R: Threads + Wait + Sync>(
    rt: &R,
    alloc: Global,
    count: usize,
    puts: &[(u64, u64)],
    status: Status,
    taken: usize,
) -> Result<bool, AllocError> {
    let (input, text) = list(alloc, count)?;
    let source = b"data List = Nil | Cons Int List ; main (l : List) : List = l ;".as_slice();
    let files = [("a.gib", source), ("a.gbp", input.as_slice())];
    let fails = Fails {
        shelf: &[],
        out: puts,
        err: &[],
    };
    let words = "run a.gib a.gbp";
    let ended = call(rt, alloc, &FreeGate, words, &files, fails)?;
    Ok(has_put(&ended, status, text.as_slice(), taken))
}

/// How many cells there are, the puts that fail, and how the run ends.
const LISTS: [(usize, &[(u64, u64)], Status, usize); 6] = [
    (600, &[(1, 0)], Status::WriteFault, 4096),
    (600, &[], Status::Done, 5404),
    (455, &[(2, 0)], Status::Done, 4099),
    (455, &[(0, 3)], Status::WriteFault, 3),
    (455, &[(1, 0)], Status::WriteFault, 4096),
    (455, &[(1, 2)], Status::WriteFault, 4098),
];

#[test]
fn a_text_is_put_in_pieces(rt: HostRuntime) -> Result<(), Fail> {
    for (count, puts, status, taken) in &LISTS {
        assert!(rt;
            puts_a_list(&rt, rt.alloc(), *count, puts, *status, *taken)?,
            "{taken}"
        );
    }
    Ok(())
}

/// Whether a run out of depth whose line is not taken ends with its own status all the same.
fn ends_unheard<R: Threads + Wait + Sync>(rt: &R, alloc: Global) -> Result<bool, AllocError> {
    let input = packed(alloc, TWO_LEAVES)?;
    let files = [("a.gib", SOURCE), ("a.gbp", input.as_slice())];
    let fails = Fails {
        shelf: &[],
        out: &[],
        err: &[(0, 0)],
    };
    let words = "run a.gib a.gbp --depth 1";
    let ended = call(rt, alloc, &FreeGate, words, &files, fails)?;
    let end = End {
        status: Status::NoValue(Reason::Deep),
        out: "",
        err: "",
    };
    Ok(is_end(&ended, end))
}

#[test]
fn a_line_that_is_not_taken_changes_no_status(rt: HostRuntime) -> Result<(), Fail> {
    assert!(rt; ends_unheard(&rt, rt.alloc())?);
    Ok(())
}

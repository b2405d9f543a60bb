//! Which sides are marked to run at the same time.

ghost use Rattle.std.specs.Prelude.{◌≡◌, ◌<◌, ◌≤◌, length, IfOk};

use crate::sample::trees;
use crate::terms::*;
use gib_base::{Memory, Name};
use gib_core::*;
use gib_forks::forks;
use gib_loccheck::loccheck;
use std::alloc::Global;
use std::test::*;

const WORK: Name = Name(3);

// call work %0, or point %0
fn side(alloc: Global, terms: &mut Terms, calls: bool) -> Result<TermId, Memory>
    ensures { IfOk result (λ id. (id.0 < length terms.new) × (length terms.old ≤ length terms.new)) }
{
    if calls {
        call(alloc, terms, WORK, 0)
    } else {
        point(terms, 0)
    }
}

// The body of main, which begins with a par that has this mark, and whose sides call or do not.
fn main_body(
    alloc: Global,
    terms: &mut Terms,
    sides: (bool, bool),
    fork: bool,
) -> Result<TermId, Memory>
    ensures { IfOk result (λ id. (id.0 < length terms.new) × (length terms.old ≤ length terms.new)) }
{
    let end = side(alloc, terms, true)?;
    let left = side(alloc, terms, sides.0)?;
    let right = side(alloc, terms, sides.1)?;
    let left = bound(Kind::Region, 1, TREE, left);
    let right = bound(Kind::Region, 2, TREE, right);
    then(terms, Binding::Par { fork, left, right }, end)
}

// work, which points to its argument, and such a main.
fn program(alloc: Global, sides: (bool, bool), fork: bool) -> Result<Core, Memory> {
    let mut terms = Terms::new(alloc);
    let work = point(&mut terms, 0)?;
    let body = main_body(alloc, &mut terms, sides, fork)?;
    let types = trees(alloc)?;
    core_of(alloc, types, terms, WORK, TREE, (work, body))
}

const BOTH: &str =
    "fun work %0:Tree : Tree\n  point %0\nmain %0:Tree : Tree\n  par fork\n    region %1\n      call work %0\n    region %2\n      call work %0\n  call work %0\n";

/// Whether the sides call, the mark before, and the text.
const ROWS: [((bool, bool), bool, &str); 4] = [
    ((true, true), false, BOTH),
    ((true, true), true, BOTH),
    (
        (true, false),
        true,
        "fun work %0:Tree : Tree\n  point %0\nmain %0:Tree : Tree\n  par\n    region %1\n      call work %0\n    region %2\n      point %0\n  call work %0\n",
    ),
    (
        (false, true),
        true,
        "fun work %0:Tree : Tree\n  point %0\nmain %0:Tree : Tree\n  par\n    region %1\n      point %0\n    region %2\n      call work %0\n  call work %0\n",
    ),
];

/// Whether the program, which breaks no rule, is marked to this text.
fn is_marked(alloc: Global, sides: (bool, bool), fork: bool, want: &str) -> Result<bool, Fail> {
    let Ok(checked) = loccheck(alloc, program(alloc, sides, fork)?) else {
        return Ok(false);
    };
    let marked = forks(checked);
    is_printed(
        alloc,
        marked.core(),
        &["Tree", "Leaf", "Node", "work"],
        want.as_bytes(),
    )
}

#[test]
fn marks_where_both_sides_call(rt: HostRuntime) -> Result<(), Fail> {
    for (sides, fork, want) in &ROWS {
        assert!(rt; is_marked(rt.alloc(), *sides, *fork, want)?, "{want}");
    }
    Ok(())
}

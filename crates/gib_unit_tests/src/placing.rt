//! Cores that are built by hand, and what placing makes of them.

ghost use Rattle.std.specs.Prelude.{◌≡◌, ◌<◌, ◌≤◌, length, IfOk};

use crate::sample::trees;
use crate::terms::*;
use gib_base::{Memory, Name};
use gib_core::*;
use gib_place::place;
use std::alloc::Global;
use std::test::*;

const WORK: Name = Name(3);

// The body of main, which binds two calls, %1 and %2, side by side or one after the other, and then makes a node.
fn body(
    alloc: Global,
    terms: &mut Terms,
    is_par: bool,
    fields: (u32, u32),
) -> Result<TermId, Memory>
    ensures { IfOk result (λ id. (id.0 < length terms.new) × (length terms.old ≤ length terms.new)) }
{
    let node = node(alloc, terms, 3, fields.0, fields.1)?;
    let left = call(alloc, terms, WORK, 0)?;
    let right = call(alloc, terms, WORK, 0)?;
    let left = bound(Kind::Region, 1, TREE, left);
    let right = bound(Kind::Region, 2, TREE, right);
    if is_par {
        let fork = false;
        return then(terms, Binding::Par { fork, left, right }, node);
    }
    let rest = then(terms, Binding::One(right), node)?;
    then(terms, Binding::One(left), rest)
}

// main alone.
fn program(alloc: Global, is_par: bool, fields: (u32, u32)) -> Result<Core, Memory> {
    let types = trees(alloc)?;
    let mut terms = Terms::new(alloc);
    let body = body(alloc, &mut terms, is_par, fields)?;
    let main = CoreMain {
        parameter: TREE,
        result: TREE,
        body,
    };
    Ok(Core::new(types, terms, Vec::new(alloc), main, Vec::new(alloc), false))
}

/// Whether placing makes this text of a program.
fn places(alloc: Global, is_par: bool, fields: (u32, u32), want: &str) -> Result<bool, Fail> {
    let core = place(alloc, program(alloc, is_par, fields)?)?;
    is_printed(
        alloc,
        &core,
        &["Tree", "Leaf", "Node", "work"],
        want.as_bytes(),
    )
}

/// Whether the two calls stand side by side, to which variables the fields point, and the text that is made of it.
const CASES: [(bool, (u32, u32), &str); 6] = [
    // Both calls stand in the fields.
    (
        false,
        (1, 2),
        "main %0:Tree : Tree\n  past %1 Node\n  here %2\n    call work %0\n  here %3\n    call work %0\n  write %1 %2 %3\n",
    ),
    // A value that is used twice, and one that is not used.
    (
        false,
        (1, 1),
        "main %0:Tree : Tree\n  region %1\n    call work %0\n  region %2\n    call work %0\n  past %3 Node\n  here %4\n    point %1\n  here %5\n    point %1\n  write %3 %4 %5\n",
    ),
    // A call behind a field that points.
    (
        false,
        (0, 2),
        "main %0:Tree : Tree\n  region %1\n    call work %0\n  past %2 Node\n  here %3\n    point %0\n  here %4\n    call work %0\n  write %2 %3 %4\n",
    ),
    // The fields in the other order.
    (
        false,
        (2, 1),
        "main %0:Tree : Tree\n  region %1\n    call work %0\n  past %2 Node\n  here %3\n    call work %0\n  here %4\n    point %1\n  write %2 %3 %4\n",
    ),
    // Both sides, and the right one alone.
    (
        true,
        (1, 2),
        "main %0:Tree : Tree\n  past %1 Node\n  par\n    here %2\n      call work %0\n    here %3\n      call work %0\n  write %1 %2 %3\n",
    ),
    (
        true,
        (0, 2),
        "main %0:Tree : Tree\n  past %1 Node\n  here %2\n    point %0\n  par\n    region %3\n      call work %0\n    here %4\n      call work %0\n  write %1 %2 %4\n",
    ),
];

#[test]
fn places_what_stands_in_a_field(rt: HostRuntime) -> Result<(), Fail> {
    for (is_par, fields, want) in &CASES {
        assert!(rt; places(rt.alloc(), *is_par, *fields, want)?, "{want}");
    }
    Ok(())
}

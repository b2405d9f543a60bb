//! Cores that are put together by hand, as they are printed.

ghost use Rattle.std.specs.Prelude.{◌≡◌, ◌++◌, ◌∷◌, [], ◌<◌, ◌≤◌, length, map, IfOk, OnOk};

use crate::bytes::joined;
use crate::sample::trees;
use crate::terms::*;
use gib_base::{Memory, Name};
use gib_core::*;
use gib_types::{Operator, Ty};
use std::alloc::Global;
use std::test::*;

const ADD1: Name = Name(3);

// The arm of `Leaf`: prim, past and write.
fn first_arm(alloc: Global, terms: &mut Terms) -> Result<TermId, Memory>
    ensures { IfOk result (λ id. (id.0 < length terms.new) × (length terms.old ≤ length terms.new)) }
{
    let rest = leaf(alloc, terms, 3, 2)?;
    prim(terms, 2, Operator::Add, var(1), Atom::literal(1), rest)
}

// The two sides, and what follows them.
fn sides(alloc: Global, terms: &mut Terms, fork: bool) -> Result<TermId, Memory>
    ensures { IfOk result (λ id. (id.0 < length terms.new) × (length terms.old ≤ length terms.new)) }
{
    let rest = node(alloc, terms, 8, 6, 7)?;
    let first = call(alloc, terms, ADD1, 4)?;
    let second = call(alloc, terms, ADD1, 5)?;
    let left = bound(Kind::Region, 6, TREE, first);
    let right = bound(Kind::Region, 7, TREE, second);
    then(terms, Binding::Par { fork, left, right }, rest)
}

// The body of add1, where the second field is reached so.
fn body(
    alloc: Global,
    terms: &mut Terms,
    access: Option<Access>,
    fork: bool,
) -> Result<TermId, Memory>
    ensures { IfOk result (λ id. (id.0 < length terms.new) × (length terms.old ≤ length terms.new)) }
{
    let first = first_arm(alloc, terms)?;
    let mut second = sides(alloc, terms, fork)?;
    if let Some(access) = access {
        let field = Variable(5);
        second = then(terms, Binding::Reach { field, access }, second)?;
    }
    let leaf = arm(alloc, LEAF, &[Variable(1)], first)?;
    let node = arm(alloc, NODE, &[Variable(4), Variable(5)], second)?;
    case(alloc, terms, 0, leaf, node)
}

// fun add1 (t : Tree) : Tree = .. ; main (t : Tree) : Tree = add1 t ;
fn program(alloc: Global, access: Option<Access>, fork: bool) -> Result<Core, Memory> {
    let mut terms = Terms::new(alloc);
    let body = body(alloc, &mut terms, access, fork)?;
    let main_body = call(alloc, &mut terms, ADD1, 0)?;
    let types = trees(alloc)?;
    let copy = types.copy(alloc)?;
    core_of(alloc, copy, terms, ADD1, TREE, (body, main_body))
}

const FRONT: &str =
    "fun add1 %0:Tree : Tree\n  case %0\n    Leaf %1\n      prim %2 = %1 + 1\n      past %3 Leaf\n      write %3 %2\n    Node %4 %5\n";

const BACK: &str =
    "        region %6\n          call add1 %4\n        region %7\n          call add1 %5\n      past %8 Node\n      here %9\n        point %6\n      here %10\n        point %7\n      write %8 %9 %10\nmain %0:Tree : Tree\n  call add1 %0\n";

/// How the second field is reached, whether the sides are marked, and the lines in the middle.
const CASES: [(Option<Access>, bool, &str); 4] = [
    (None, false, "      par\n"),
    (
        Some(Access::Skip(Variable(4))),
        false,
        "      reach %5 by skip %4\n      par\n",
    ),
    (
        Some(Access::Offset),
        false,
        "      reach %5 by offset\n      par\n",
    ),
    (
        Some(Access::Offset),
        true,
        "      reach %5 by offset\n      par fork\n",
    ),
];

const NAMES: &[&str] = &["Tree", "Leaf", "Node", "add1"];

/// Whether the program is printed with these lines in the middle.
fn is_told(alloc: Global, access: Option<Access>, fork: bool, middle: &str) -> Result<bool, Fail> {
    let want = joined(alloc, &[FRONT, middle, BACK])?;
    let core = program(alloc, access, fork)?;
    is_printed(alloc, &core, NAMES, &want)
}

#[test]
fn prints_the_core_of_each_pass(rt: HostRuntime) -> Result<(), Fail> {
    for (access, fork, middle) in &CASES {
        assert!(rt; is_told(rt.alloc(), *access, *fork, middle)?, "{middle}");
    }
    Ok(())
}

// main (n : Int) : Int = ((n quot 3) rem n) ;
fn division(alloc: Global) -> Result<Core, Memory> {
    let mut terms = Terms::new(alloc);
    let give = put(&mut terms, Node::Give(var(2)))?;
    let rest = prim(&mut terms, 2, Operator::Remainder, var(1), var(0), give)?;
    let body = prim(
        &mut terms,
        1,
        Operator::Quotient,
        var(0),
        Atom::literal(3),
        rest,
    )?;
    let main = CoreMain {
        parameter: Ty::Whole,
        result: Ty::Whole,
        body,
    };
    let types = trees(alloc)?;
    Ok(Core::new(types, terms, Vec::new(alloc), main, Vec::new(alloc), false))
}

const DIVISION: &[u8] =
    b"main %0:Int : Int\n  prim %1 = %0 quot 3\n  prim %2 = %1 rem %0\n  give %2\n";

#[test]
fn prints_divisions_by_their_words(rt: HostRuntime) -> Result<(), Fail> {
    let core = division(rt.alloc())?;
    assert!(rt; is_printed(rt.alloc(), &core, NAMES, DIVISION)?);
    Ok(())
}

//! Where fields are reached.

ghost use Rattle.std.specs.Prelude.{◌≡◌, ◌++◌, ◌∷◌, [], ◌<◌, ◌≤◌, length, map, IfOk, OnOk};

use crate::sample::add;
use crate::terms::{TREE, arm, call, core_of, is_printed, point, put, scalar, then, var};
use gib_access::reach;
use gib_base::{Memory, Name};
use gib_core::*;
use gib_types::{ConId, Ty, TypeTable};
use std::alloc::Global;
use std::test::*;

const LEAF: ConId = ConId(0);

const PAIR: ConId = ConId(1);

const NODE: ConId = ConId(2);

const LAST: Name = Name(4);

const SUM: Name = Name(5);

// data Tree = Leaf Int | Pair Tree Tree | Node Tree Tree Tree ;
fn table(alloc: Global) -> Result<TypeTable, Memory>
    ensures { IfOk result (λ table. length table.types ≡ 1) }
{
    let types = Vec::from_slice(alloc, &[Name(0)])?;
    let mut rows = Vec::new(alloc);
    add(alloc, &mut rows, 1, 0, &[Ty::Whole])?;
    add(alloc, &mut rows, 2, 0, &[TREE, TREE])?;
    add(alloc, &mut rows, 3, 0, &[TREE, TREE, TREE])?;
    TypeTable::make(alloc, types, rows)
}

// case %0 with an arm each, of which the third one binds variables from a number on
fn case_of_all(
    alloc: Global,
    terms: &mut Terms,
    first: u32,
    leaf: TermId,
    pair: TermId,
    node: TermId,
) -> Result<TermId, Memory>
    requires few { first < 100 }
    requires leaf { leaf.0 < length terms.old }
    requires pair { pair.0 < length terms.old }
    requires node { node.0 < length terms.old }
    ensures { IfOk result (λ id. (id.0 < length terms.new) × (length terms.old ≤ length terms.new)) }
{
    let of_pair = [Variable(2), Variable(3)];
    let of_node = [Variable(first), Variable(first + 1), Variable(first + 2)];
    let leaf = arm(alloc, LEAF, &[Variable(1)], leaf)?;
    let pair = arm(alloc, PAIR, &of_pair, pair)?;
    let node = arm(alloc, NODE, &of_node, node)?;
    let branches = vec![in alloc; leaf, pair, node]?;
    put(
        terms,
        Node::Case {
            subject: var(0),
            branches,
        },
    )
}

// case %0, where each arm but the first goes on with its last field.
fn body(alloc: Global, terms: &mut Terms) -> Result<TermId, Memory>
    ensures { IfOk result (λ id. (id.0 < length terms.new) × (length terms.old ≤ length terms.new)) }
{
    let leaf = point(terms, 0)?;
    let pair = call(alloc, terms, LAST, 3)?;
    let node = call(alloc, terms, LAST, 6)?;
    case_of_all(alloc, terms, 4, leaf, pair, node)
}

// fun last (t : Tree) : Tree = .. ; main (t : Tree) : Tree = last(t) ;
fn program(alloc: Global) -> Result<Core, Memory> {
    let mut terms = Terms::new(alloc);
    let body = body(alloc, &mut terms)?;
    let main_body = call(alloc, &mut terms, LAST, 0)?;
    let types = table(alloc)?;
    core_of(alloc, types, terms, LAST, TREE, (body, main_body))
}

// give %n
fn give(terms: &mut Terms, number: u32) -> Result<TermId, Memory>
    ensures { IfOk result (λ id. (id.0 < length terms.new) × (length terms.old ≤ length terms.new)) }
{
    put(terms, Node::Give(Atom::Variable(Variable(number))))
}

// case %0: the second arm sums both fields, the third its last one alone.
fn sum_body(alloc: Global, terms: &mut Terms) -> Result<TermId, Memory>
    ensures { IfOk result (λ id. (id.0 < length terms.new) × (length terms.old ≤ length terms.new)) }
{
    let leaf = give(terms, 1)?;
    let rest = give(terms, 5)?;
    let second = scalar(alloc, terms, 5, SUM, 3)?;
    let rest = then(terms, Binding::One(second), rest)?;
    let first = scalar(alloc, terms, 4, SUM, 2)?;
    let pair = then(terms, Binding::One(first), rest)?;
    let rest = give(terms, 9)?;
    let last = scalar(alloc, terms, 9, SUM, 8)?;
    let node = then(terms, Binding::One(last), rest)?;
    case_of_all(alloc, terms, 6, leaf, pair, node)
}

// fun sum (t : Tree) : Int = .. ; main (t : Tree) : Int = sum(t) ;
fn sum_program(alloc: Global) -> Result<Core, Memory> {
    let mut terms = Terms::new(alloc);
    let body = sum_body(alloc, &mut terms)?;
    let given = give(&mut terms, 1)?;
    let sum = scalar(alloc, &mut terms, 1, SUM, 0)?;
    let main_body = then(&mut terms, Binding::One(sum), given)?;
    let types = table(alloc)?;
    core_of(alloc, types, terms, SUM, Ty::Whole, (body, main_body))
}

const SUM_BY_ENDS: &str =
    "fun sum %0:Tree : Int\n  case %0\n    Leaf %1\n      give %1\n    Pair %2 %3\n      scalar %4\n        call sum %2 ends %2\n      reach %3 by end %2\n      scalar %5\n        call sum %3 ends %3\n      give %5\n    Node %6 %7 %8\n      reach %8 by offset\n      scalar %9\n        call sum %8 ends %8\n      give %9\nmain %0:Tree : Int\n  scalar %1\n    call sum %0 ends %0\n  give %1\n";

const NAMES: &[&str] = &["Tree", "Leaf", "Pair", "Node", "last", "sum"];

/// Whether a core whose fields are reached so is printed as this text, with these constructors' offsets.
fn is_reached(
    alloc: Global,
    core: Core,
    mode: AccessMode,
    want: &str,
    offsets: &[ConId],
) -> Result<bool, Fail> {
    let core = reach(alloc, core, mode)?;
    let has_text = is_printed(alloc, &core, NAMES, want.as_bytes())?;
    Ok(has_text && core.offsets() == offsets)
}

// A field is reached at the end of the one before it where a call told that end before; else by its offset.
#[test]
fn reaches_fields_by_ends(rt: HostRuntime) -> Result<(), Fail> {
    let core = sum_program(rt.alloc())?;
    assert!(rt; is_reached(rt.alloc(), core, AccessMode::Ends, SUM_BY_ENDS, &[NODE])?);
    Ok(())
}

/// How fields are reached, the text, and the constructors with offsets.
const CASES: [(AccessMode, &str, &[ConId]); 3] = [
    (
        AccessMode::Skips,
        "fun last %0:Tree : Tree\n  case %0\n    Leaf %1\n      point %0\n    Pair %2 %3\n      reach %3 by skip %2\n      call last %3\n    Node %4 %5 %6\n      reach %5 by skip %4\n      reach %6 by skip %5\n      call last %6\nmain %0:Tree : Tree\n  call last %0\n",
        &[],
    ),
    (
        AccessMode::Offsets,
        "fun last %0:Tree : Tree\n  case %0\n    Leaf %1\n      point %0\n    Pair %2 %3\n      reach %3 by offset\n      call last %3\n    Node %4 %5 %6\n      reach %6 by offset\n      call last %6\nmain %0:Tree : Tree\n  call last %0\n",
        &[PAIR, NODE],
    ),
    (
        AccessMode::Ends,
        "fun last %0:Tree : Tree\n  case %0\n    Leaf %1\n      point %0\n    Pair %2 %3\n      reach %3 by offset\n      call last %3 ends %3\n    Node %4 %5 %6\n      reach %6 by offset\n      call last %6 ends %6\nmain %0:Tree : Tree\n  call last %0 ends %0\n",
        &[PAIR, NODE],
    ),
];

#[test]
fn reaches_the_fields_of_arms(rt: HostRuntime) -> Result<(), Fail> {
    for (mode, want, offsets) in &CASES {
        let core = program(rt.alloc())?;
        assert!(rt;
            is_reached(rt.alloc(), core, *mode, want, offsets)?,
            "{want}"
        );
    }
    Ok(())
}

//! Results of several parts: cores as they are printed, and where their fields are reached.

ghost use Rattle.std.specs.Prelude.{◌≡◌, ◌∷◌, [], ◌<◌, ◌≤◌, length, IfOk};
ghost use Rattle.gib_types.specs.declared.table.Ty.TheVariants.{Whole, Tree};
ghost use Rattle.gib_core.specs.{Arena.{term_in}, PartTypes.{types_in}};

use crate::bytes::joined;
use crate::sample::trees;
use crate::terms::*;
use gib_access::reach;
use gib_base::{Memory, Name};
use gib_core::*;
use gib_types::{Operator, Ty};
use std::alloc::Global;
use std::test::*;

const SPLIT: Name = Name(3);

// A tree and a number.
fn pair_types() -> Result<PartTypes, Memory>
    ensures { IfOk result (λ types. types_in types ≡ Tree (record { 0 = 0 }) ∷ Whole ∷ []) }
{
    let mut types = PartTypes::new();
    types.push(TREE)?;
    types.push(Ty::Whole)?;
    Ok(types)
}

// tuple of a number and of a part
fn tuple(alloc: Global, terms: &mut Terms, number: Atom, part: TermId) -> Result<TermId, Memory>
    requires { part.0 < length terms.old }
    ensures { IfOk result (λ id. (id.0 < length terms.new) × (length terms.old ≤ length terms.new)) }
{
    let types = pair_types()?;
    let scalars = Vec::from_slice(alloc, &[number])?;
    let parts = vec![in alloc; part]?;
    put(
        terms,
        Node::Tuple {
            types,
            scalars,
            parts,
        },
    )
}

// several %first and the variable behind it, which are call split %of
fn split(alloc: Global, terms: &mut Terms, first: u32, of: u32) -> Result<BoundSide, Memory>
    ensures { IfOk result (λ side. ((term_in side).0 < length terms.new) × (length terms.old ≤ length terms.new)) }
{
    let types = pair_types()?;
    let term = call(alloc, terms, SPLIT, of)?;
    Ok(BoundSide::Several(BoundParts {
        first: Variable(first),
        types,
        term,
    }))
}

// The arm of `Leaf`: the tree is a leaf of the next number.
fn first_arm(alloc: Global, terms: &mut Terms) -> Result<TermId, Memory>
    ensures { IfOk result (λ id. (id.0 < length terms.new) × (length terms.old ≤ length terms.new)) }
{
    let part = leaf(alloc, terms, 3, 2)?;
    let part = prim(terms, 2, Operator::Add, var(1), Atom::literal(1), part)?;
    tuple(alloc, terms, var(1), part)
}

// Both calls, beside one another or not, and what follows them.
fn calls(alloc: Global, terms: &mut Terms, beside: bool, rest: TermId) -> Result<TermId, Memory>
    requires { rest.0 < length terms.old }
    ensures { IfOk result (λ id. (id.0 < length terms.new) × (length terms.old ≤ length terms.new)) }
{
    let left = split(alloc, terms, 6, 4)?;
    let right = split(alloc, terms, 8, 5)?;
    if beside {
        let fork = false;
        return then(terms, Binding::Par { fork, left, right }, rest);
    }
    let rest = then(terms, Binding::One(right), rest)?;
    then(terms, Binding::One(left), rest)
}

// The arm of `Node`: both fields are split, and put together again.
fn second_arm(alloc: Global, terms: &mut Terms, beside: bool) -> Result<TermId, Memory>
    ensures { IfOk result (λ id. (id.0 < length terms.new) × (length terms.old ≤ length terms.new)) }
{
    let part = node(alloc, terms, 11, 6, 8)?;
    let end = tuple(alloc, terms, var(10), part)?;
    let rest = prim(terms, 10, Operator::Add, var(7), var(9), end)?;
    calls(alloc, terms, beside, rest)
}

// case %0 with both arms
fn body(alloc: Global, terms: &mut Terms, beside: bool) -> Result<TermId, Memory>
    ensures { IfOk result (λ id. (id.0 < length terms.new) × (length terms.old ≤ length terms.new)) }
{
    let first = first_arm(alloc, terms)?;
    let second = second_arm(alloc, terms, beside)?;
    let leaf = arm(alloc, LEAF, &[Variable(1)], first)?;
    let node = arm(alloc, NODE, &[Variable(4), Variable(5)], second)?;
    case(alloc, terms, 0, leaf, node)
}

// The parts of the parameter, put into a node.
fn main_body(alloc: Global, terms: &mut Terms) -> Result<TermId, Memory>
    ensures { IfOk result (λ id. (id.0 < length terms.new) × (length terms.old ≤ length terms.new)) }
{
    let rest = node(alloc, terms, 5, 1, 3)?;
    let number = leaf(alloc, terms, 4, 2)?;
    let rest = then(
        terms,
        Binding::One(bound(Kind::Region, 3, TREE, number)),
        rest,
    )?;
    let parts = split(alloc, terms, 1, 0)?;
    then(terms, Binding::One(parts), rest)
}

// fun split (t : Tree) : (Tree, Int) = .. ; main (t : Tree) : Tree = let (u, n) = split t in Node u (Leaf n) ;
fn program(alloc: Global, beside: bool) -> Result<Core, Memory> {
    let mut terms = Terms::new(alloc);
    let body = body(alloc, &mut terms, beside)?;
    let main_body = main_body(alloc, &mut terms)?;
    let types = trees(alloc)?;
    let function = CoreFunction {
        name: SPLIT,
        parameters: Vec::from_slice(alloc, &[TREE])?,
        result: CoreResult::Several(pair_types()?),
        body,
    };
    let functions = vec![in alloc; function]?;
    let main = CoreMain {
        parameter: TREE,
        result: TREE,
        body: main_body,
    };
    Ok(Core::new(types, terms, functions, main, Vec::new(alloc), false))
}

const FRONT: &str =
    "fun split %0:Tree : (Tree, Int)\n  case %0\n    Leaf %1\n      tuple %1\n        to\n          prim %2 = %1 + 1\n          past %3 Leaf\n          write %3 %2\n    Node %4 %5\n";

const BACK: &str =
    "      prim %10 = %7 + %9\n      tuple %10\n        to\n          past %11 Node\n          here %12\n            point %6\n          here %13\n            point %8\n          write %11 %12 %13\nmain %0:Tree : Tree\n  several %1 %2\n    call split %0\n  region %3\n    past %4 Leaf\n    write %4 %2\n  past %5 Node\n  here %6\n    point %1\n  here %7\n    point %3\n  write %5 %6 %7\n";

const NAMES: &[&str] = &["Tree", "Leaf", "Node", "split"];

/// Whether the program, with its fields reached so, is printed with this line and the calls.
fn is_told(alloc: Global, mode: AccessMode, line: &str, beside: bool) -> Result<bool, Fail> {
    let calls = if beside {
        "      par\n        several %6 %7\n          call split %4\n        several %8 %9\n          call split %5\n"
    } else {
        "      several %6 %7\n        call split %4\n      several %8 %9\n        call split %5\n"
    };
    let want = joined(alloc, &[FRONT, line, calls, BACK])?;
    let core = program(alloc, beside)?;
    let core = reach(alloc, core, mode)?;
    is_printed(alloc, &core, NAMES, &want)
}

/// How fields are reached, and the line that reaches the second one: a call that gives several parts tells no end.
const CASES: [(AccessMode, &str); 3] = [
    (AccessMode::Skips, "      reach %5 by skip %4\n"),
    (AccessMode::Offsets, "      reach %5 by offset\n"),
    (AccessMode::Ends, "      reach %5 by offset\n"),
];

#[test]
fn prints_results_of_several_parts(rt: HostRuntime) -> Result<(), Fail> {
    for (mode, line) in &CASES {
        assert!(rt; is_told(rt.alloc(), *mode, line, true)?, "{line}");
        assert!(rt; is_told(rt.alloc(), *mode, line, false)?, "{line}");
    }
    Ok(())
}

//! Cores that the location checker accepts, or refuses by their first broken rule.

ghost use Rattle.std.specs.Prelude.{◌≡◌, ◌<◌, ◌≤◌, length, IfOk};

use crate::sample::trees;
use crate::terms::*;
use gib_base::{Memory, Name};
use gib_core::*;
use gib_loccheck::{LocFault, loccheck};
use gib_types::{ConId, Operator, Ty};
use std::alloc::Global;
use std::test::*;

const COPY: Name = Name(3);

const SIZE: Name = Name(4);

const BEHIND: Access = Access::Skip(Variable(2));

/// One more.
const ONE: Atom = Atom::Whole(1);

/// What copy gives.
const COPIED: Atom = Atom::Variable(Variable(0));

// reach %3, and the rest
fn reach(terms: &mut Terms, access: Access, rest: TermId) -> Result<TermId, Memory>
    requires { rest.0 < length terms.old }
    ensures { IfOk result (λ id. (id.0 < length terms.new) × (length terms.old ≤ length terms.new)) }
{
    let field = Variable(3);
    then(terms, Binding::Reach { field, access }, rest)
}

// region %6 of a type, and under it point %2, and the rest
fn region(terms: &mut Terms, ty: Ty, rest: TermId) -> Result<TermId, Memory>
    requires { rest.0 < length terms.old }
    ensures { IfOk result (λ id. (id.0 < length terms.new) × (length terms.old ≤ length terms.new)) }
{
    let point = point(terms, 2)?;
    let region = bound(Kind::Region, 6, ty, point);
    then(terms, Binding::One(region), rest)
}

// par of regions %6 and %7, whose left side copies %n, and the rest
fn par(alloc: Global, terms: &mut Terms, number: u32, rest: TermId) -> Result<TermId, Memory>
    requires { rest.0 < length terms.old }
    ensures { IfOk result (λ id. (id.0 < length terms.new) × (length terms.old ≤ length terms.new)) }
{
    let first = call(alloc, terms, COPY, number)?;
    let second = call(alloc, terms, COPY, 2)?;
    let left = bound(Kind::Region, 6, TREE, first);
    let right = bound(Kind::Region, 7, TREE, second);
    then(
        terms,
        Binding::Par {
            fork: false,
            left,
            right,
        },
        rest,
    )
}

// The arms of a case in declared order, which bind variables from a number on.
fn arms(alloc: Global, first: u32, leaf: TermId, node: TermId) -> Result<(Branch, Branch), Memory>
    requires { first < 100 }
    ensures leaf { IfOk result (λ arms. arms.0.term ≡ leaf) }
    ensures node { IfOk result (λ arms. arms.1.term ≡ node) }
{
    let fields = [Variable(first + 1), Variable(first + 2)];
    let leaf = arm(alloc, LEAF, &[Variable(first)], leaf)?;
    let node = arm(alloc, NODE, &fields, node)?;
    Ok((leaf, node))
}

// With the bodies of copy and size every kind of line, and no broken rule.
fn accepted(alloc: Global, terms: &mut Terms) -> Result<TermId, Memory>
    ensures { IfOk result (λ id. (id.0 < length terms.new) × (length terms.old ≤ length terms.new)) }
{
    let leaf = leaf(alloc, terms, 10, 9)?;
    let leaf = prim(terms, 9, Operator::Add, var(8), ONE, leaf)?;
    let size = scalar(alloc, terms, 8, SIZE, 2)?;
    let leaf = then(terms, Binding::One(size), leaf)?;
    let node = node(alloc, terms, 13, 6, 7)?;
    let other = point(terms, 2)?;
    let node = if_else(terms, 12, node, other)?;
    let node = prim(terms, 12, Operator::Less, Atom::literal(0), ONE, node)?;
    let (leaf, node) = arms(alloc, 20, leaf, node)?;
    let rest = case(alloc, terms, 6, leaf, node)?;
    let rest = par(alloc, terms, 3, rest)?;
    reach(terms, BEHIND, rest)
}

// Fields in another order than they stand in.
fn fields_swapped(alloc: Global, terms: &mut Terms) -> Result<TermId, Memory>
    ensures { IfOk result (λ id. (id.0 < length terms.new) × (length terms.old ≤ length terms.new)) }
{
    let rest = write(alloc, terms, 4, NODE, &[], &[var(6), var(5)])?;
    let rest = here(terms, 6, 2, rest)?;
    let rest = here(terms, 5, 2, rest)?;
    past(terms, 4, NODE, rest)
}

// Arms in another order than declared.
fn arms_swapped(alloc: Global, terms: &mut Terms) -> Result<TermId, Memory>
    ensures { IfOk result (λ id. (id.0 < length terms.new) × (length terms.old ≤ length terms.new)) }
{
    let leaf = point(terms, 2)?;
    let node = point(terms, 2)?;
    let (leaf, node) = arms(alloc, 20, leaf, node)?;
    case(alloc, terms, 2, node, leaf)
}

// A field is reached by the end of one that a case was on.
fn reach_behind_case(alloc: Global, terms: &mut Terms) -> Result<TermId, Memory>
    ensures { IfOk result (λ id. (id.0 < length terms.new) × (length terms.old ≤ length terms.new)) }
{
    let leaf = point(terms, 2)?;
    let node = point(terms, 3)?;
    let node = reach(terms, BEHIND, node)?;
    let (leaf, node) = arms(alloc, 20, leaf, node)?;
    case(alloc, terms, 2, leaf, node)
}

// A scalar call that is not the whole right side.
fn call_behind_prim(alloc: Global, terms: &mut Terms) -> Result<TermId, Memory>
    ensures { IfOk result (λ id. (id.0 < length terms.new) × (length terms.old ≤ length terms.new)) }
{
    let rest = point(terms, 2)?;
    let size = call(alloc, terms, SIZE, 2)?;
    let size = prim(terms, 9, Operator::Add, ONE, ONE, size)?;
    let scalar = bound(Kind::Scalar, 8, Ty::Whole, size);
    then(terms, Binding::One(scalar), rest)
}

// A line of operations, which bind the variables from %100 up to a number.
fn long_line(terms: &mut Terms, count: u32) -> Result<TermId, Memory>
    ensures { IfOk result (λ id. (id.0 < length terms.new) × (length terms.old ≤ length terms.new)) }
{
    let mut rest = point(terms, 2)?;
    for number in 100..count {
        rest = prim(terms, number, Operator::Add, ONE, ONE, rest)?;
    }
    Ok(rest)
}

/// What a line binds.
#[derive(Clone, Copy)]
enum Piece {
    Past(u32, ConId),
    /// reach %3
    Reach(Access),
    /// here %n, which points to %2
    Here(u32),
    /// region %6 of a type, which points to %2
    Region(Ty),
    /// regions %6 and %7 side by side, the copies of %n and of %2
    Par(u32),
    /// prim %4, one more than a variable
    Add(Atom),
}

// A piece, and the rest
fn put_piece(alloc: Global, terms: &mut Terms, piece: Piece, rest: TermId) -> Result<TermId, Memory>
    requires { rest.0 < length terms.old }
    ensures { IfOk result (λ id. (id.0 < length terms.new) × (length terms.old ≤ length terms.new)) }
{
    match piece {
        Piece::Past(head, constructor) => past(terms, head, constructor, rest),
        Piece::Reach(access) => reach(terms, access, rest),
        Piece::Here(number) => here(terms, number, 2, rest),
        Piece::Region(ty) => region(terms, ty, rest),
        Piece::Par(number) => par(alloc, terms, number, rest),
        Piece::Add(left) => prim(terms, 4, Operator::Add, left, ONE, rest),
    }
}

// Pieces, of which the last comes first, and point %n
fn pieces(
    alloc: Global,
    terms: &mut Terms,
    backwards: &[Piece],
    target: u32,
) -> Result<TermId, Memory>
    ensures { IfOk result (λ id. (id.0 < length terms.new) × (length terms.old ≤ length terms.new)) }
{
    let mut rest = point(terms, target)?;
    for piece in backwards {
        rest = put_piece(alloc, terms, *piece, rest)?;
    }
    Ok(rest)
}

/// The line that main's second arm is.
#[derive(Clone, Copy)]
enum Line<'a> {
    Accepted,
    LongLine,
    FieldsSwapped,
    ArmsSwapped,
    ReachBehindCase,
    HeadAsValue,
    CallBehindPrim,
    /// Pieces, of which the last comes first, and an indirection to a variable.
    Pieces(&'a [Piece], u32),
}

fn put_line(alloc: Global, terms: &mut Terms, line: Line<'_>) -> Result<TermId, Memory>
    ensures { IfOk result (λ id. (id.0 < length terms.new) × (length terms.old ≤ length terms.new)) }
{
    match line {
        Line::Accepted => accepted(alloc, terms),
        Line::LongLine => long_line(terms, 20_000),
        Line::FieldsSwapped => fields_swapped(alloc, terms),
        Line::ArmsSwapped => arms_swapped(alloc, terms),
        Line::ReachBehindCase => reach_behind_case(alloc, terms),
        Line::HeadAsValue => leaf(alloc, terms, 4, 4),
        Line::CallBehindPrim => call_behind_prim(alloc, terms),
        Line::Pieces(backwards, target) => pieces(alloc, terms, backwards, target),
    }
}

// The bodies of copy, which is term 0, of size, which is 1, and of main, which is 2 and whose first arm is 3: the line begins at 4, with %2 and %3
// for a and b.
fn bodies(
    alloc: Global,
    terms: &mut Terms,
    copied: Atom,
    line: Line<'_>,
) -> Result<(TermId, TermId, TermId), Memory>
    ensures { IfOk result (λ ids. (ids.0.0 < length terms.new) × (ids.1.0 < length terms.new) × (ids.2.0 < length terms.new)) }
{
    let copy = put(terms, Node::Point(copied))?;
    let size = put(terms, Node::Give(Atom::literal(0)))?;
    let leaf = point(terms, 0)?;
    let node = put_line(alloc, terms, line)?;
    let (leaf, node) = arms(alloc, 1, leaf, node)?;
    let body = case(alloc, terms, 0, leaf, node)?;
    Ok((copy, size, body))
}

// fun copy (t : Tree) : Tree = an atom ; fun size (t : Tree) : Int = 0 ;
// main (t : Tree) : Tree = case t { Leaf n -> t | Node a b -> the line }
fn program(alloc: Global, copied: Atom, line: Line<'_>, offsets: &[ConId]) -> Result<Core, Memory> {
    let types = trees(alloc)?;
    let mut terms = Terms::new(alloc);
    let (copy, size, body) = bodies(alloc, &mut terms, copied, line)?;
    let mut functions = Vec::new(alloc);
    functions.push(CoreFunction {
        name: COPY,
        parameters: Vec::from_slice(alloc, &[TREE])?,
        result: CoreResult::One(TREE),
        body: copy,
    })?;
    functions.push(CoreFunction {
        name: SIZE,
        parameters: Vec::from_slice(alloc, &[TREE])?,
        result: CoreResult::One(Ty::Whole),
        body: size,
    })?;
    let main = CoreMain {
        parameter: TREE,
        result: TREE,
        body,
    };
    let offsets = Vec::from_slice(alloc, offsets)?;
    Ok(Core::new(types, terms, functions, main, offsets, false))
}

const BY_OFFSET: Line<'static> = Line::Pieces(&[Piece::Reach(Access::Offset)], 3);

const TWO_HEADS: Line<'static> = Line::Pieces(&[Piece::Past(5, NODE), Piece::Past(4, NODE)], 2);

/// What copy gives, the line, the constructors with offsets, and the broken rule with its term, where one is.
const ROWS: [(Atom, Line<'static>, &[ConId], Option<(u8, u64)>); 18] = [
    // No broken rule, a line of many bindings, and an offset that its head stores.
    (COPIED, Line::Accepted, &[], None),
    (COPIED, Line::LongLine, &[], None),
    (COPIED, BY_OFFSET, &[NODE], None),
    // A head in a head, and a field with no open head.
    (COPIED, TWO_HEADS, &[], Some((1, 5))),
    (
        COPIED,
        Line::Pieces(&[Piece::Here(4)], 2),
        &[],
        Some((2, 4)),
    ),
    // A scalar in a region.
    (
        COPIED,
        Line::Pieces(&[Piece::Region(Ty::Whole)], 2),
        &[],
        Some((3, 4)),
    ),
    // A side that uses the other side's variable.
    (COPIED, Line::Pieces(&[Piece::Par(7)], 2), &[], Some((4, 6))),
    (COPIED, Line::FieldsSwapped, &[], Some((5, 9))),
    // An indirection where a head is open.
    (
        COPIED,
        Line::Pieces(&[Piece::Past(4, NODE)], 2),
        &[],
        Some((6, 5)),
    ),
    (COPIED, Line::ArmsSwapped, &[], Some((7, 4))),
    (COPIED, Line::ReachBehindCase, &[], Some((8, 6))),
    (COPIED, Line::HeadAsValue, &[], Some((8, 5))),
    // A variable that is bound twice, and one that is not reached.
    (
        COPIED,
        Line::Pieces(&[Piece::Region(TREE), Piece::Region(TREE)], 2),
        &[],
        Some((8, 6)),
    ),
    (COPIED, Line::Pieces(&[], 3), &[], Some((8, 4))),
    // An operation on a packed value.
    (
        COPIED,
        Line::Pieces(&[Piece::Add(Atom::Variable(Variable(2)))], 2),
        &[],
        Some((9, 4)),
    ),
    (COPIED, Line::CallBehindPrim, &[], Some((9, 6))),
    // An offset that no head stores.
    (COPIED, BY_OFFSET, &[LEAF], Some((8, 4))),
    // An earlier function counts first: a number is no tree.
    (Atom::Whole(0), TWO_HEADS, &[], Some((9, 0))),
];

/// Whether the program of a row is accepted, with both functions, or refused by the first broken rule at its term.
fn is_told(
    alloc: Global,
    copied: Atom,
    line: Line<'_>,
    offsets: &[ConId],
    broken: Option<(u8, u64)>,
) -> Result<bool, Memory> {
    let core = program(alloc, copied, line, offsets)?;
    match (loccheck(alloc, core), broken) {
        (Ok(checked), None) => Ok(checked.core().functions().len() == 2),
        (Err(fault), Some((rule, term))) => Ok(fault == LocFault::Rule(rule, term)),
        _ => Ok(false),
    }
}

#[test]
fn the_first_broken_rule_is_named_with_its_term(rt: HostRuntime) -> Result<(), Fail> {
    for (copied, line, offsets, broken) in &ROWS {
        assert!(rt;
            is_told(rt.alloc(), *copied, *line, offsets, *broken)?,
            "{broken:?}"
        );
    }
    Ok(())
}

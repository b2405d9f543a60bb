//! Terms that are put together by hand.

ghost use Rattle.std.specs.Prelude.{◌≡◌, ◌<◌, ◌≤◌, length, IfOk};
ghost use Rattle.gib_types.specs.Table.{IsTyBelow};
ghost use Rattle.gib_core.specs.Arena.{IsBindingBelow, PartsBelow, term_in};

use gib_base::{Memory, Name, Names, Texts};
use gib_core::*;
use gib_types::{ConId, Operator, Ty, TyId, TypeTable};
use std::alloc::Global;
use std::test::Fail;

/// The first declared type.
pub const TREE: Ty = Ty::Tree(TyId(0));

/// Its constructor of a number.
pub const LEAF: ConId = ConId(0);

/// Its constructor of two trees.
pub const NODE: ConId = ConId(1);

/// The names of a program, in their order.
pub fn names(alloc: Global, texts: &[&str]) -> Result<Texts, Fail> {
    let mut names = Names::make(alloc)?;
    for text in texts {
        if names.intern(alloc, text.as_bytes()).is_err() {
            return Err(Fail::new("a name"));
        }
    }
    Ok(Texts::new(alloc, names))
}

pub fn var(number: u32) -> Atom {
    Atom::Variable(Variable(number))
}

pub fn put(terms: &mut Terms, node: Node) -> Result<TermId, Memory>
    requires { PartsBelow node (length terms.old) }
    ensures { IfOk result (λ id. (id.0 < length terms.new) × (length terms.old ≤ length terms.new)) }
{
    terms.put(node)
}

pub fn then(terms: &mut Terms, binding: Binding, rest: TermId) -> Result<TermId, Memory>
    requires rest { rest.0 < length terms.old }
    requires binding { IsBindingBelow (length terms.old) binding }
    ensures { IfOk result (λ id. (id.0 < length terms.new) × (length terms.old ≤ length terms.new)) }
{
    put(terms, Node::Then(binding, rest))
}

/// point %n
pub fn point(terms: &mut Terms, number: u32) -> Result<TermId, Memory>
    ensures { IfOk result (λ id. (id.0 < length terms.new) × (length terms.old ≤ length terms.new)) }
{
    put(terms, Node::Point(var(number)))
}

/// call f %n
pub fn call(alloc: Global, terms: &mut Terms, name: Name, number: u32) -> Result<TermId, Memory>
    ensures { IfOk result (λ id. (id.0 < length terms.new) × (length terms.old ≤ length terms.new)) }
{
    let arguments = Vec::from_slice(alloc, &[var(number)])?;
    put(terms, Node::Call(name, arguments))
}

/// write %h of the scalars and the packed fields
pub fn write(
    alloc: Global,
    terms: &mut Terms,
    head: u32,
    constructor: ConId,
    scalars: &[Atom],
    packed: &[Atom],
) -> Result<TermId, Memory>
    ensures { IfOk result (λ id. (id.0 < length terms.new) × (length terms.old ≤ length terms.new)) }
{
    let scalars = Vec::from_slice(alloc, scalars)?;
    let packed = Vec::from_slice(alloc, packed)?;
    put(
        terms,
        Node::Write {
            head: Variable(head),
            constructor,
            scalars,
            packed,
        },
    )
}

pub fn bound(kind: Kind, number: u32, ty: Ty, term: TermId) -> BoundSide
    ensures { term_in result ≡ term }
{
    BoundSide::One(BoundTerm {
        kind,
        variable: Variable(number),
        ty,
        term,
    })
}

/// past %h of a tag, and the rest
pub fn past(terms: &mut Terms, head: u32, tag: ConId, rest: TermId) -> Result<TermId, Memory>
    requires { rest.0 < length terms.old }
    ensures { IfOk result (λ id. (id.0 < length terms.new) × (length terms.old ≤ length terms.new)) }
{
    let head = Variable(head);
    let constructor = tag;
    then(terms, Binding::Past { head, constructor }, rest)
}

/// prim %n = an operation on two atoms, and the rest
pub fn prim(
    terms: &mut Terms,
    number: u32,
    operator: Operator,
    left: Atom,
    right: Atom,
    rest: TermId,
) -> Result<TermId, Memory>
    requires { rest.0 < length terms.old }
    ensures { IfOk result (λ id. (id.0 < length terms.new) × (length terms.old ≤ length terms.new)) }
{
    let variable = Variable(number);
    then(
        terms,
        Binding::Prim {
            variable,
            operator,
            left,
            right,
        },
        rest,
    )
}

/// scalar %n, which is call f %m
pub fn scalar(
    alloc: Global,
    terms: &mut Terms,
    number: u32,
    name: Name,
    of: u32,
) -> Result<BoundSide, Memory>
    ensures { IfOk result (λ side. ((term_in side).0 < length terms.new) × (length terms.old ≤ length terms.new)) }
{
    let term = call(alloc, terms, name, of)?;
    Ok(bound(Kind::Scalar, number, Ty::Whole, term))
}

/// here %n, and under it point %m, and the rest
pub fn here(terms: &mut Terms, number: u32, target: u32, rest: TermId) -> Result<TermId, Memory>
    requires { rest.0 < length terms.old }
    ensures { IfOk result (λ id. (id.0 < length terms.new) × (length terms.old ≤ length terms.new)) }
{
    let point = point(terms, target)?;
    let here = bound(Kind::Here, number, TREE, point);
    then(terms, Binding::One(here), rest)
}

/// past %h, a leaf of %n
pub fn leaf(alloc: Global, terms: &mut Terms, head: u32, number: u32) -> Result<TermId, Memory>
    ensures { IfOk result (λ id. (id.0 < length terms.new) × (length terms.old ≤ length terms.new)) }
{
    let rest = write(alloc, terms, head, LEAF, &[var(number)], &[])?;
    past(terms, head, LEAF, rest)
}

/// past %h, a node of two trees, whose fields are the variables behind the head and point to these
pub fn node(
    alloc: Global,
    terms: &mut Terms,
    head: u32,
    left: u32,
    right: u32,
) -> Result<TermId, Memory>
    requires { head < 100 }
    ensures { IfOk result (λ id. (id.0 < length terms.new) × (length terms.old ≤ length terms.new)) }
{
    let fields = [var(head + 1), var(head + 2)];
    let rest = write(alloc, terms, head, NODE, &[], &fields)?;
    let rest = here(terms, head + 2, right, rest)?;
    let rest = here(terms, head + 1, left, rest)?;
    past(terms, head, NODE, rest)
}

pub fn arm(
    alloc: Global,
    constructor: ConId,
    variables: &[Variable],
    term: TermId,
) -> Result<Branch, Memory>
    ensures { IfOk result (λ b. b.term ≡ term) }
{
    let variables = Vec::from_slice(alloc, variables)?;
    Ok(Branch {
        constructor,
        variables,
        term,
    })
}

/// if %n then a term else another one
pub fn if_else(
    terms: &mut Terms,
    condition: u32,
    then_part: TermId,
    else_part: TermId,
) -> Result<TermId, Memory>
    requires first { then_part.0 < length terms.old }
    requires second { else_part.0 < length terms.old }
    ensures { IfOk result (λ id. (id.0 < length terms.new) × (length terms.old ≤ length terms.new)) }
{
    put(
        terms,
        Node::If {
            condition: var(condition),
            then_part,
            else_part,
        },
    )
}

/// case %n with two arms
pub fn case(
    alloc: Global,
    terms: &mut Terms,
    subject: u32,
    first: Branch,
    second: Branch,
) -> Result<TermId, Memory>
    requires first { first.term.0 < length terms.old }
    requires second { second.term.0 < length terms.old }
    ensures { IfOk result (λ id. (id.0 < length terms.new) × (length terms.old ≤ length terms.new)) }
{
    let branches = vec![in alloc; first, second]?;
    put(
        terms,
        Node::Case {
            subject: var(subject),
            branches,
        },
    )
}

/// fun f (t : Tree) : .. = the first term ; main (t : Tree) : .. = the second one ;
pub fn core_of(
    alloc: Global,
    types: TypeTable,
    terms: Terms,
    name: Name,
    ty: Ty,
    bodies: (TermId, TermId),
) -> Result<Core, Memory>
    requires types { 0 < length types.types }
    requires declared { IsTyBelow (length types.types) ty }
    requires function { bodies.0.0 < length terms }
    requires main { bodies.1.0 < length terms }
{
    let parameters = Vec::from_slice(alloc, &[TREE])?;
    let function = CoreFunction {
        name,
        parameters,
        result: CoreResult::One(ty),
        body: bodies.0,
    };
    let functions = vec![in alloc; function]?;
    let main = CoreMain {
        parameter: TREE,
        result: ty,
        body: bodies.1,
    };
    Ok(Core::new(types, terms, functions, main, Vec::new(alloc), false))
}

/// Whether a core is printed as this text, where its names have these texts in their order.
pub fn is_printed(alloc: Global, core: &Core, texts: &[&str], want: &[u8]) -> Result<bool, Fail> {
    let names = names(alloc, texts)?;
    let text = print_core(alloc, core, &names)?;
    Ok(text.as_slice() == want)
}

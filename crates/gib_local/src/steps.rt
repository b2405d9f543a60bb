//! The constructs that contain no further terms.

ghost use Rattle.std.specs.Prelude.{◌≡◌, ◌<◌, Ok, length, IfOk};
ghost use Rattle.gib_core.specs.{Tree.{prepend}, Arena.{term_of}};
ghost use Rattle.gib_syntax.specs.Declarations.{number_of};
ghost use Rattle.gib_local_parse.specs.Tree.{Called, Given, Made, Pointed, NewPlace, NewRegion, PrimIn, ReachIn};
ghost use Rattle.gib_local.specs.declared.destination.Goal.{Goal as Where};
ghost use Rattle.gib_local.specs.Building.{between as between_sides, build, build_binding, is_last as last, may_open as may_be_opened, new_place as place_named, no_mark as unmarked, write as written, with_variable, variable_at, type_start as start_of, Program};
ghost use Rattle.gib_local.specs.Builds.{around_of, destination_of, passed_of, program_in, nowhere, Builds, BuildsBetween, Gives, IsStepBelow, PutsTerm, Steps, binds_of, call_due, filled_due, reserved as reserved_at, side_due};

use crate::build_fault::BuildFault;
use crate::builder::Builder;
use crate::destination::{Goal, is_flat};
use crate::place::{Meant, Place, is_place, is_region, is_there, place_meant};
use crate::source::Source;
use gib_base::Memory;
use gib_core::{Atom, Binding, Kind, Node, TermId, Variable};
use gib_local_parse::{Location, Mark, Operand, Way};
use gib_loccheck::Destination;
use gib_syntax::{Ident, TypeName};
use gib_types::{ConId, Operator, items_at};

/// The bindings of a step, before a term.
///
/// # Errors
///
/// Want of memory.
pub fn put_before(
    builder: &mut Builder,
    binding: Option<Binding>,
    rest: TermId,
) -> Result<TermId, Memory>
    requires below { IsStepBelow (length builder.old.terms) binding }
    requires inside { rest.0 < length builder.old.terms }
    ensures { IfOk result (λ id. PutsTerm builder.old builder.new id (prepend (binds_of builder.old.terms binding) (term_of builder.old.terms rest.0))) }
{
    match binding {
        Some(binding) => builder.put(Node::Then(binding, rest)),
        None => Ok(rest),
    }
}

/// A scalar that is given.
///
/// # Errors
///
/// Want of memory.
pub fn give(
    builder: &mut Builder,
    source: &Source,
    goal: &Goal,
    value: Operand,
) -> Result<TermId, BuildFault>
    ensures { Builds builder.old builder.new result (build (program_in source.now) (Given nowhere value) (around_of builder.old goal.now) (passed_of builder.old)) }
{
    let atom = builder.atom(value)?;
    let term = builder.put(Node::Give(atom))?;
    Ok(term)
}

/// A packed value that is pointed to.
///
/// # Errors
///
/// Where its `@` does not name the destination; want of memory.
pub fn point(
    builder: &mut Builder,
    source: &Source,
    goal: &Goal,
    x: Ident,
    mark: Mark,
) -> Result<TermId, BuildFault>
    ensures { Builds builder.old builder.new result (build (program_in source.now) (Pointed nowhere x mark) (around_of builder.old goal.now) (passed_of builder.old)) }
{
    builder.aims(goal, mark)?;
    let variable = builder.variable(x);
    let term = builder.put(Node::Point(Atom::Variable(variable)))?;
    Ok(term)
}

/// There is no `@`.
///
/// # Errors
///
/// Where there is one.
pub fn no_mark(mark: Option<Mark>) -> Result<(), BuildFault>
    ensures { Gives (λ _. tt {0}) result (unmarked mark (Ok (tt {0}))) }
{
    match mark {
        None => Ok(()),
        Some(mark) => Err(BuildFault::Place(mark.sign.start)),
    }
}

/// The `@` of a call: it is there, and names the destination, exactly where the function's result is packed.
fn call_mark(
    builder: &Builder,
    goal: &Goal,
    scalar: bool,
    f: Ident,
    mark: Option<Mark>,
) -> Result<(), BuildFault>
    ensures { Gives (λ _. tt {0}) result (call_due scalar (around_of builder.now goal.now) f mark) }
{
    if scalar {
        return no_mark(mark);
    }
    match mark {
        None => Err(BuildFault::Place(f.span.start)),
        Some(mark) => builder.aims(goal, mark),
    }
}

/// A call.
///
/// # Errors
///
/// Where its `@` is not due, or is missing, or does not name the destination; want of memory.
pub fn call(
    builder: &mut Builder,
    source: &Source,
    goal: &Goal,
    f: Ident,
    values: &[Operand],
    mark: Option<Mark>,
) -> Result<TermId, BuildFault>
    ensures { Builds builder.old builder.new result (build (program_in source.now) (Called f values.now mark) (around_of builder.old goal.now) (passed_of builder.old)) }
{
    call_mark(builder, goal, source.gives_scalar(f), f, mark)?;
    let arguments = builder.atoms(values)?;
    let term = builder.put(Node::Call(f.name, arguments))?;
    Ok(term)
}

/// A head is filled by arguments in declared order.
fn write(
    builder: &mut Builder,
    source: &Source,
    head: Variable,
    constructor: ConId,
    arguments: &[Atom],
) -> Result<TermId, Memory>
    ensures { IfOk result (λ id. PutsTerm builder.old builder.new id (written (program_in source.now).table head constructor arguments.now)) }
{
    let types = source.table().fields(constructor);
    let scalars = items_at(builder.alloc, true, types, arguments)?;
    let packed = items_at(builder.alloc, false, types, arguments)?;
    builder.put(Node::Write {
        head,
        constructor,
        scalars,
        packed,
    })
}

/// A head is reserved and filled at once.
fn reserved(
    builder: &mut Builder,
    source: &Source,
    constructor: ConId,
    arguments: &[Atom],
) -> Result<TermId, BuildFault>
    ensures { Builds builder.old builder.new result (reserved_at (program_in source.now).table (passed_of builder.old) constructor arguments.now) }
{
    let head = builder.new_variable()?;
    let filled = write(builder, source, head, constructor, arguments)?;
    let term = builder.put(Node::Then(Binding::Past { head, constructor }, filled))?;
    Ok(term)
}

/// The open head is filled.
fn filled(
    builder: &mut Builder,
    source: &Source,
    goal: &Goal,
    constructor: ConId,
    mark: Mark,
    arguments: &[Atom],
) -> Result<TermId, BuildFault>
    ensures { Builds builder.old builder.new result (filled_due (program_in source.now).table (around_of builder.old goal.now) (passed_of builder.old) constructor mark arguments.now) }
{
    if !goal.is_open_at(constructor) {
        return Err(BuildFault::Place(mark.name.span.start));
    }
    let head = goal.head();
    let term = write(builder, source, head, constructor, arguments)?;
    Ok(term)
}

/// A constructor's value: without packed fields its head is reserved and filled at once; with them it is that of the open
/// head.
///
/// # Errors
///
/// Where its `@` does not name the destination, or another head is open there, or none; want of memory.
pub fn make(
    builder: &mut Builder,
    source: &Source,
    goal: &Goal,
    k: Ident,
    mark: Mark,
    values: &[Operand],
) -> Result<TermId, BuildFault>
    ensures { Builds builder.old builder.new result (build (program_in source.now) (Made k mark values.now) (around_of builder.old goal.now) (passed_of builder.old)) }
{
    builder.aims(goal, mark)?;
    let arguments = builder.atoms(values)?;
    let constructor = source.constructor(k);
    if is_flat(source.table(), constructor) {
        reserved(builder, source, constructor, &arguments)
    } else {
        filled(builder, source, goal, constructor, mark, &arguments)
    }
}

/// A region.
///
/// # Errors
///
/// Want of memory.
pub fn new_region(
    builder: &mut Builder,
    source: &Source,
    goal: &Goal,
    r: Ident,
) -> Result<Option<Binding>, BuildFault>
    ensures { Steps builder.old builder.new goal.now result (build_binding (program_in source.now) (NewRegion r) (around_of builder.old goal.now) (passed_of builder.old)) }
{
    builder.name(r, Meant::IsRegion)?;
    builder.unused.put(r.name.0)?;
    Ok(None)
}

/// A name for the start of a region.
fn start(
    builder: &mut Builder,
    source: &Source,
    goal: &Goal,
    l: Ident,
    r: Ident,
) -> Result<Option<Binding>, BuildFault>
    ensures { Steps builder.old builder.new goal.now result (place_named (program_in source.now).table (around_of builder.old goal.now) (passed_of builder.old) l (Location.Start r)) }
{
    if !is_region(builder.meant(r)) {
        return Err(BuildFault::Place(r.span.start));
    }
    builder.name(l, Meant::IsPlace(Place::AtStart(r.name.0)))?;
    Ok(None)
}

/// Whether the head of a constructor with packed fields may be opened at the destination, which this name is.
fn may_open(builder: &Builder, source: &Source, goal: &Goal, d: Ident, constructor: ConId) -> bool
    ensures { result ≡ may_be_opened (program_in source.now).table (around_of builder.now goal.now) d constructor }
{
    goal.destination.is_empty()
        && (is_place(goal.at, builder.meant(d)) && !is_flat(source.table(), constructor))
}

/// A head is opened at the destination; the place behind it gets a name.
fn plus(
    builder: &mut Builder,
    source: &Source,
    goal: &mut Goal,
    l: Ident,
    d: Ident,
    k: Ident,
) -> Result<Option<Binding>, BuildFault>
    ensures { Steps builder.old builder.new goal.new result (place_named (program_in source.now).table (around_of builder.old goal.old) (passed_of builder.old) l (Location.Plus d k)) }
{
    let constructor = source.constructor(k);
    if !may_open(builder, source, goal, d, constructor) {
        return Err(BuildFault::Place(d.span.start));
    }
    let head = builder.new_variable()?;
    builder.name(l, Meant::IsPlace(Place::AtFirst(head.0)))?;
    goal.destination = Destination::Open {
        head,
        constructor,
        standing: Vec::new(builder.alloc),
    };
    Ok(Some(Binding::Past { head, constructor }))
}

/// Whether the place of the next field is behind this variable.
fn is_last(source: &Source, goal: &Goal, x: Variable) -> bool
    ensures { result ≡ last (program_in source.now).table (destination_of goal.now.destination) x }
{
    is_there(goal.next_place(source.table()), Place::AtNext(x.0))
}

/// A name for the place of the next field, behind a variable.
fn after(
    builder: &mut Builder,
    source: &Source,
    goal: &Goal,
    l: Ident,
    x: Ident,
) -> Result<Option<Binding>, BuildFault>
    ensures { Steps builder.old builder.new goal.now result (place_named (program_in source.now).table (around_of builder.old goal.now) (passed_of builder.old) l (Location.After x)) }
{
    let variable = builder.variable(x);
    if !is_last(source, goal, variable) {
        return Err(BuildFault::Place(x.span.start));
    }
    builder.name(l, Meant::IsPlace(Place::AtNext(variable.0)))?;
    Ok(None)
}

/// A name for a location.
///
/// # Errors
///
/// Where the location is not due here; want of memory.
pub fn new_place(
    builder: &mut Builder,
    source: &Source,
    goal: &mut Goal,
    l: Ident,
    location: Location,
) -> Result<Option<Binding>, BuildFault>
    ensures { Steps builder.old builder.new goal.new result (build_binding (program_in source.now) (NewPlace l location) (around_of builder.old goal.old) (passed_of builder.old)) }
{
    match location {
        Location::Start(r) => start(builder, source, goal, l, r),
        Location::Plus(d, k) => plus(builder, source, goal, l, d, k),
        Location::After(x) => after(builder, source, goal, l, x),
    }
}

/// An operation.
///
/// # Errors
///
/// Want of memory.
pub fn operation(
    builder: &mut Builder,
    name: Ident,
    left: Operand,
    operator: Operator,
    right: Operand,
) -> Result<Option<Binding>, BuildFault>
    ensures { (p : Program) (w : TypeName) (goal : Where) → Steps builder.old builder.new goal result (build_binding p (PrimIn name w left operator right) (around_of builder.old goal) (passed_of builder.old)) }
{
    let left = builder.atom(left)?;
    let right = builder.atom(right)?;
    let variable = builder.bind_new(name)?;
    Ok(Some(Binding::Prim {
        variable,
        operator,
        left,
        right,
    }))
}

/// A field is reached from here on.
pub fn reach(builder: &Builder, source: &Source, goal: &Goal, y: Ident, way: Way) -> Option<Binding>
    ensures { Steps builder.now builder.now goal.now (Ok result) (build_binding (program_in source.now) (ReachIn y way) (around_of builder.now goal.now) (passed_of builder.now)) }
{
    Some(Binding::Reach {
        field: builder.variable(y),
        access: builder.access(way),
    })
}

/// Between two sides: the place behind the left side's variable may get a name.
///
/// # Errors
///
/// Where that is not the place of the next field; want of memory.
pub fn between(
    builder: &mut Builder,
    source: &Source,
    goal: &Goal,
    name: Ident,
    variable: Variable,
    place: Option<(Ident, Ident)>,
) -> Result<(), BuildFault>
    ensures { BuildsBetween builder.old builder.new goal.now result (between_sides (program_in source.now).table (around_of builder.old goal.now) name variable.0 (around_of builder.old goal.now).destination place) }
{
    let Some(named) = place else {
        return Ok(());
    };
    let (l, y) = named;
    let last = beside(builder, name, variable, y);
    if !is_last(source, goal, last) {
        return Err(BuildFault::Place(y.span.start));
    }
    builder.name(l, Meant::IsPlace(Place::AtNext(last.0)))?;
    Ok(())
}

/// The variable of a name, where one more is in scope.
fn beside(builder: &Builder, name: Ident, variable: Variable, y: Ident) -> Variable
    ensures { result ≡ record { 0 = variable_at (with_variable name variable.0 builder.now.variables) (number_of y) } }
{
    if name.name.0 == y.name.0 {
        variable
    } else {
        builder.variable(y)
    }
}

/// How the value of a packed side is put, and where.
///
/// # Errors
///
/// Where its `@` is missing; where its name is neither that of the next field's place nor that of the start of a region
/// that is not used yet.
pub fn due(
    builder: &Builder,
    source: &Source,
    goal: &Goal,
    ty: TypeName,
    mark: Option<Mark>,
) -> Result<(Kind, Place), BuildFault>
    ensures { Gives (λ r. (r.0, r.1)) result (side_due (program_in source.now).table (around_of builder.now goal.now) (passed_of builder.now) ty mark) }
{
    let Some(mark) = mark else {
        return Err(BuildFault::Place(type_start(ty)));
    };
    let meant = builder.meant(mark.name);
    let next = goal.next_place(source.table());
    match builder.kind_at(next, meant) {
        Some(kind) => Ok((kind, place_meant(meant))),
        None => Err(BuildFault::Place(mark.name.span.start)),
    }
}

/// Where a type is written.
pub fn type_start(ty: TypeName) -> u32
    ensures { result ≡ start_of ty }
{
    match ty {
        TypeName::Whole(span) => span.start,
        TypeName::Truth(span) => span.start,
        TypeName::Declared(x) => x.span.start,
    }
}

//! The core of a text's bodies.

ghost use Rattle.std.specs.Prelude.{◌<◌, true, false, length};
ghost use Rattle.gib_local_parse.specs.Tree.{Cased, Chosen, In, LastArm, LetIn, ParIn};
ghost use Rattle.gib_local_parse.specs.{LineArena.{ArmsBelow, BindingBelow, IsArmBelow, binding_from, side_from, tree_of}, ReadingTerms.{arms_text}};
ghost use Rattle.gib_local.specs.Building.{bind, build, build_arms, build_binding, build_bound};
ghost use Rattle.gib_local.specs.Builds.{around_of, passed_of, program_in, nowhere, Builds, BuildsArms, BuildsBranch, BuildsSide, Steps};

use crate::build_fault::BuildFault;
use crate::builder::Builder;
use crate::destination::Goal;
use crate::source::Source;
use crate::steps::{
    between, call, due, give, make, new_place, new_region, no_mark, operation, point, put_before,
    reach,
};
use gib_core::{Atom, Binding, BoundSide, BoundTerm, Branch, Kind, Node, TermId};
use gib_local_parse::{BindingNode, LineArm, LineId, LineNode, Operand, Side};
use gib_loccheck::Destination;
use gib_syntax::Ident;
use gib_types::Ty;

/// Two sides; between them a name may be given to the place behind the left side's variable.
#[derive(Clone, Copy)]
struct Sides {
    left: Side,
    place: Option<(Ident, Ident)>,
    right: Side,
}

/// The core term of a line.
///
/// # Errors
///
/// The first place that is not due; want of memory.
#[cycle(build)]
pub fn line(
    builder: &mut Builder,
    source: &Source,
    goal: &mut Goal,
    id: LineId,
) -> Result<TermId, BuildFault>
    requires { id.0 < length source.now.lines }
    ensures { Builds builder.old builder.new result (build (program_in source.now) (tree_of source.now.lines id.0) (around_of builder.old goal.old) (passed_of builder.old)) }
{
    match source.node(id) {
        LineNode::In(_, bound, rest) => within(builder, source, goal, id, bound, *rest),
        LineNode::Give(_, value) => give(builder, source, goal, *value),
        LineNode::Point(_, x, mark) => point(builder, source, goal, *x, *mark),
        LineNode::Call(f, values, mark) => call(builder, source, goal, *f, values, *mark),
        LineNode::Make(k, mark, values) => make(builder, source, goal, *k, *mark, values),
        LineNode::Case(_, x, cases) => case(builder, source, goal, id, *x, cases),
        LineNode::If(_, value, first, second) => {
            if_else(builder, source, goal, *value, *first, *second)
        }
    }
}

/// A binding, and the rest of its line.
#[cycle(build)]
fn within(
    builder: &mut Builder,
    source: &Source,
    goal: &mut Goal,
    id: LineId,
    bound: &BindingNode,
    rest: LineId,
) -> Result<TermId, BuildFault>
    requires inside { id.0 < length source.now.lines }
    requires bound { BindingBelow bound.now id.0 }
    requires rest { rest.0 < id.0 }
    ensures { Builds builder.old builder.new result (build (program_in source.now) (In nowhere (binding_from (tree_of source.now.lines) bound.now) (tree_of source.now.lines rest.0)) (around_of builder.old goal.old) (passed_of builder.old)) }
{
    let depth = builder.depth();
    let binding = step(builder, source, goal, id, bound)?;
    let last = line(builder, source, goal, rest)?;
    builder.leave(depth)?;
    let term = put_before(builder, binding, last)?;
    Ok(term)
}

/// The binding of a step of a line, where it makes one; what it binds is in scope from then on.
#[cycle(build)]
fn step(
    builder: &mut Builder,
    source: &Source,
    goal: &mut Goal,
    below: LineId,
    bound: &BindingNode,
) -> Result<Option<Binding>, BuildFault>
    requires inside { below.0 < length source.now.lines }
    requires bound { BindingBelow bound.now below.0 }
    ensures { Steps builder.old builder.new goal.new result (build_binding (program_in source.now) (binding_from (tree_of source.now.lines) bound.now) (around_of builder.old goal.old) (passed_of builder.old)) }
{
    match bound {
        BindingNode::NewRegion(r) => new_region(builder, source, goal, *r),
        BindingNode::NewPlace(l, location) => new_place(builder, source, goal, *l, *location),
        BindingNode::Let(side) => one(builder, source, goal, *side),
        BindingNode::Par(left, place, right) => {
            let sides = Sides {
                left: *left,
                place: *place,
                right: *right,
            };
            both(builder, source, goal, below, sides)
        }
        BindingNode::Operation {
            name,
            ty: _,
            left,
            operator,
            right,
        } => operation(builder, *name, *left, *operator, *right),
        BindingNode::Reach(y, way) => Ok(reach(builder, source, goal, *y, *way)),
    }
}

/// A bound term.
#[cycle(build)]
fn one(
    builder: &mut Builder,
    source: &Source,
    goal: &mut Goal,
    side: Side,
) -> Result<Option<Binding>, BuildFault>
    requires { side.line.0 < length source.now.lines }
    ensures { Steps builder.old builder.new goal.new result (build_binding (program_in source.now) (LetIn (side_from (tree_of source.now.lines) side)) (around_of builder.old goal.old) (passed_of builder.old)) }
{
    let bound = bind_side(builder, source, goal, side)?;
    builder.bind(side.name, bound.variable)?;
    Ok(Some(Binding::One(BoundSide::One(bound))))
}

/// Two sides.
#[cycle(build)]
fn both(
    builder: &mut Builder,
    source: &Source,
    goal: &mut Goal,
    below: LineId,
    sides: Sides,
) -> Result<Option<Binding>, BuildFault>
    requires inside { below.0 < length source.now.lines }
    requires left { sides.left.line.0 < below.0 }
    requires right { sides.right.line.0 < below.0 }
    ensures { Steps builder.old builder.new goal.new result (build_binding (program_in source.now) (ParIn (side_from (tree_of source.now.lines) sides.left) sides.place (side_from (tree_of source.now.lines) sides.right)) (around_of builder.old goal.old) (passed_of builder.old)) }
{
    let left = bind_side(builder, source, goal, sides.left)?;
    let depth = builder.depth();
    between(
        builder,
        source,
        goal,
        sides.left.name,
        left.variable,
        sides.place,
    )?;
    let right = bind_side(builder, source, goal, sides.right)?;
    builder.leave(depth)?;
    builder.bind(sides.left.name, left.variable)?;
    builder.bind(sides.right.name, right.variable)?;
    Ok(Some(Binding::Par {
        fork: false,
        left: BoundSide::One(left),
        right: BoundSide::One(right),
    }))
}

/// A side.
#[cycle(build)]
fn bind_side(
    builder: &mut Builder,
    source: &Source,
    goal: &mut Goal,
    side: Side,
) -> Result<BoundTerm, BuildFault>
    requires { side.line.0 < length source.now.lines }
    ensures { BuildsSide builder.old builder.new goal.old goal.new result (build_bound (program_in source.now) (side_from (tree_of source.now.lines) side) (around_of builder.old goal.old) (passed_of builder.old)) }
{
    let ty = source.type_named(side.ty);
    if ty.is_scalar() {
        scalar_side(builder, source, goal, side, ty)
    } else {
        packed_side(builder, source, goal, side, ty)
    }
}

/// A side that is a scalar.
#[cycle(build)]
fn scalar_side(
    builder: &mut Builder,
    source: &Source,
    goal: &Goal,
    side: Side,
    ty: Ty,
) -> Result<BoundTerm, BuildFault>
    requires { side.line.0 < length source.now.lines }
    ensures { BuildsSide builder.old builder.new goal.now goal.now result (bind true (program_in source.now).table (build (program_in source.now) (tree_of source.now.lines side.line.0)) (around_of builder.old goal.now) (passed_of builder.old) side.name side.ty ty side.mark) }
{
    no_mark(side.mark)?;
    let variable = builder.new_variable()?;
    let mut inside = Goal {
        destination: Destination::Nowhere,
        at: goal.at,
    };
    let term = line(builder, source, &mut inside, side.line)?;
    Ok(BoundTerm {
        kind: Kind::Scalar,
        variable,
        ty,
        term,
    })
}

/// A side that is packed.
#[cycle(build)]
fn packed_side(
    builder: &mut Builder,
    source: &Source,
    goal: &mut Goal,
    side: Side,
    ty: Ty,
) -> Result<BoundTerm, BuildFault>
    requires { side.line.0 < length source.now.lines }
    ensures { BuildsSide builder.old builder.new goal.old goal.new result (bind false (program_in source.now).table (build (program_in source.now) (tree_of source.now.lines side.line.0)) (around_of builder.old goal.old) (passed_of builder.old) side.name side.ty ty side.mark) }
{
    let (kind, at) = due(builder, source, goal, side.ty, side.mark)?;
    let variable = builder.new_variable()?;
    builder.use_place(at)?;
    let mut inside = Goal {
        destination: Destination::Empty,
        at,
    };
    let term = line(builder, source, &mut inside, side.line)?;
    goal.destination.stand(kind, variable)?;
    Ok(BoundTerm {
        kind,
        variable,
        ty,
        term,
    })
}

/// A case.
#[cycle(build)]
fn case(
    builder: &mut Builder,
    source: &Source,
    goal: &Goal,
    id: LineId,
    x: Ident,
    cases: &[LineArm],
) -> Result<TermId, BuildFault>
    requires inside { id.0 < length source.now.lines }
    requires arms { ArmsBelow cases.now id.0 }
    ensures { Builds builder.old builder.new result (build (program_in source.now) (Cased nowhere x (arms_text (tree_of source.now.lines) cases.now)) (around_of builder.old goal.now) (passed_of builder.old)) }
{
    let variable = builder.variable(x);
    let branches = arms(builder, source, goal, id, cases)?;
    let term = builder.put(Node::Case {
        subject: Atom::Variable(variable),
        branches,
    })?;
    Ok(term)
}

/// The branches of arms.
#[cycle(build)]
fn arms(
    builder: &mut Builder,
    source: &Source,
    goal: &Goal,
    below: LineId,
    cases: &[LineArm],
) -> Result<Vec<Branch>, BuildFault>
    requires inside { below.0 < length source.now.lines }
    requires arms { ArmsBelow cases.now below.0 }
    ensures { BuildsArms builder.old builder.new result (build_arms (program_in source.now) (arms_text (tree_of source.now.lines) cases.now) (around_of builder.old goal.now) (passed_of builder.old)) }
{
    let mut branches = Vec::new(builder.alloc);
    let mut rest = cases;
    'arms: while let [arm, after @ ..] = rest {
        let branch = arm_branch(builder, source, goal, below, arm)?;
        branches.push(branch)?;
        rest = after;
    }
    Ok(branches)
}

/// The branch of an arm.
#[cycle(build)]
fn arm_branch(
    builder: &mut Builder,
    source: &Source,
    goal: &Goal,
    below: LineId,
    arm: &LineArm,
) -> Result<Branch, BuildFault>
    requires inside { below.0 < length source.now.lines }
    requires arm { IsArmBelow below.0 arm.now }
    ensures { BuildsBranch builder.old builder.new result (build_arms (program_in source.now) (LastArm arm.now.constructor arm.now.variables.items (tree_of source.now.lines arm.now.line.0)) (around_of builder.old goal.now) (passed_of builder.old)) }
{
    let depth = builder.depth();
    let variables = builder.bind_all(&arm.variables)?;
    let mut own = goal.copy()?;
    let term = line(builder, source, &mut own, arm.line)?;
    builder.leave(depth)?;
    Ok(Branch {
        constructor: source.constructor(arm.constructor),
        variables,
        term,
    })
}

/// A choice.
#[cycle(build)]
fn if_else(
    builder: &mut Builder,
    source: &Source,
    goal: &mut Goal,
    value: Operand,
    first: LineId,
    second: LineId,
) -> Result<TermId, BuildFault>
    requires first { first.0 < length source.now.lines }
    requires second { second.0 < length source.now.lines }
    ensures { Builds builder.old builder.new result (build (program_in source.now) (Chosen nowhere value (tree_of source.now.lines first.0) (tree_of source.now.lines second.0)) (around_of builder.old goal.old) (passed_of builder.old)) }
{
    let condition = builder.atom(value)?;
    let mut own = goal.copy()?;
    let then_part = line(builder, source, &mut own, first)?;
    let else_part = line(builder, source, goal, second)?;
    let term = builder.put(Node::If {
        condition,
        then_part,
        else_part,
    })?;
    Ok(term)
}

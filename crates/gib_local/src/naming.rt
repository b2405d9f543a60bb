//! The names, counts and limits of bodies: the first fault in the order of the text.

ghost use Rattle.std.specs.Prelude.{◌≡◌, ◌<◌, ◌≤◌, length, map, OnOk};
ghost use Rattle.std.specs.List.{AllByRecursion};
ghost use Rattle.gib_check.specs.Answers.{Gives};
ghost use Rattle.gib_local.specs.Knowing.{declared_of, arm as arm_rule, side as side_rule, body as body_rule, given, pointed, called, made, HasFew, IsKept};
ghost use Rattle.gib_local_parse.specs.{LineArena.{ArmsBelow, BindingBelow, binding_from, tree_of}, ReadingTerms.{arms_text}};
ghost use Rattle.gib_local_parse.specs.TextParts.{IsFunctionIn, function_text};
ghost use Rattle.gib_local.specs.Naming as rule;
ghost use Rattle.gib_local_parse.specs.Tree as tree;

use crate::known::Known;
use crate::scopes::Scopes;
use gib_base::{Memory, Span};
use gib_check::TypeFault;
use gib_local_parse::{
    BindingNode, FunctionLines, LineArm, LineId, LineNode, Location, Mark, Operand, Side,
};
use gib_syntax::{Ident, Parameter};
use std::alloc::Global;

/// What a location's right side names.
fn location(known: &Known, scopes: &Scopes, location: Location) -> Result<(), TypeFault>
    ensures { Gives (λ _. tt {0}) result (rule.location (declared_of known.now) scopes.now.names location) }
{
    match location {
        Location::Start(_) => Ok(()),
        Location::Plus(_, k) => {
            known.constructor(k)?;
            Ok(())
        }
        Location::After(x) => scopes.variable(x),
    }
}

/// A place's name between two sides; it holds for the right one.
fn between(
    scopes: &mut Scopes,
    left: Ident,
    between: Option<(Ident, Ident)>,
) -> Result<(), TypeFault>
    ensures read { Gives (λ _. scopes.new.names) result (rule.between_names scopes.old.names left between) }
    ensures kept { OnOk result (IsKept scopes.old.names scopes.new.names) }
    ensures counts { scopes.new.counts ≡ scopes.old.counts }
{
    match between {
        None => Ok(()),
        Some((l, y)) => {
            scopes.new_place(l)?;
            scopes.variable_or(left, y)?;
            scopes.enter_place(l)
        }
    }
}

/// A variable or a literal is given.
fn give(scopes: &mut Scopes, span: Span, value: Operand) -> Result<(), TypeFault>
    ensures read { Gives (λ _. scopes.new.counts) result (given scopes.old.names scopes.old.counts span value) }
    ensures kept { scopes.new.names ≡ scopes.old.names }
{
    scopes.one_more(span)?;
    scopes.operand(value)
}

/// A variable's value is pointed to.
fn point(scopes: &mut Scopes, span: Span, x: Ident) -> Result<(), TypeFault>
    ensures read { Gives (λ _. scopes.new.counts) result (pointed scopes.old.names scopes.old.counts span x) }
    ensures kept { scopes.new.names ≡ scopes.old.names }
{
    scopes.one_more(span)?;
    scopes.variable(x)
}

/// A function is called.
fn call(known: &Known, scopes: &mut Scopes, f: Ident, values: &[Operand]) -> Result<(), TypeFault>
    ensures read { Gives (λ _. scopes.new.counts) result (called (declared_of known.now) scopes.old.names scopes.old.counts f values.now) }
    ensures kept { scopes.new.names ≡ scopes.old.names }
{
    scopes.one_more(f.span)?;
    known.function_of(f, values.len())?;
    scopes.operands(values)
}

/// A constructor's value is made.
fn make(known: &Known, scopes: &mut Scopes, k: Ident, values: &[Operand]) -> Result<(), TypeFault>
    ensures read { Gives (λ _. scopes.new.counts) result (made (declared_of known.now) scopes.old.names scopes.old.counts k values.now) }
    ensures kept { scopes.new.names ≡ scopes.old.names }
{
    scopes.one_more(k.span)?;
    known.constructor_of(k, values.len())?;
    scopes.operands(values)
}

/// The names of a term.
#[cycle(names)]
fn line(known: &Known, scopes: &mut Scopes, id: LineId) -> Result<(), TypeFault>
    requires { id.0 < length known.now.lines }
    ensures read { Gives (λ _. scopes.new.counts) result (rule.check_line (declared_of known.now) (tree_of known.now.lines id.0) scopes.old.names scopes.old.counts) }
    ensures kept { OnOk result (scopes.new.names ≡ scopes.old.names) }
{
    let node = known.node(id);
    match node {
        LineNode::In(span, bound, rest) => binding_then(known, scopes, *span, id, bound, *rest),
        LineNode::Give(span, value) => give(scopes, *span, *value),
        LineNode::Point(span, x, _) => point(scopes, *span, *x),
        LineNode::Call(f, values, _) => call(known, scopes, *f, values),
        LineNode::Make(k, _, values) => make(known, scopes, *k, values),
        LineNode::Case(span, x, cases) => case_of(known, scopes, *span, id, *x, cases),
        LineNode::If(span, value, then_part, else_part) => {
            if_then(known, scopes, *span, *value, *then_part, *else_part)
        }
    }
}

/// A binding, and the rest of its line.
#[cycle(names)]
fn binding_then(
    known: &Known,
    scopes: &mut Scopes,
    span: Span,
    below: LineId,
    bound: &BindingNode,
    rest: LineId,
) -> Result<(), TypeFault>
    requires parts { BindingBelow bound.now below.0 }
    requires rest { rest.0 < below.0 }
    requires below { below.0 < length known.now.lines }
    ensures read { Gives (λ _. scopes.new.counts) result (rule.check_line (declared_of known.now) (tree.In span (binding_from (tree_of known.now.lines) bound.now) (tree_of known.now.lines rest.0)) scopes.old.names scopes.old.counts) }
    ensures kept { OnOk result (scopes.new.names ≡ scopes.old.names) }
{
    scopes.one_more(span)?;
    let depth = scopes.depth();
    binding(known, scopes, below, bound)?;
    line(known, scopes, rest)?;
    scopes.leave(depth)?;
    Ok(())
}

/// A case, and its arms.
#[cycle(names)]
fn case_of(
    known: &Known,
    scopes: &mut Scopes,
    span: Span,
    below: LineId,
    x: Ident,
    cases: &[LineArm],
) -> Result<(), TypeFault>
    requires arms { ArmsBelow cases.now below.0 }
    requires below { below.0 < length known.now.lines }
    ensures read { Gives (λ _. scopes.new.counts) result (rule.check_line (declared_of known.now) (tree.Cased span x (arms_text (tree_of known.now.lines) cases.now)) scopes.old.names scopes.old.counts) }
    ensures kept { OnOk result (scopes.new.names ≡ scopes.old.names) }
{
    scopes.one_more(span)?;
    scopes.variable(x)?;
    arms(known, scopes, below, cases)
}

/// An if, and its parts.
#[cycle(names)]
fn if_then(
    known: &Known,
    scopes: &mut Scopes,
    span: Span,
    value: Operand,
    then_part: LineId,
    else_part: LineId,
) -> Result<(), TypeFault>
    requires then_part { then_part.0 < length known.now.lines }
    requires else_part { else_part.0 < length known.now.lines }
    ensures read { Gives (λ _. scopes.new.counts) result (rule.check_line (declared_of known.now) (tree.Chosen span value (tree_of known.now.lines then_part.0) (tree_of known.now.lines else_part.0)) scopes.old.names scopes.old.counts) }
    ensures kept { OnOk result (scopes.new.names ≡ scopes.old.names) }
{
    scopes.one_more(span)?;
    scopes.operand(value)?;
    line(known, scopes, then_part)?;
    line(known, scopes, else_part)
}

/// The names of a side whose variable was counted.
#[cycle(names)]
fn behind(known: &Known, scopes: &mut Scopes, below: LineId, side: &Side) -> Result<(), TypeFault>
    requires side { side.now.line.0 < below.0 }
    requires below { below.0 < length known.now.lines }
    ensures read { Gives (λ _. scopes.new.counts) result (side_rule (declared_of known.now) scopes.old.names scopes.old.counts side.now.ty (tree_of known.now.lines side.now.line.0)) }
    ensures kept { OnOk result (scopes.new.names ≡ scopes.old.names) }
{
    known.type_named(side.ty)?;
    line(known, scopes, side.line)
}

/// The names of two sides.
#[cycle(names)]
fn sides(
    known: &Known,
    scopes: &mut Scopes,
    below: LineId,
    left: &Side,
    place: Option<(Ident, Ident)>,
    right: &Side,
) -> Result<(), TypeFault>
    requires sides { BindingBelow (BindingNode.Par left.now place right.now) below.0 }
    requires below { below.0 < length known.now.lines }
    ensures read { Gives (λ _. scopes.new) result (rule.check_binding (declared_of known.now) (binding_from (tree_of known.now.lines) (BindingNode.Par left.now place right.now)) scopes.old.names scopes.old.counts) }
    ensures kept { OnOk result (IsKept scopes.old.names scopes.new.names) }
{
    scopes.bound(left.name)?;
    behind(known, scopes, below, left)?;
    let depth = scopes.depth();
    between(scopes, left.name, place)?;
    scopes.bound_beside(left.name, right.name)?;
    behind(known, scopes, below, right)?;
    scopes.leave(depth)?;
    scopes.enter(left.name)?;
    scopes.enter(right.name)?;
    Ok(())
}

/// The names of a binding; what it binds comes into scope.
#[cycle(names)]
fn binding(
    known: &Known,
    scopes: &mut Scopes,
    below: LineId,
    bound: &BindingNode,
) -> Result<(), TypeFault>
    requires parts { BindingBelow bound.now below.0 }
    requires below { below.0 < length known.now.lines }
    ensures read { Gives (λ _. scopes.new) result (rule.check_binding (declared_of known.now) (binding_from (tree_of known.now.lines) bound.now) scopes.old.names scopes.old.counts) }
    ensures kept { OnOk result (IsKept scopes.old.names scopes.new.names) }
{
    match bound {
        BindingNode::NewRegion(r) => scopes.enter_place(*r),
        BindingNode::NewPlace(l, place) => {
            scopes.new_place(*l)?;
            location(known, scopes, *place)?;
            scopes.enter_place(*l)
        }
        BindingNode::Let(side) => {
            scopes.bound(side.name)?;
            behind(known, scopes, below, side)?;
            scopes.enter(side.name)?;
            Ok(())
        }
        BindingNode::Par(left, place, right) => sides(known, scopes, below, left, *place, right),
        BindingNode::Operation {
            name,
            ty,
            left,
            operator: _,
            right,
        } => {
            scopes.bound(*name)?;
            known.type_named(*ty)?;
            scopes.operand(*left)?;
            scopes.operand(*right)?;
            scopes.enter(*name)?;
            Ok(())
        }
        BindingNode::Reach(y, way) => scopes.reached(*y, *way),
    }
}

/// The names of an arm: its constructor, its variables, its term.
#[cycle(names)]
fn arm(known: &Known, scopes: &mut Scopes, below: LineId, first: &LineArm) -> Result<(), TypeFault>
    requires arm { first.now.line.0 < below.0 }
    requires below { below.0 < length known.now.lines }
    ensures read { Gives (λ _. scopes.new.counts) result (arm_rule (declared_of known.now) scopes.old.names scopes.old.counts first.now.constructor first.now.variables.items (tree_of known.now.lines first.now.line.0)) }
    ensures kept { OnOk result (scopes.new.names ≡ scopes.old.names) }
{
    let outside = scopes.depth();
    known.constructor_of(first.constructor, first.variables.len())?;
    scopes.bound_all(&first.variables)?;
    line(known, scopes, first.line)?;
    scopes.leave(outside)?;
    Ok(())
}

/// The names of arms, each whole.
#[cycle(names)]
fn arms(
    known: &Known,
    scopes: &mut Scopes,
    below: LineId,
    arms: &[LineArm],
) -> Result<(), TypeFault>
    requires arms { ArmsBelow arms.now below.0 }
    requires below { below.0 < length known.now.lines }
    ensures read { Gives (λ _. scopes.new.counts) result (rule.check_arms (declared_of known.now) (arms_text (tree_of known.now.lines) arms.now) scopes.old.names scopes.old.counts) }
    ensures kept { OnOk result (scopes.new.names ≡ scopes.old.names) }
{
    let mut rest = arms;
    'arms: while let [first, after @ ..] = rest {
        arm(known, scopes, below, first)?;
        rest = after;
    }
    Ok(())
}

/// Parameters come into scope.
fn enter_all(scopes: &mut Scopes, parameters: &[Parameter]) -> Result<(), Memory>
    ensures names { OnOk result (scopes.new.names ≡ record { variables = rule.with_names parameters.now scopes.old.names.variables; places = scopes.old.names.places }) }
    ensures counts { scopes.new.counts ≡ scopes.old.counts }
{
    let mut rest = parameters;
    'parameters: while let [parameter, after @ ..] = rest {
        scopes.enter(parameter.name)?;
        rest = after;
    }
    Ok(())
}

/// The names of a body behind its head.
pub fn body(
    alloc: Global,
    known: &Known,
    parameters: &[Parameter],
    place: Option<Mark>,
    id: LineId,
) -> Result<(), TypeFault>
    requires id { id.0 < length known.now.lines }
    requires few { length parameters.now ≤ 200 }
    ensures { Gives (λ _. tt {0}) result (body_rule (declared_of known.now) parameters.now place (tree_of known.now.lines id.0)) }
{
    let mut scopes = Scopes::new(alloc, parameters.len() as u32);
    enter_all(&mut scopes, parameters)?;
    if let Some(mark) = place {
        scopes.enter_place(mark.name)?;
    }
    line(known, &mut scopes, id)
}

/// The names of bodies, in the order of the text.
pub fn bodies(alloc: Global, known: &Known, functions: &[FunctionLines]) -> Result<(), TypeFault>
    requires inside { AllByRecursion (IsFunctionIn (length known.now.lines)) functions.now }
    requires few { AllByRecursion HasFew functions.now }
    ensures { Gives (λ _. tt {0}) result (rule.check_bodies (declared_of known.now) (map (function_text (tree_of known.now.lines)) functions.now)) }
{
    let mut rest = functions;
    'functions: while let [function, after @ ..] = rest {
        body(
            alloc,
            known,
            &function.parameters,
            function.place,
            function.body,
        )?;
        rest = after;
    }
    Ok(())
}

//! Which fields of an arm ends reach, and where in its line.

ghost use Rattle.std.specs.Prelude.{◌≡◌, ◌<◌, ◌≤◌, ◌∷◌, ◌++◌, [], take, length, map, List, IfOk, OnOk};
ghost use Rattle.std.specs.List.{AllByRecursion};
ghost use Rattle.gib_core.specs.{declared.atom.Variable.{Variable as Field}, Tree.{prepend}};
ghost use Rattle.gib_core.specs.Arena.{IsBindingBelow, IsBranchBelow, IsPartBelow, IsEnd, IsLine, term_in, term_of, side_from, bind_from, binds_from, parts_from, branches_from};
ghost use Rattle.gib_core.specs.Reaching.{has_variable, uses as uses_in, bind_uses, side_uses, parts_use, branches_use};
ghost use Rattle.gib_access.specs.Planned.{first_use as first_in, any_tells, planned_from, others_from, behind_first, IsPlan};

use crate::source::Source;
use gib_base::Memory;
use gib_core::ended::is_variable;
use gib_core::known::is_telling;
use gib_core::{AccessMode, Atom, Binding, BoundSide, Branch, Node, TermId, Terms, Variable};
use std::alloc::Global;

/// A field that a line reaches by an end: the field directly before it, and the number of bindings before the first term that
/// uses it.
#[derive(Clone, Copy)]
pub struct Planned {
    pub field: Variable,
    pub before: Variable,
    pub place: usize,
}

/// The fields of an arm behind the first packed one: those that ends reach, and the others.
#[derive(Drop)]
pub struct Plan {
    pub ends: Vec<Planned>,
    pub others: Vec<Variable>,
}

/// Whether one of the atoms is the variable.
fn is_among(x: Variable, atoms: &[Atom]) -> bool
    ensures { result ≡ has_variable x atoms.now }
{
    let mut i = 0;
    'atoms: while i < atoms.len() {
        if is_variable(x, atoms[i]) {
            return true;
        }
        i += 1;
    }
    false
}

/// Whether a term uses a variable. This recurses as deep as terms are nested in bindings and branches, and not along a line.
#[cycle(uses)]
fn uses(terms: &Terms, id: TermId, x: Variable) -> bool
    requires { id.0 < length terms.now }
    ensures { result ≡ uses_in (term_of terms.now id.0) x }
{
    let mut last = id;
    let mut node = terms.node(id);
    'line: while let Node::Then(binding, rest) = node {
        if binding_uses(terms, last, *binding, x) {
            return true;
        }
        last = *rest;
        node = terms.node(last);
    }
    end_uses(terms, last, x)
}

/// The end of a line.
#[cycle(uses)]
fn end_uses(terms: &Terms, id: TermId, x: Variable) -> bool
    requires inside { id.0 < length terms.now }
    requires end { IsEnd (term_of terms.now id.0) }
    ensures { result ≡ uses_in (term_of terms.now id.0) x }
{
    match terms.node(id) {
        Node::Then(_, _) => unreachable!(),
        Node::Write {
            scalars,
            packed,
            ..
        } => is_among(x, scalars) || is_among(x, packed),
        Node::Point(atom) => is_variable(x, *atom),
        Node::Call(_, arguments) => is_among(x, arguments),
        Node::Give(atom) => is_variable(x, *atom),
        Node::Case { subject, branches } => {
            is_variable(x, *subject) || branches_use_it(terms, id, branches, x)
        }
        Node::If {
            condition,
            then_part,
            else_part,
        } => {
            is_variable(x, *condition) || (uses(terms, *then_part, x) || uses(terms, *else_part, x))
        }
        Node::Tuple { scalars, parts, .. } => {
            is_among(x, scalars) || parts_use_it(terms, id, parts, x)
        }
    }
}

/// A side, whose term stands below a number.
#[cycle(uses)]
fn side_uses_it(terms: &Terms, side: BoundSide, x: Variable) -> bool
    requires { (term_in side).0 < length terms.now }
    ensures { result ≡ side_uses (side_from (term_of terms.now) side) x }
{
    match side {
        BoundSide::One(bound) => uses(terms, bound.term, x),
        BoundSide::Several(bound) => uses(terms, bound.term, x),
    }
}

/// A binding of the term of a number, whose terms stand below it.
#[cycle(uses)]
fn binding_uses(terms: &Terms, parent: TermId, binding: Binding, x: Variable) -> bool
    requires inside { parent.0 < length terms.now }
    requires below { IsBindingBelow parent.0 binding }
    ensures { result ≡ bind_uses (bind_from (term_of terms.now) binding) x }
{
    match binding {
        Binding::Past { .. } => false,
        Binding::One(side) => side_uses_it(terms, side, x),
        Binding::Par { left, right, .. } => {
            side_uses_it(terms, left, x) || side_uses_it(terms, right, x)
        }
        Binding::Prim { left, right, .. } => is_variable(x, left) || is_variable(x, right),
        Binding::Reach { .. } => false,
    }
}

/// The branches of the case of a number, whose terms stand below it.
#[cycle(uses)]
fn branches_use_it(terms: &Terms, parent: TermId, branches: &[Branch], x: Variable) -> bool
    requires inside { parent.0 < length terms.now }
    requires below { AllByRecursion (IsBranchBelow parent.0) branches.now }
    ensures { result ≡ branches_use (branches_from (term_of terms.now) branches.now) x }
{
    let mut i = 0;
    'branches: while i < branches.len() {
        if uses(terms, branches[i].term, x) {
            return true;
        }
        i += 1;
    }
    false
}

/// The parts of the tuple of a number, which stand below it.
#[cycle(uses)]
fn parts_use_it(terms: &Terms, parent: TermId, parts: &[TermId], x: Variable) -> bool
    requires inside { parent.0 < length terms.now }
    requires below { AllByRecursion (IsPartBelow parent.0) parts.now }
    ensures { result ≡ parts_use (parts_from (term_of terms.now) parts.now) x }
{
    let mut i = 0;
    'parts: while i < parts.len() {
        if uses(terms, parts[i], x) {
            return true;
        }
        i += 1;
    }
    false
}

/// How many bindings of a line stand before the first that uses a variable.
fn first_use(terms: &Terms, parent: TermId, bindings: &[Binding], x: Variable) -> usize
    requires inside { parent.0 < length terms.now }
    requires below { AllByRecursion (IsBindingBelow parent.0) bindings.now }
    ensures value { result ≡ first_in (binds_from (term_of terms.now) bindings.now) x }
    ensures within { result ≤ length bindings.now }
{
    let mut i = 0;
    'bindings: while i < bindings.len() {
        if binding_uses(terms, parent, bindings[i], x) {
            return i;
        }
        i += 1;
    }
    i
}

/// Whether one of the first bindings of a line tells the end of a variable.
fn is_told(source: &Source, parent: TermId, bindings: &[Binding], many: usize, z: Variable) -> bool
    requires inside { parent.0 < length source.now.terms.now }
    requires below { AllByRecursion (IsBindingBelow parent.0) bindings.now }
    requires many { many ≤ length bindings.now }
    ensures { result ≡ any_tells source.now.ended.now (take many (binds_from (term_of source.now.terms.now) bindings.now)) z }
{
    let mut i = 0;
    'bindings: while i < many {
        if is_telling(source.terms, source.ended, parent, bindings[i], z) {
            return true;
        }
        i += 1;
    }
    false
}

/// A line of the terms, by its bindings and the number of its end.
#[derive(Clone, Copy)]
pub struct Line<'a> {
    pub id: TermId,
    pub bindings: &'a [Binding],
    pub last: TermId,
}

/// Plans a field. It goes to the ends where it is used, and before its first use the end of the field directly before it is
/// told; where none is told, it goes to the others.
fn plan_field(
    source: &Source,
    line: &Line,
    before: Variable,
    field: Variable,
    plan: &mut Plan,
) -> Result<(), Memory>
    requires inside { line.now.id.0 < length source.now.terms.now }
    requires line { IsLine source.now.terms.now line.now.id.0 line.now.bindings.now line.now.last.0 }
    ensures ends { OnOk result ((ys : List Field) → plan.new.ends.items ++ planned_from source.now.ended.now (binds_from (term_of source.now.terms.now) line.now.bindings.now) (term_of source.now.terms.now line.now.last.0) field ys ≡ plan.old.ends.items ++ planned_from source.now.ended.now (binds_from (term_of source.now.terms.now) line.now.bindings.now) (term_of source.now.terms.now line.now.last.0) before (field ∷ ys)) }
    ensures others { OnOk result ((ys : List Field) → plan.new.others.items ++ others_from source.now.ended.now (binds_from (term_of source.now.terms.now) line.now.bindings.now) field ys ≡ plan.old.others.items ++ others_from source.now.ended.now (binds_from (term_of source.now.terms.now) line.now.bindings.now) before (field ∷ ys)) }
{
    let place = first_use(source.terms, line.id, line.bindings, field);
    if !is_told(source, line.id, line.bindings, place, before) {
        plan.others.push(field)?;
        return Ok(());
    }
    if line_uses(source, line, place, field) {
        plan.ends.push(Planned {
            field,
            before,
            place,
        })?;
    }
    Ok(())
}

/// Whether a line uses a variable, by the number of bindings before the first that does.
fn line_uses(source: &Source, line: &Line, place: usize, x: Variable) -> bool
    requires inside { line.now.id.0 < length source.now.terms.now }
    requires line { IsLine source.now.terms.now line.now.id.0 line.now.bindings.now line.now.last.0 }
    requires place { place ≡ first_in (binds_from (term_of source.now.terms.now) line.now.bindings.now) x }
    requires within { place ≤ length line.now.bindings.now }
    ensures { result ≡ uses_in (prepend (binds_from (term_of source.now.terms.now) line.now.bindings.now) (term_of source.now.terms.now line.now.last.0)) x }
{
    if place < line.bindings.len() {
        return true;
    }
    uses(source.terms, line.last, x)
}

/// Plans the fields behind a first packed one, in their order.
fn plan_ends(
    source: &Source,
    line: &Line,
    first: Variable,
    fields: &[Variable],
) -> Result<Plan, Memory>
    requires inside { line.now.id.0 < length source.now.terms.now }
    requires line { IsLine source.now.terms.now line.now.id.0 line.now.bindings.now line.now.last.0 }
    ensures ends { IfOk result (λ plan. plan.ends.items ≡ planned_from source.now.ended.now (binds_from (term_of source.now.terms.now) line.now.bindings.now) (term_of source.now.terms.now line.now.last.0) first fields.now) }
    ensures others { IfOk result (λ plan. plan.others.items ≡ others_from source.now.ended.now (binds_from (term_of source.now.terms.now) line.now.bindings.now) first fields.now) }
{
    let mut plan = Plan {
        ends: Vec::new(source.alloc),
        others: Vec::new(source.alloc),
    };
    let mut before = first;
    let mut left = fields;
    'fields: while let [field, after @ ..] = left {
        plan_field(source, line, before, *field, &mut plan)?;
        before = *field;
        left = after;
    }
    Ok(plan)
}

/// All go by what the mode says.
fn plan_others(alloc: Global, packed: &[Variable]) -> Result<Plan, Memory>
    ensures ends { IfOk result (λ plan. plan.ends.items ≡ []) }
    ensures others { IfOk result (λ plan. plan.others.items ≡ behind_first packed.now) }
{
    let others = match packed {
        [] => Vec::new(alloc),
        [_, fields @ ..] => Vec::from_slice(alloc, fields)?,
    };
    Ok(Plan {
        ends: Vec::new(alloc),
        others,
    })
}

/// The plan of an arm's line, which has these packed fields.
pub fn plan_line(source: &Source, line: &Line, packed: &[Variable]) -> Result<Plan, Memory>
    requires inside { line.now.id.0 < length source.now.terms.now }
    requires line { IsLine source.now.terms.now line.now.id.0 line.now.bindings.now line.now.last.0 }
    ensures { IfOk result (λ plan. IsPlan source.now.mode source.now.ended.now (binds_from (term_of source.now.terms.now) line.now.bindings.now) (term_of source.now.terms.now line.now.last.0) packed.now plan.ends.items plan.others.items) }
{
    match (source.mode, packed) {
        (AccessMode::Ends, [first, fields @ ..]) => {
            let plan = plan_ends(source, line, *first, fields)?;
            Ok(plan)
        }
        _ => plan_others(source.alloc, packed),
    }
}

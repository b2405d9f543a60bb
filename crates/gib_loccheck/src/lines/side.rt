//! `here`, `region`, `scalar`: a variable is bound to a term.

ghost use Rattle.std.specs.Prelude.{◌≡◌, length, ◌<◌, OnOk};
ghost use Rattle.gib_types.specs.Table.{Table};
ghost use Rattle.gib_core.specs.{Parts.{core_of}, Met.{SideLine, call_too}, Rules.{least, rules, side_rules}, Arena.{term_of}};
ghost use Rattle.gib_loccheck.specs.{Views.{setting_of, in_scope, before_of, calls_of, numbered}, Judging.{one, Checks, Tells}};

use crate::fault::LocFault;
use crate::index::indexed::IndexedCore;
use crate::lines::{bind, judge};
use crate::state::{Told, Walk};
use crate::target::Target;
use gib_base::Memory;
use gib_core::{BoundTerm, Kind, Node, Rule, TermId, Variable};
use gib_types::Ty;

/// The rule that a field of the open head breaks first, or none.
fn here_rule(
    core: &IndexedCore,
    walk: &Walk,
    target: &Target,
    variable: Variable,
    ty: Ty,
) -> Option<Rule>
    ensures { numbered result ≡ least (rules (core_of core.now) (before_of walk.now) (setting_of walk.now target.now) (SideLine Kind.Here variable ty)) }
{
    if !target.has_room(core.types()) {
        return Some(Rule::Room);
    }
    if walk.bound.has(variable) {
        return Some(Rule::Scope);
    }
    if !ty.is(target.field_due(core.types())) {
        return Some(Rule::Types);
    }
    None
}

/// The rule that a packed value in a region of its own breaks first, or none.
fn region_rule(walk: &Walk, variable: Variable, ty: Ty) -> Option<Rule>
    ensures { (table : Table) → numbered result ≡ least (side_rules table (before_of walk.now) (in_scope walk.now) Kind.Region variable ty) }
{
    if ty.is_scalar() {
        return Some(Rule::Region);
    }
    if walk.bound.has(variable) {
        return Some(Rule::Scope);
    }
    None
}

/// The rule that a scalar breaks first, or none.
fn scalar_rule(walk: &Walk, variable: Variable, ty: Ty) -> Option<Rule>
    ensures { (table : Table) → numbered result ≡ least (side_rules table (before_of walk.now) (in_scope walk.now) Kind.Scalar variable ty) }
{
    if walk.bound.has(variable) {
        return Some(Rule::Scope);
    }
    if !ty.is_scalar() {
        return Some(Rule::Types);
    }
    None
}

/// The rule that a variable that is bound to a term breaks first, or none.
fn side_rule(core: &IndexedCore, walk: &Walk, target: &Target, bound: BoundTerm) -> Option<Rule>
    ensures { numbered result ≡ least (rules (core_of core.now) (before_of walk.now) (setting_of walk.now target.now) (SideLine bound.kind bound.variable bound.ty)) }
{
    match bound.kind {
        Kind::Here => here_rule(core, walk, target, bound.variable, bound.ty),
        Kind::Region => region_rule(walk, bound.variable, bound.ty),
        Kind::Scalar => scalar_rule(walk, bound.variable, bound.ty),
    }
}

/// Judges a variable that is bound to a term.
pub fn judge_side(
    core: &IndexedCore,
    walk: &mut Walk,
    target: &Target,
    bound: BoundTerm,
) -> Result<(), LocFault>
    ensures { Checks (core_of core.now) walk.old walk.new (one (setting_of walk.old target.now) (SideLine bound.kind bound.variable bound.ty)) result }
{
    let rule = side_rule(core, walk, target, bound);
    judge(walk, rule)?;
    bind(walk, bound.variable, bound.ty)
}

/// A term to which a variable was bound stands before, where it is a call.
pub fn tell(core: &IndexedCore, walk: &mut Walk, id: TermId) -> Result<(), Memory>
    requires { id.0 < length core.now.terms }
    ensures { OnOk result (Tells walk.old walk.new (call_too (term_of core.now.terms id.0) (calls_of walk.old))) }
{
    match core.terms().node(id) {
        Node::Call(name, arguments) => {
            let arguments = Vec::from_slice(walk.alloc, arguments)?;
            walk.calls.push(Told {
                name: *name,
                arguments,
            })?;
        }
        Node::Then(_, _) => {}
        Node::Write { .. } => {}
        Node::Point(_) => {}
        Node::Give(_) => {}
        Node::Case { .. } => {}
        Node::If { .. } => {}
        Node::Tuple { .. } => {}
    }
    Ok(())
}

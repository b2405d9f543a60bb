//! The lines, a file for each kind: the rule that such a line breaks first, the line judged, and what stands behind it.
//! What all kinds share stands here.

ghost use Rattle.std.specs.Prelude.{◌≡◌, ◌+◌, None, IfOk, IfErr, [], true, take, reverse, OnOk};
ghost use Rattle.gib_core.specs.Rules.{or_later, bind_fields};
ghost use Rattle.gib_loccheck.specs.{Views.{numbered}, Judging.{Says, BindsToo, Stays, Enters, EntersAll}};

pub(crate) mod arm;
pub(crate) mod atom;
pub(crate) mod bound;
pub(crate) mod call;
pub(crate) mod case;
pub(crate) mod par;
pub(crate) mod part;
pub(crate) mod past;
pub(crate) mod prim;
pub(crate) mod reach;
pub(crate) mod several;
pub(crate) mod side;
pub(crate) mod tuple;
pub(crate) mod write;

use crate::fault::LocFault;
use crate::index::bound::BoundVariables;
use crate::state::{Told, Walk};
use crate::target::Target;
use gib_base::Memory;
use gib_core::{Bound, Known, Rule, Variable};
use gib_types::{Ty, first_type, further_types};
use std::mem::replace;

/// One more line, with the rule that it breaks first.
pub fn judge(walk: &mut Walk, rule: Option<Rule>) -> Result<(), LocFault>
    ensures none { IfOk result (λ _. numbered rule ≡ None) }
    ensures new { IfOk result (λ _. walk.new ≡ record walk.old { place = walk.old.place + 1 }) }
    ensures broken { IfErr result (λ e. Says e (or_later (numbered rule) walk.old.place None)) }
{
    if let Some(rule) = rule {
        return Err(LocFault::Rule(rule.number(), walk.place));
    }
    if walk.place == u64::MAX {
        return Err(LocFault::Memory);
    }
    walk.place += 1;
    Ok(())
}

/// A variable was bound.
pub fn bind(walk: &mut Walk, variable: Variable, ty: Ty) -> Result<(), LocFault>
    ensures new { IfOk result (λ _. BindsToo walk.old walk.new variable ty) }
    ensures memory { IfErr result (λ e. e ≡ LocFault.Memory) }
{
    walk.bound.push(Bound { variable, ty })?;
    Ok(())
}

/// Variables were bound with their types: the fields of an arm, or those of parts.
pub fn bind_variables(
    bound: &mut BoundVariables,
    variables: &[Variable],
    types: &[Ty],
) -> Result<(), Memory>
    ensures { OnOk result (reverse bound.new.items ≡ bind_fields variables.now types.now (reverse bound.old.items)) }
{
    let mut types_left = types;
    let mut left = variables;
    'variables: while let [variable, after @ ..] = left {
        bound.push(Bound {
            variable: *variable,
            ty: first_type(types_left),
        })?;
        types_left = further_types(types_left);
        left = after;
    }
    Ok(())
}

/// A variable that is reached comes into scope.
pub fn enter(walk: &mut Walk, variable: Variable) -> Result<(), Memory>
    ensures { OnOk result (Enters walk.old walk.new (record { variable = variable; reached = true; behind = None })) }
{
    walk.scope.push(Known {
        variable,
        reached: true,
        behind: None,
    })?;
    Ok(())
}

/// Variables that are reached come into scope.
pub fn enter_all(walk: &mut Walk, variables: &[Variable]) -> Result<(), Memory>
    ensures { OnOk result (EntersAll walk.old walk.new variables.now) }
{
    let mut left = variables;
    'variables: while let [variable, after @ ..] = left {
        enter(walk, *variable)?;
        left = after;
    }
    Ok(())
}

/// The variables leave that came into scope since it had so many.
pub fn leave(walk: &mut Walk, outer: usize) -> Result<(), Memory>
    ensures scope { OnOk result (walk.new.scope.items ≡ take outer walk.old.scope.items) }
    ensures others { OnOk result (walk.new.others.items ≡ walk.old.others.items) }
    ensures calls { OnOk result (walk.new.calls.items ≡ walk.old.calls.items) }
    ensures stays { OnOk result (Stays walk.old walk.new) }
{
    walk.scope.truncate(outer)
}

/// A line begins, with no call before it. The calls before in the line around it.
pub fn begin_line(walk: &mut Walk) -> Vec<Told>
    ensures result { result.items ≡ walk.old.calls.items }
    ensures calls { walk.new.calls.items ≡ [] }
    ensures scope { walk.new.scope.items ≡ walk.old.scope.items }
    ensures others { walk.new.others.items ≡ walk.old.others.items }
    ensures stays { Stays walk.old walk.new }
{
    let none = Vec::new(walk.alloc);
    replace(&mut walk.calls, none)
}

/// A line ends: the variables leave that came into scope in it, and the calls of the line around it stand before again.
pub fn leave_line(walk: &mut Walk, outer: usize, calls: Vec<Told>) -> Result<(), Memory>
    ensures scope { OnOk result (walk.new.scope.items ≡ take outer walk.old.scope.items) }
    ensures others { OnOk result (walk.new.others.items ≡ walk.old.others.items) }
    ensures calls { OnOk result (walk.new.calls.items ≡ calls.items) }
    ensures stays { OnOk result (Stays walk.old walk.new) }
{
    leave(walk, outer)?;
    walk.calls = calls;
    Ok(())
}

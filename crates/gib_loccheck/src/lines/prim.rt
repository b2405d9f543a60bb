//! An operation on two numbers.

ghost use Rattle.std.specs.Prelude.{◌≡◌};
ghost use Rattle.gib_core.specs.{Rules.{least}, Tree.{CoreTree, Prim}, Met.{PrimLine}};
ghost use Rattle.gib_loccheck.specs.{Views.{setting_of, before_of, prim_rules, numbered}, Judging.{one, Checks, ChecksBinding}};

use crate::fault::LocFault;
use crate::lines::{bind, enter, judge};
use crate::state::Walk;
use crate::target::Target;
use gib_core::{Atom, Rule, Variable};
use gib_types::{Operator, Ty};

/// The rule that an operation breaks first, or none.
#[tactic(auto, using(crate::proofs::Scoping::other_same, crate::proofs::Scoping::usable_same))]
fn prim_rule(
    walk: &Walk,
    target: &Target,
    variable: Variable,
    left: Atom,
    right: Atom,
) -> Option<Rule>
    ensures { numbered result ≡ least (prim_rules (before_of walk.now) (setting_of walk.now target.now) variable left right) }
{
    if walk.is_other(left) || walk.is_other(right) {
        return Some(Rule::Sides);
    }
    if walk.bound.has(variable) {
        return Some(Rule::Scope);
    }
    if !(walk.is_usable(left) && walk.is_usable(right)) {
        return Some(Rule::Scope);
    }
    if !(walk.has_type(left, Ty::Whole) && walk.has_type(right, Ty::Whole)) {
        return Some(Rule::Types);
    }
    None
}

/// Judges an operation, whose variable is bound.
fn judge_prim(
    walk: &mut Walk,
    target: &Target,
    variable: Variable,
    operator: Operator,
    left: Atom,
    right: Atom,
) -> Result<(), LocFault>
    ensures { (core : CoreTree) → Checks core walk.old walk.new (one (setting_of walk.old target.now) (PrimLine variable operator left right)) result }
{
    let rule = prim_rule(walk, target, variable, left, right);
    judge(walk, rule)?;
    bind(walk, variable, operator.result())
}

/// Judges an operation, whose variable comes into scope. What is due behind it.
pub fn behind_operation(
    walk: &mut Walk,
    target: &Target,
    variable: Variable,
    operator: Operator,
    left: Atom,
    right: Atom,
) -> Result<Target, LocFault>
    ensures { (core : CoreTree) → ChecksBinding core walk.old walk.new (setting_of walk.old target.now) (Prim variable operator left right) result }
{
    judge_prim(walk, target, variable, operator, left, right)?;
    enter(walk, variable)?;
    let next = target.without_call()?;
    Ok(next)
}

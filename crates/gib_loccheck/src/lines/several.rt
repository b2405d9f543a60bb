//! `several`: variables are bound to the parts of a term.

ghost use Rattle.std.specs.Prelude.{◌≡◌, ℕ, IfOk};
ghost use Rattle.gib_core.specs.{PartTypes.{types_in}, Tree.{CoreTree, Term, variables_from}, Arena.{side_from}, Met.{SeveralLine}};
ghost use Rattle.gib_core.specs.Rules.{least, are_several as several_are};
ghost use Rattle.gib_core.specs.declared.node.BoundSide.TheVariants as side_of;
ghost use Rattle.gib_loccheck.specs.{declared.target.Target.{Target as Goal}, Views.{setting_of, before_of, several_rules, numbered}};
ghost use Rattle.gib_loccheck.specs.Judging.{one, Checks, ChecksOpening};

use crate::atoms::any_bound;
use crate::fault::LocFault;
use crate::lines::{bind_variables, judge};
use crate::state::Walk;
use crate::target::Target;
use gib_base::Memory;
use gib_core::{BoundParts, MOST_PARTS, Rule, Variable};
use gib_types::Ty;
use std::alloc::{AllocError, Global};

/// The variables of parts, in their order.
pub fn variables_of(alloc: Global, parts: &BoundParts) -> Result<Vec<Variable>, Memory>
    ensures { IfOk result (λ v. v.items ≡ variables_from parts.now.first.0 (types_in parts.now.types)) }
{
    let mut variables = Vec::new(alloc);
    let mut number = u64::from(parts.first.0);
    let types = parts.types.unpacked();
    let mut left = types.as_slice();
    'variables: while let [_, after @ ..] = left {
        let Ok(variable) = u32::try_from(number) else {
            return Err(AllocError);
        };
        variables.push(Variable(variable))?;
        number += 1;
        left = after;
    }
    Ok(variables)
}

/// Whether variables of so many types may be bound at once.
#[tactic(auto, using(crate::proofs::Parting::many_several, crate::proofs::Parting::few_several))]
fn are_several(first: Variable, types: &[Ty]) -> bool
    ensures { result ≡ several_are (variables_from first.0 types.now) types.now }
{
    1 < types.len() && types.len() <= MOST_PARTS
}

/// The rule that several variables break first, or none.
fn several_rule(
    walk: &Walk,
    parts: &BoundParts,
    variables: &[Variable],
) -> Result<Option<Rule>, Memory>
    requires { variables.now ≡ variables_from parts.now.first.0 (types_in parts.now.types) }
    ensures { IfOk result (λ rule. numbered rule ≡ least (several_rules (before_of walk.now) variables.now (types_in parts.now.types))) }
{
    if any_bound(walk, variables)? {
        return Ok(Some(Rule::Scope));
    }
    let types = parts.types.unpacked();
    if !are_several(parts.first, types.as_slice()) {
        return Ok(Some(Rule::Several));
    }
    Ok(None)
}

/// Judges several variables, which are bound.
fn judge_several(walk: &mut Walk, parts: &BoundParts) -> Result<(), LocFault>
    ensures { (core : CoreTree) (target : Goal) → Checks core walk.old walk.new (one (setting_of walk.old target) (SeveralLine (variables_from parts.now.first.0 (types_in parts.now.types)) (types_in parts.now.types))) result }
{
    let variables = variables_of(walk.alloc, parts)?;
    let rule = several_rule(walk, parts, &variables)?;
    judge(walk, rule)?;
    let types = parts.types.unpacked();
    bind_variables(&mut walk.bound, &variables, types.as_slice())?;
    Ok(())
}

/// Judges several variables, which are bound; what is due at their term.
pub fn open_several(walk: &mut Walk, parts: &BoundParts) -> Result<Target, LocFault>
    ensures { (core : CoreTree) (target : Goal) (f : ℕ → Term) → ChecksOpening core walk.old walk.new (setting_of walk.old target) (side_from f (side_of.Several parts.now)) result }
{
    judge_several(walk, parts)?;
    Ok(Target::of_several(parts.types))
}

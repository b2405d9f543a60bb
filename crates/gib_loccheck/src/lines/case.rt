//! `case`: its subject, and the variables of its arms, which all count as bound before the first arm's term.

ghost use Rattle.std.specs.Prelude.{◌≡◌, ◌==◌, ◌&&◌, [], length, reverse, IfOk, OnOk, IfErr};
ghost use Rattle.gib_types.specs.Table.{fields_at, constructors_of as all_of};
ghost use Rattle.gib_core.specs.{Parts.{core_of}, Met.{CaseLine}, Rules.{least, rules, cover, are_arms as arms_are, arm_variables, bind_arms as arms_bound}};
ghost use Rattle.gib_loccheck.specs.{Views.{setting_of, before_of, arms_in, numbered}, Judging.{one, Checks, CasesToo}};

use crate::atoms::any_bound;
use crate::fault::LocFault;
use crate::index::bound::BoundVariables;
use crate::index::indexed::IndexedCore;
use crate::lines::{bind_variables, judge};
use crate::state::Walk;
use crate::target::Target;
use gib_base::Memory;
use gib_core::{Atom, Branch, Rule, Variable};
use gib_types::{ConId, Ty, TyId, TypeTable};
use std::alloc::Global;

/// Whether a branch is one of this constructor, with a variable for each field.
fn is_arm(types: &TypeTable, constructor: ConId, branch: &Branch) -> bool
    ensures { result ≡ (constructor.0 == branch.now.constructor.0 && length (fields_at types.now constructor.0) == length branch.now.variables.items) }
{
    constructor.0 == branch.constructor.0
        && types.fields(constructor).len() == branch.variables.len()
}

/// Whether branches are those of a type, in its order, each with a variable for each field.
fn are_arms(types: &TypeTable, ty: TyId, branches: &[Branch]) -> bool
    ensures { result ≡ arms_are types.now (all_of types.now ty.0) (arms_in branches.now) }
{
    let (first, count) = types.constructors_of(ty);
    let mut next = first;
    let mut more = count;
    let mut left = branches;
    'branches: while let [branch, after @ ..] = left {
        if more == 0 {
            return false;
        }
        if !is_arm(types, ConId(next), branch) {
            return false;
        }
        next += 1;
        more -= 1;
        left = after;
    }
    more == 0
}

/// Whether branches are those of a packed type. A variable that nothing before bound has no type, so it is not
/// packed.
fn covers(types: &TypeTable, ty: Option<Ty>, branches: &[Branch]) -> bool
    ensures { result ≡ cover types.now ty (arms_in branches.now) }
{
    match ty {
        None => false,
        Some(ty) => match ty {
            Ty::Whole => false,
            Ty::Truth => false,
            Ty::Tree(id) => are_arms(types, id, branches),
        },
    }
}

/// The variables of all branches.
fn variables_of(alloc: Global, branches: &[Branch]) -> Result<Vec<Variable>, Memory>
    ensures { IfOk result (λ v. v.items ≡ arm_variables (arms_in branches.now)) }
{
    let mut variables = Vec::new(alloc);
    let mut left = branches;
    'branches: while let [branch, after @ ..] = left {
        variables.extend_from_slice(&branch.variables)?;
        left = after;
    }
    Ok(variables)
}

/// The rule that a case breaks first, or none.
#[tactic(auto, using(crate::proofs::Scoping::other_same, crate::proofs::Scoping::usable_same))]
fn case_rule(
    core: &IndexedCore,
    walk: &Walk,
    target: &Target,
    subject: Atom,
    branches: &[Branch],
) -> Result<Option<Rule>, Memory>
    ensures { IfOk result (λ rule. numbered rule ≡ least (rules (core_of core.now) (before_of walk.now) (setting_of walk.now target.now) (CaseLine subject (arms_in branches.now)))) }
{
    if walk.is_other(subject) {
        return Ok(Some(Rule::Sides));
    }
    if !covers(core.types(), walk.type_of(subject), branches) {
        return Ok(Some(Rule::Case));
    }
    if !walk.is_usable(subject) {
        return Ok(Some(Rule::Scope));
    }
    let variables = variables_of(walk.alloc, branches)?;
    if any_bound(walk, &variables)? {
        return Ok(Some(Rule::Scope));
    }
    Ok(None)
}

/// The fields of all branches were bound.
fn bind_arms(
    types: &TypeTable,
    bound: &mut BoundVariables,
    branches: &[Branch],
) -> Result<(), Memory>
    ensures { OnOk result (reverse bound.new.items ≡ arms_bound types.now (arms_in branches.now) (reverse bound.old.items)) }
{
    let mut left = branches;
    'branches: while let [branch, after @ ..] = left {
        bind_variables(bound, &branch.variables, types.fields(branch.constructor))?;
        left = after;
    }
    Ok(())
}

/// A `case` was on an atom.
fn case_on(walk: &mut Walk, subject: Atom) -> Result<(), LocFault>
    ensures new { IfOk result (λ _. CasesToo walk.old walk.new subject) }
    ensures memory { IfErr result (λ e. e ≡ LocFault.Memory) }
{
    match subject {
        Atom::Variable(x) => walk.cased.push(x)?,
        Atom::Whole(_) => {}
        Atom::Truth(_) => {}
    }
    Ok(())
}

/// Judges a case, by which the variables of its arms are bound.
pub fn judge_case(
    core: &IndexedCore,
    walk: &mut Walk,
    target: &Target,
    subject: Atom,
    branches: &[Branch],
) -> Result<(), LocFault>
    ensures { Checks (core_of core.now) walk.old walk.new (one (setting_of walk.old target.now) (CaseLine subject (arms_in branches.now))) result }
{
    let rule = case_rule(core, walk, target, subject, branches)?;
    judge(walk, rule)?;
    bind_arms(core.types(), &mut walk.bound, branches)?;
    case_on(walk, subject)
}

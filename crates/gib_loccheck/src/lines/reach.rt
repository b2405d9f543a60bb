//! `reach`: from here on a field of an arm can be used.

ghost use Rattle.std.specs.Prelude.{◌≡◌, ◌&&◌, not, reverse, OnOk};
ghost use Rattle.gib_core.specs.{Parts.{core_of}, Met.{ReachLine, known}};
ghost use Rattle.gib_core.specs.Rules.{least, rules, by_access as accessed, may_reach as reaches, is_reached, is_outside, one_tells, is_among};
ghost use Rattle.gib_core.specs.{Ending.{ended}, Tree.{Reach}};
ghost use Rattle.gib_loccheck.specs.{Views.{setting_of, in_scope, before_of, calls_of, numbered}, Judging.{one, Checks, ChecksBinding, Reaches}};

use crate::fault::LocFault;
use crate::index::indexed::IndexedCore;
use crate::lines::judge;
use crate::state::{Walk, is_listed};
use crate::target::Target;
use gib_base::Memory;
use gib_core::{Access, Atom, Behind, Known, Rule, Variable};

/// Whether a field that stands behind another one can be reached so.
fn by_access(core: &IndexedCore, walk: &Walk, behind: Option<Behind>, access: Access) -> bool
    ensures { result ≡ accessed (core_of core.now) (before_of walk.now) (in_scope walk.now) behind access }
{
    match behind {
        None => false,
        Some(behind) => match access {
            Access::Offset => core.has_offsets(behind.constructor),
            Access::Skip(z) => behind.before.0 == z.0 && ends_known(walk, z),
            Access::End(z) => behind.before.0 == z.0 && is_told(core, walk, z),
        },
    }
}

/// Whether the end of a field is known: it is reached, and no `case` was on it.
fn ends_known(walk: &Walk, field: Variable) -> bool
    ensures { result ≡ (is_reached (known (in_scope walk.now).scope field) && not (is_among (before_of walk.now).cased field)) }
{
    walk.is_usable(Atom::Variable(field)) && !walk.cased.has(field)
}

/// Whether outside each `par` the end of a field that is reached was told before in the line.
fn is_told(core: &IndexedCore, walk: &Walk, field: Variable) -> bool
    ensures { result ≡ (is_reached (known (in_scope walk.now).scope field) && (is_outside (reverse walk.now.others.items) && one_tells (ended (core_of core.now)) (calls_of walk.now) field)) }
{
    walk.is_usable(Atom::Variable(field))
        && (is_outside(&walk.others) && walk.tells(core.ended(), field))
}

/// Whether no par stands around a term.
#[tactic(auto, using(crate::proofs::Telling::outside_none))]
fn is_outside(others: &[Variable]) -> bool
    ensures { result ≡ is_outside (reverse others.now) }
{
    others.is_empty()
}

/// Whether a field that is in scope and not reached can be reached so.
fn may_reach(core: &IndexedCore, walk: &Walk, field: Option<Known>, access: Access) -> bool
    ensures { result ≡ reaches (core_of core.now) (before_of walk.now) (in_scope walk.now) field access }
{
    match field {
        None => false,
        Some(known) => !known.reached && by_access(core, walk, known.behind, access),
    }
}

/// The rule that the reaching of a field breaks first, or none.
fn reach_rule(core: &IndexedCore, walk: &Walk, field: Variable, access: Access) -> Option<Rule>
    ensures { numbered result ≡ least (rules (core_of core.now) (before_of walk.now) (in_scope walk.now) (ReachLine field access)) }
{
    if is_listed(&walk.others, field) {
        return Some(Rule::Sides);
    }
    if !may_reach(core, walk, walk.scope.find(field), access) {
        return Some(Rule::Scope);
    }
    None
}

/// Judges the reaching of a field.
fn judge_reach(
    core: &IndexedCore,
    walk: &mut Walk,
    field: Variable,
    access: Access,
) -> Result<(), LocFault>
    ensures { Checks (core_of core.now) walk.old walk.new (one (in_scope walk.old) (ReachLine field access)) result }
{
    let rule = reach_rule(core, walk, field, access);
    judge(walk, rule)
}

/// A field is reached from here on.
fn enter_field(walk: &mut Walk, field: Variable) -> Result<(), Memory>
    ensures { OnOk result (Reaches walk.old walk.new field) }
{
    if let Some(known) = walk.scope.find(field) {
        walk.scope.push(Known {
            variable: known.variable,
            reached: true,
            behind: known.behind,
        })?;
    }
    Ok(())
}

/// Judges the reaching of a field, which can be used from there on; what is due behind it.
pub fn reach_field(
    core: &IndexedCore,
    walk: &mut Walk,
    target: &Target,
    field: Variable,
    access: Access,
) -> Result<Target, LocFault>
    ensures { ChecksBinding (core_of core.now) walk.old walk.new (setting_of walk.old target.now) (Reach field access) result }
{
    judge_reach(core, walk, field, access)?;
    enter_field(walk, field)?;
    let next = target.without_call()?;
    Ok(next)
}

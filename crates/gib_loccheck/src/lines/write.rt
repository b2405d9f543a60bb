//! `write`: the open head is filled.

ghost use Rattle.std.specs.Prelude.{◌≡◌, ◌==◌, ◌&&◌, length};
ghost use Rattle.gib_core.specs.{Parts.{core_of}, Met.{WriteLine, packed_types}};
ghost use Rattle.gib_core.specs.Rules.{least, rules, may_write as writes, are_scalars as scalars_are, are_variables as variables_are};
ghost use Rattle.gib_loccheck.specs.{Views.{destination_of, setting_of, before_of, numbered}, Judging.{one, Checks}};

use crate::atoms::{all_usable, any_cased, any_other, are_variables, further, have_scalar_types};
use crate::destination::Destination;
use crate::fault::LocFault;
use crate::index::indexed::IndexedCore;
use crate::lines::judge;
use crate::state::Walk;
use crate::table::packed_count;
use crate::target::Target;
use gib_core::{Atom, Rule, Variable};
use gib_types::{ConId, TypeTable};

/// A head that is filled, with the atoms at its fields.
#[derive(Drop)]
pub struct Head<'a> {
    pub variable: Variable,
    pub constructor: ConId,
    pub scalars: &'a [Atom],
    pub packed: &'a [Atom],
}

/// Whether as many fields stand as the open head has, and these atoms name them in their order.
fn is_filled(types: &TypeTable, constructor: ConId, standing: &[Variable], packed: &[Atom]) -> bool
    ensures { result ≡ (length standing.now == length (packed_types types.now constructor) && variables_are standing.now packed.now) }
{
    standing.len() == packed_count(types.fields(constructor)) && are_variables(standing, packed)
}

/// Whether the open head can be filled so.
fn may_write(types: &TypeTable, walk: &Walk, target: &Target, head: &Head<'_>) -> bool
    ensures { result ≡ writes types.now (before_of walk.now) (destination_of target.now.destination) head.now.variable head.now.constructor head.now.packed.now }
{
    match &target.destination {
        Destination::Open {
            head: open,
            constructor,
            standing,
        } => {
            if open.0 != head.variable.0 {
                return false;
            }
            if constructor.0 != head.constructor.0 {
                return false;
            }
            if !is_filled(types, *constructor, standing, head.packed) {
                return false;
            }
            !any_cased(walk, further(standing))
        }
        _ => false,
    }
}

/// Whether these scalars are those of the open head.
fn are_scalars(types: &TypeTable, walk: &Walk, target: &Target, scalars: &[Atom]) -> bool
    ensures { result ≡ scalars_are types.now (before_of walk.now) (destination_of target.now.destination) scalars.now }
{
    match &target.destination {
        Destination::Open { constructor, .. } => {
            have_scalar_types(walk, scalars, types.fields(*constructor))
        }
        _ => true,
    }
}

/// The rule that the filling of a head breaks first, or none.
#[tactic(auto, using(crate::proofs::Scoping::both_other, crate::proofs::Scoping::both_usable))]
fn write_rule(core: &IndexedCore, walk: &Walk, target: &Target, head: &Head<'_>) -> Option<Rule>
    ensures { numbered result ≡ least (rules (core_of core.now) (before_of walk.now) (setting_of walk.now target.now) (WriteLine head.now.variable head.now.constructor head.now.scalars.now head.now.packed.now)) }
{
    if any_other(walk, head.scalars) || any_other(walk, head.packed) {
        return Some(Rule::Sides);
    }
    if !may_write(core.types(), walk, target, head) {
        return Some(Rule::Write);
    }
    if !(all_usable(walk, head.scalars) && all_usable(walk, head.packed)) {
        return Some(Rule::Scope);
    }
    if !are_scalars(core.types(), walk, target, head.scalars) {
        return Some(Rule::Types);
    }
    None
}

/// Judges the filling of a head.
pub fn judge_write(
    core: &IndexedCore,
    walk: &mut Walk,
    target: &Target,
    head: &Head<'_>,
) -> Result<(), LocFault>
    ensures { Checks (core_of core.now) walk.old walk.new (one (setting_of walk.old target.now) (WriteLine head.now.variable head.now.constructor head.now.scalars.now head.now.packed.now)) result }
{
    let rule = write_rule(core, walk, target, head);
    judge(walk, rule)
}

//! `tuple`: several parts.

ghost use Rattle.std.specs.Prelude.{◌≡◌, length};
ghost use Rattle.gib_core.specs.{Parts.{core_of}, PartTypes.{types_in}, Met.{TupleLine}, Rules.{least, rules, are_parts as parts_are}};
ghost use Rattle.gib_loccheck.specs.{Views.{destination_of, setting_of, before_of, is_whole as whole_is, numbered}, Judging.{one, Checks}};

use crate::atoms::{all_usable, any_other, have_scalar_types};
use crate::destination::Destination;
use crate::fault::LocFault;
use crate::index::indexed::IndexedCore;
use crate::lines::judge;
use crate::state::Walk;
use crate::table::{are_declared, packed_count, same_types};
use crate::target::Target;
use gib_core::{Atom, PartTypes, Rule, TermId};
use gib_types::TypeTable;

/// Several parts of these types: the scalar ones, and the packed ones.
#[derive(Drop)]
pub struct Tuple<'a> {
    pub types: PartTypes,
    pub scalars: &'a [Atom],
    pub parts: &'a [TermId],
}

/// Whether the types of a tuple are declared, its scalars are the scalar ones, and there are so many packed ones.
fn is_whole(types: &TypeTable, walk: &Walk, tuple: &Tuple<'_>) -> bool
    ensures { result ≡ whole_is types.now (before_of walk.now) (types_in tuple.now.types) tuple.now.scalars.now (length tuple.now.parts.now) }
{
    let given = tuple.types.unpacked();
    let listed = given.as_slice();
    are_declared(types, listed)
        && (have_scalar_types(walk, tuple.scalars, listed)
            && tuple.parts.len() == packed_count(listed))
}

/// Whether a tuple gives the parts that are due.
fn are_parts(types: &TypeTable, walk: &Walk, target: &Target, tuple: &Tuple<'_>) -> bool
    ensures { result ≡ parts_are types.now (before_of walk.now) (destination_of target.now.destination) (types_in tuple.now.types) tuple.now.scalars.now (length tuple.now.parts.now) }
{
    match &target.destination {
        Destination::InParts(due) => {
            let due = due.unpacked();
            let given = tuple.types.unpacked();
            same_types(given.as_slice(), due.as_slice()) && is_whole(types, walk, tuple)
        }
        _ => true,
    }
}

/// The rule that a tuple breaks first, or none.
#[tactic(auto, using(crate::proofs::Scoping::any_other_same, crate::proofs::Scoping::all_usable_same))]
fn tuple_rule(core: &IndexedCore, walk: &Walk, target: &Target, tuple: &Tuple<'_>) -> Option<Rule>
    ensures { numbered result ≡ least (rules (core_of core.now) (before_of walk.now) (setting_of walk.now target.now) (TupleLine (types_in tuple.now.types) tuple.now.scalars.now (length tuple.now.parts.now))) }
{
    if any_other(walk, tuple.scalars) {
        return Some(Rule::Sides);
    }
    if !all_usable(walk, tuple.scalars) {
        return Some(Rule::Scope);
    }
    if !are_parts(core.types(), walk, target, tuple) {
        return Some(Rule::Types);
    }
    if !target.destination.is_in_parts() {
        return Some(Rule::Tuple);
    }
    None
}

/// Judges a tuple.
pub fn judge_tuple(
    core: &IndexedCore,
    walk: &mut Walk,
    target: &Target,
    tuple: &Tuple<'_>,
) -> Result<(), LocFault>
    ensures { Checks (core_of core.now) walk.old walk.new (one (setting_of walk.old target.now) (TupleLine (types_in tuple.now.types) tuple.now.scalars.now (length tuple.now.parts.now))) result }
{
    let rule = tuple_rule(core, walk, target, tuple);
    judge(walk, rule)
}

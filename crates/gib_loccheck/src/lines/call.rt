//! A call.

ghost use Rattle.std.specs.Prelude.{◌≡◌, ◌||◌, not, [], None, Some};
ghost use Rattle.gib_types.specs.Table.{is_scalar as scalar};
ghost use Rattle.gib_core.specs.{Arena.{term_of}, Parts.{core_of, function_term, results_of}, Met.{CallLine}};
ghost use Rattle.gib_core.specs.Rules.{least, rules as all_rules, is_packed as packed, result_fits as fits_due, call_fits as fits};
ghost use Rattle.gib_loccheck.specs.{Views.{destination_of, setting_of, before_of, call_rules, numbered}, Judging.{one, Checks}};

use crate::atoms::{all_usable, any_other, have_types};
use crate::fault::LocFault;
use crate::index::indexed::IndexedCore;
use crate::lines::judge;
use crate::state::Walk;
use crate::target::Target;
use gib_base::Name;
use gib_core::{Atom, CoreFunction, CoreResult, Rule};
use gib_types::Ty;

/// Whether a scalar call may stand here: it is the whole right side of a `scalar`.
fn may_give(target: &Target, ty: Ty) -> bool
    ensures { result ≡ (not (scalar ty) || target.now.whole) }
{
    !ty.is_scalar() || target.whole
}

/// Whether one packed value is given.
fn is_packed(given: CoreResult) -> bool
    ensures { result ≡ packed (results_of given) }
{
    match given {
        CoreResult::One(ty) => !ty.is_scalar(),
        CoreResult::Several(_) => false,
    }
}

/// Whether what is given is what is due.
fn result_fits(target: &Target, given: CoreResult) -> bool
    ensures { result ≡ fits_due (destination_of target.now.destination) target.now.due target.now.whole (results_of given) }
{
    match given {
        CoreResult::One(ty) => ty.is(target.due) && may_give(target, ty),
        CoreResult::Several(types) => {
            let types = types.unpacked();
            target.are_due(types.as_slice())
        }
    }
}

/// Whether a call fits its function.
fn call_fits(walk: &Walk, target: &Target, arguments: &[Atom], function: &CoreFunction) -> bool
    ensures { result ≡ fits (before_of walk.now) (setting_of walk.now target.now) arguments.now (Some (function_term (term_of []) function.now)) }
{
    have_types(walk, arguments, &function.parameters) && result_fits(target, function.result)
}

/// The rule that a call of this function breaks first, or none.
#[tactic(auto, using(crate::proofs::Scoping::any_other_same, crate::proofs::Scoping::all_usable_same))]
fn known_call_rule(
    walk: &Walk,
    target: &Target,
    arguments: &[Atom],
    function: &CoreFunction,
) -> Option<Rule>
    ensures { numbered result ≡ least (call_rules (before_of walk.now) (setting_of walk.now target.now) arguments.now (Some (function_term (term_of []) function.now))) }
{
    if any_other(walk, arguments) {
        return Some(Rule::Sides);
    }
    if is_packed(function.result) && !target.destination.is_empty() {
        return Some(Rule::Place);
    }
    if !all_usable(walk, arguments) {
        return Some(Rule::Scope);
    }
    if !call_fits(walk, target, arguments, function) {
        return Some(Rule::Types);
    }
    None
}

/// The rule that a call breaks first whose function is not there.
#[tactic(auto, using(crate::proofs::Scoping::any_other_same, crate::proofs::Scoping::all_usable_same))]
fn unknown_call_rule(walk: &Walk, target: &Target, arguments: &[Atom]) -> Option<Rule>
    ensures { numbered result ≡ least (call_rules (before_of walk.now) (setting_of walk.now target.now) arguments.now None) }
{
    if any_other(walk, arguments) {
        return Some(Rule::Sides);
    }
    if !all_usable(walk, arguments) {
        return Some(Rule::Scope);
    }
    Some(Rule::Types)
}

/// The rule that a call breaks first, or none.
fn call_rule(
    core: &IndexedCore,
    walk: &Walk,
    target: &Target,
    name: Name,
    arguments: &[Atom],
) -> Option<Rule>
    ensures { numbered result ≡ least (all_rules (core_of core.now) (before_of walk.now) (setting_of walk.now target.now) (CallLine name arguments.now)) }
{
    match core.function(name) {
        Some(function) => known_call_rule(walk, target, arguments, function),
        None => unknown_call_rule(walk, target, arguments),
    }
}

/// Judges a call.
pub fn judge_call(
    core: &IndexedCore,
    walk: &mut Walk,
    target: &Target,
    name: Name,
    arguments: &[Atom],
) -> Result<(), LocFault>
    ensures { Checks (core_of core.now) walk.old walk.new (one (setting_of walk.old target.now) (CallLine name arguments.now)) result }
{
    let rule = call_rule(core, walk, target, name, arguments);
    judge(walk, rule)
}

//! What is bound to a term: one variable, or several.

ghost use Rattle.std.specs.Prelude.{◌≡◌, ◌<◌, ℕ, length, IfOk, OnOk};
ghost use Rattle.gib_core.specs.{Parts.{core_of}, Met.{behind_side, calls_behind}, Tree.{Term, variables_of as variables_bound}};
ghost use Rattle.gib_core.specs.Arena.{term_in, term_of, side_from};
ghost use Rattle.gib_core.specs.declared.node.BoundSide.TheVariants as side_of;
ghost use Rattle.gib_loccheck.specs.{Views.{setting_of, calls_of}, Judging.{Binds, ChecksOpening, EntersAll, Stays, Tells}};

use crate::fault::LocFault;
use crate::index::indexed::IndexedCore;
use crate::lines::enter_all;
use crate::lines::several::{open_several, variables_of};
use crate::lines::side::{judge_side, tell};
use crate::state::Walk;
use crate::target::Target;
use gib_base::Memory;
use gib_core::{BoundSide, BoundTerm};

/// Judges a variable that is bound to a term; what is due at the term.
fn open_one(
    core: &IndexedCore,
    walk: &mut Walk,
    target: &Target,
    bound: BoundTerm,
) -> Result<Target, LocFault>
    ensures { ChecksOpening (core_of core.now) walk.old walk.new (setting_of walk.old target.now) (side_from (term_of core.now.terms) (side_of.One bound)) result }
{
    judge_side(core, walk, target, bound)?;
    Ok(target.in_side(core.types(), bound.kind, bound.ty))
}

/// Judges the line of a side; what is due at its term.
pub fn open_side(
    core: &IndexedCore,
    walk: &mut Walk,
    target: &Target,
    side: BoundSide,
) -> Result<Target, LocFault>
    ensures { ChecksOpening (core_of core.now) walk.old walk.new (setting_of walk.old target.now) (side_from (term_of core.now.terms) side) result }
{
    match side {
        BoundSide::One(bound) => open_one(core, walk, target, bound),
        BoundSide::Several(parts) => open_several(walk, &parts),
    }
}

/// The variables of a side come into scope.
fn enter_variables(walk: &mut Walk, side: BoundSide) -> Result<(), Memory>
    ensures { (f : ℕ → Term) → OnOk result (EntersAll walk.old walk.new (variables_bound (side_from f side))) }
{
    match side {
        BoundSide::One(bound) => {
            let variables = [bound.variable];
            enter_all(walk, &variables)
        }
        BoundSide::Several(parts) => {
            let variables = variables_of(walk.alloc, &parts)?;
            enter_all(walk, &variables)
        }
    }
}

/// The variables of a side come into scope. What is due behind the side.
pub fn enter_side(walk: &mut Walk, target: &Target, side: BoundSide) -> Result<Target, Memory>
    ensures binds { (f : ℕ → Term) → IfOk result (λ t. Binds walk.old walk.new t (behind_side (setting_of walk.old target.now) (side_from f side))) }
    ensures stays { IfOk result (λ _. Stays walk.old walk.new) }
{
    let destination = target.destination.behind_side(side)?;
    enter_variables(walk, side)?;
    Ok(Target {
        destination,
        due: target.due,
        whole: false,
    })
}

/// The term of a side stands before, where it is a call to which one variable was bound.
pub fn tell_side(core: &IndexedCore, walk: &mut Walk, side: BoundSide) -> Result<(), Memory>
    requires { (term_in side).0 < length core.now.terms }
    ensures { OnOk result (Tells walk.old walk.new (calls_behind (side_from (term_of core.now.terms) side) (calls_of walk.old))) }
{
    match side {
        BoundSide::One(bound) => tell(core, walk, bound.term),
        BoundSide::Several(_) => Ok(()),
    }
}

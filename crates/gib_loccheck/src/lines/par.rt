//! `par`: two variables are bound to terms that may run at the same time.

ghost use Rattle.std.specs.Prelude.{IfOk, ℕ, ◌≡◌, ◌++◌, reverse, false, OnOk};
ghost use Rattle.gib_core.specs.{Tree.{CoreTree, Term, Both, variables_of as variables_bound}, Met.{ParLine, behind}, Arena.{side_from}};
ghost use Rattle.gib_loccheck.specs.{Views.{setting_of, in_scope}, Judging.{one, Checks, Binds, Stays, HasOthers}};

use crate::fault::LocFault;
use crate::lines::bound::enter_side;
use crate::lines::judge;
use crate::lines::several::variables_of;
use crate::state::Walk;
use crate::target::Target;
use gib_base::Memory;
use gib_core::{BoundSide, Variable};

/// Judges a `par`, which breaks no rule by itself.
pub fn judge_par(walk: &mut Walk) -> Result<(), LocFault>
    ensures { (core : CoreTree) → Checks core walk.old walk.new (one (in_scope walk.old) (ParLine)) result }
{
    judge(walk, None)
}

/// Variables, the last one first, behind others.
#[tactic(auto, using(crate::proofs::Entered::reversed_next, crate::proofs::Entered::reversed_all, crate::proofs::Entered::reversed_none))]
fn push_reversed(others: &mut Vec<Variable>, variables: &[Variable]) -> Result<(), Memory>
    ensures { OnOk result (others.new.items ≡ others.old.items ++ reverse variables.now) }
{
    let mut i = variables.len();
    'variables: while i > 0 {
        i -= 1;
        others.push(variables[i])?;
    }
    Ok(())
}

/// The variables of a side are another side's.
pub fn add_others(walk: &mut Walk, side: BoundSide) -> Result<(), Memory>
    ensures { (f : ℕ → Term) → OnOk result (HasOthers walk.old walk.new (variables_bound (side_from f side))) }
{
    match side {
        BoundSide::One(bound) => {
            let variables = [bound.variable];
            push_reversed(&mut walk.others, &variables)
        }
        BoundSide::Several(parts) => {
            let variables = variables_of(walk.alloc, &parts)?;
            push_reversed(&mut walk.others, &variables)
        }
    }
}

/// The variables of two sides come into scope. What is due behind both.
pub fn enter_sides(
    walk: &mut Walk,
    target: &Target,
    left: BoundSide,
    right: BoundSide,
) -> Result<Target, Memory>
    ensures binds { (f : ℕ → Term) → IfOk result (λ t. Binds walk.old walk.new t (behind (setting_of walk.old target.now) (Both false (side_from f left) (side_from f right)))) }
    ensures stays { IfOk result (λ _. Stays walk.old walk.new) }
{
    let inner = enter_side(walk, target, left)?;
    let next = enter_side(walk, &inner, right)?;
    Ok(next)
}

//! `to`: a packed part of a tuple.

ghost use Rattle.gib_core.specs.{Tree.{CoreTree}, Met.{Setting, PartLine}};
ghost use Rattle.gib_loccheck.specs.Judging.{one, Checks};

use crate::fault::LocFault;
use crate::lines::judge;
use crate::state::Walk;

/// Judges the line of a part, which breaks no rule by itself.
pub fn judge_part(walk: &mut Walk) -> Result<(), LocFault>
    ensures { (core : CoreTree) (s : Setting) → Checks core walk.old walk.new (one s PartLine) result }
{
    judge(walk, None)
}

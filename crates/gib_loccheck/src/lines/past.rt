//! `past`: room is kept for the head of a constructor.

ghost use Rattle.std.specs.Prelude.{◌≡◌};
ghost use Rattle.gib_core.specs.{Parts.{core_of}, Met.{PastLine}, Rules.{least, rules}, Tree.{Past}};
ghost use Rattle.gib_loccheck.specs.{Views.{setting_of, before_of, numbered}, Judging.{one, Checks, ChecksBinding}};

use crate::destination::Destination;
use crate::fault::LocFault;
use crate::index::indexed::IndexedCore;
use crate::lines::{bind, judge};
use crate::state::Walk;
use crate::table::is_of_type;
use crate::target::Target;
use gib_core::{Rule, Variable};
use gib_types::ConId;

/// The rule that room for a head breaks first, or none.
fn past_rule(
    core: &IndexedCore,
    walk: &Walk,
    target: &Target,
    head: Variable,
    constructor: ConId,
) -> Option<Rule>
    ensures { numbered result ≡ least (rules (core_of core.now) (before_of walk.now) (setting_of walk.now target.now) (PastLine head constructor)) }
{
    if !(target.destination.is_empty() && is_of_type(core.types(), constructor, target.due)) {
        return Some(Rule::Head);
    }
    if walk.bound.has(head) {
        return Some(Rule::Scope);
    }
    None
}

/// Judges room for a head, whose variable is bound.
fn judge_past(
    core: &IndexedCore,
    walk: &mut Walk,
    target: &Target,
    head: Variable,
    constructor: ConId,
) -> Result<(), LocFault>
    ensures { Checks (core_of core.now) walk.old walk.new (one (setting_of walk.old target.now) (PastLine head constructor)) result }
{
    let rule = past_rule(core, walk, target, head, constructor);
    judge(walk, rule)?;
    bind(walk, head, core.types().type_made(constructor))
}

/// Judges room for a head; what is due behind it, where the head is open.
pub fn open_head(
    core: &IndexedCore,
    walk: &mut Walk,
    target: &Target,
    head: Variable,
    constructor: ConId,
) -> Result<Target, LocFault>
    ensures { ChecksBinding (core_of core.now) walk.old walk.new (setting_of walk.old target.now) (Past head constructor) result }
{
    judge_past(core, walk, target, head, constructor)?;
    Ok(Target {
        destination: Destination::Open {
            head,
            constructor,
            standing: Vec::new(walk.alloc),
        },
        due: target.due,
        whole: false,
    })
}

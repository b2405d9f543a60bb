//! The fields of an arm, as they come into scope in its term.

ghost use Rattle.std.specs.Prelude.{◌≡◌, reverse, IfOk, OnOk, None};
ghost use Rattle.gib_core.specs.Met.{with_arm, field as field_of_arm, packed_before as packed_before_next};
ghost use Rattle.gib_loccheck.specs.{Views.{setting_of, before_arm}, Judging.{Extends, Binds, Stays}};

use crate::index::indexed::IndexedCore;
use crate::index::scope::Scope;
use crate::state::Walk;
use crate::target::Target;
use gib_base::Memory;
use gib_core::{Behind, Branch, Known, Variable};
use gib_types::{ConId, Ty, first_type, further_types};

/// A field of an arm, with the packed field before it: the first one is reached at once.
fn field(constructor: ConId, variable: Variable, ty: Ty, before: Option<Variable>) -> Known
    ensures { result ≡ field_of_arm constructor variable ty before }
{
    let at_once = Known {
        variable,
        reached: true,
        behind: None,
    };
    match ty {
        Ty::Whole => at_once,
        Ty::Truth => at_once,
        Ty::Tree(_) => match before {
            None => at_once,
            Some(before) => Known {
                variable,
                reached: false,
                behind: Some(Behind {
                    constructor,
                    before,
                }),
            },
        },
    }
}

/// The packed field before the next one.
fn packed_before(variable: Variable, ty: Ty, before: Option<Variable>) -> Option<Variable>
    ensures { result ≡ packed_before_next variable ty before }
{
    match ty {
        Ty::Whole => before,
        Ty::Truth => before,
        Ty::Tree(_) => Some(variable),
    }
}

/// The variables of an arm come into scope.
fn enter_arm(
    scope: &mut Scope,
    constructor: ConId,
    variables: &[Variable],
    types: &[Ty],
) -> Result<(), Memory>
    ensures scope { OnOk result (reverse scope.new.items ≡ with_arm constructor variables.now types.now None (reverse scope.old.items)) }
    ensures more { OnOk result (Extends scope.old.items scope.new.items) }
{
    let mut before = None;
    let mut types_left = types;
    let mut left = variables;
    'variables: while let [variable, after @ ..] = left {
        let ty = first_type(types_left);
        scope.push(field(constructor, *variable, ty, before))?;
        before = packed_before(*variable, ty, before);
        types_left = further_types(types_left);
        left = after;
    }
    Ok(())
}

/// The fields of a branch come into scope; what is due at its term.
pub fn open_arm(
    core: &IndexedCore,
    walk: &mut Walk,
    target: &Target,
    branch: &Branch,
) -> Result<Target, Memory>
    ensures binds { IfOk result (λ t. Binds walk.old walk.new t (before_arm core.now.table (setting_of walk.old target.now) branch.now.constructor branch.now.variables.items)) }
    ensures calls { IfOk result (λ _. walk.new.calls.items ≡ walk.old.calls.items) }
    ensures stays { IfOk result (λ _. Stays walk.old walk.new) }
{
    let types = core.types().fields(branch.constructor);
    enter_arm(
        &mut walk.scope,
        branch.constructor,
        &branch.variables,
        types,
    )?;
    let inner = target.without_call()?;
    Ok(inner)
}

//! The variables of bindings.

ghost use Rattle.std.specs.Prelude.{◌≡◌, ◌++◌, OnOk};
ghost use Rattle.gib_syntax.specs.GenericTyping.{FormScope};
ghost use Rattle.gib_check.specs.{Answers.{Gives}, Judging.{in_scope, AreMet, part_in}};
ghost use Rattle.gib_check.specs.Faults as rule;

use crate::fault::TypeFault;
use crate::rules::{Part, can_bind};
use crate::state::State;
use gib_syntax::Ident;

/// The variables of a binding come into scope with what its right side gives.
pub fn bind_given(state: &mut State, names: &[Ident], part: Part) -> Result<(), TypeFault>
    requires { AreMet state.old part.ty }
    ensures read { Gives (λ _. ((in_scope state.new), state.new.counts)) result (rule.bind_given (in_scope state.old) state.old.counts names.now (part_in state.old part)) }
    ensures kept { OnOk result ((added : FormScope) × ((in_scope state.new) ≡ added ++ (in_scope state.old))) }
    ensures types { state.new.types ≡ state.old.types }
    ensures parts { state.new.parts ≡ state.old.parts }
{
    can_bind(state, names, part)?;
    state.bind_results(names, part.ty)?;
    Ok(())
}

/// So those of two sides, once both sides were looked at.
pub fn bind_sides(
    state: &mut State,
    left_names: &[Ident],
    left: Part,
    right_names: &[Ident],
    right: Part,
) -> Result<(), TypeFault>
    requires left { AreMet state.old left.ty }
    requires right { AreMet state.old right.ty }
    ensures read { Gives (λ _. ((in_scope state.new), state.new.counts)) result (rule.bind_sides (in_scope state.old) state.old.counts left_names.now (part_in state.old left) right_names.now (part_in state.old right)) }
    ensures kept { OnOk result ((added : FormScope) × ((in_scope state.new) ≡ added ++ (in_scope state.old))) }
    ensures types { state.new.types ≡ state.old.types }
    ensures parts { state.new.parts ≡ state.old.parts }
{
    can_bind(state, left_names, left)?;
    can_bind(state, right_names, right)?;
    state.bind_results(left_names, left.ty)?;
    state.bind_results(right_names, right.ty)?;
    Ok(())
}

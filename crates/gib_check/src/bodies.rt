//! Bodies of functions.

ghost use Rattle.std.specs.Prelude.{◌≡◌, ◌<◌, [], length, map, IfOk};
ghost use Rattle.std.specs.List.{AllByRecursion};
ghost use Rattle.gib_syntax.specs.GenericParts.{parameter_in, results_in, function_in, IsFunctionInside};
ghost use Rattle.gib_check.specs.{Answers.{Gives}, Judging.{in_scope}, NameViews.{generic_globals, generic_tree}};
ghost use Rattle.gib_check.specs.FirstFault as rule;

use crate::fault::TypeFault;
use crate::named::{Around, Named};
use crate::parts::part;
use crate::reading::Meaning;
use crate::rules::wanted;
use crate::standing::standing_of;
use crate::state::State;
use crate::uses::result_types;
use crate::walk::infer;
use gib_base::Memory;
use gib_syntax::{ExprId, GenericFunction, GenericParameter, ResultRuns};

/// Puts parameters into the scope.
fn push_parameters(
    named: &Named,
    state: &mut State,
    parameters: &[GenericParameter],
) -> Result<(), Memory>
    ensures scope { IfOk result (λ _. (in_scope state.new) ≡ rule.with_parameters (map (parameter_in named.now.exprs.words) parameters.now) (in_scope state.old)) }
    ensures counts { IfOk result (λ _. state.new.counts ≡ state.old.counts) }
{
    let mut rest = parameters;
    'parameters: while let [parameter, after @ ..] = rest {
        let ty = state.read_first(&Meaning::Opaque, named.words(parameter.ty))?;
        state.enter(parameter.name, ty)?;
        rest = after;
    }
    Ok(())
}

/// A body, over a state that has met nothing but the number of its parameters, which are not in scope yet. The state is
/// owned by the caller, which has one way out: each way out that owns it would drop all of it.
fn check_from(
    around: &Around,
    state: &mut State,
    parameters: &[GenericParameter],
    gives: &ResultRuns,
    body: ExprId,
) -> Result<(), TypeFault>
    requires inside { body.0 < length around.now.named.now.exprs.nodes }
    requires scope { in_scope state.old ≡ [] }
    requires counts { state.old.counts ≡ record { variables = length parameters.now; expressions = 0 } }
    ensures { Gives (λ _. tt {0}) result
        (rule.check_body (generic_globals around.now.named.now) around.now.variables.now
        (map (parameter_in around.now.named.now.exprs.words) parameters.now) (results_in around.now.named.now.exprs.words gives.now)
        (generic_tree around.now.named.now body.0)) }
{
    state.meet_plain()?;
    push_parameters(around.named, state, parameters)?;
    let given = infer(around, state, standing_of(gives), body)?;
    let due = result_types(around.named, state, &Meaning::Opaque, gives)?;
    wanted(state, due, part(around.named, body, given))
}

/// A body, in the scope of its parameters.
pub fn check_body(
    around: &Around,
    parameters: &[GenericParameter],
    gives: &ResultRuns,
    body: ExprId,
) -> Result<(), TypeFault>
    requires { body.0 < length around.now.named.now.exprs.nodes }
    ensures { Gives (λ _. tt {0}) result (rule.check_body (generic_globals around.now.named.now) around.now.variables.now (map (parameter_in around.now.named.now.exprs.words) parameters.now) (results_in around.now.named.now.exprs.words gives.now) (generic_tree around.now.named.now body.0)) }
{
    let Ok(count) = u32::try_from(parameters.len()) else {
        return Err(TypeFault::Memory);
    };
    let mut state = State::new(around.named.alloc(), count);
    check_from(around, &mut state, parameters, gives, body)
}

/// The bodies of functions, in the order of the text.
pub fn check_bodies(named: &Named, functions: &[GenericFunction]) -> Result<(), TypeFault>
    requires { AllByRecursion (IsFunctionInside named.now.exprs) functions.now }
    ensures { Gives (λ _. tt {0}) result (rule.check_bodies (generic_globals named.now) (map (function_in named.now.exprs) functions.now)) }
{
    let mut rest = functions;
    'functions: while let [function, after @ ..] = rest {
        let around = Around {
            named,
            variables: &function.variables,
        };
        check_body(
            &around,
            &function.parameters,
            &function.result,
            function.body,
        )?;
        rest = after;
    }
    Ok(())
}

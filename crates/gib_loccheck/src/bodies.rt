//! The walk over the bodies of a core: its functions', and main's at last.

ghost use Rattle.std.specs.Prelude.{◌≡◌, ◌<◌, [], ◌∷◌, length, None, IfOk, IfErr, OnOk};
ghost use Rattle.std.specs.List.{AllByRecursion};
ghost use Rattle.gib_core.specs.{Arena.{term_of}, Parts.{IsFunctionInside, core_of, results_of}, Rules.{first_broken}};
ghost use Rattle.gib_syntax.specs.Typing.{one_type as type_of_one};
ghost use Rattle.gib_loccheck.specs.{Judging.{Says}, Bodies.{Pass, Blame, Opens, bodies_of}};

use crate::destination::Destination;
use crate::fault::LocFault;
use crate::index::bound::{BoundVariables, MarkedVariables};
use crate::index::indexed::IndexedCore;
use crate::index::scope::Scope;
use crate::lines::enter;
use crate::state::Walk;
use crate::target::Target;
use crate::walk::check_term;
use gib_base::Memory;
use gib_core::{Bound, CoreFunction, CoreResult, TermId, Variable};
use gib_types::Ty;
use std::alloc::{AllocError, Global};

/// The type of the one thing that a body gives; of several parts, `Int`, which nobody asks.
fn one_type(given: CoreResult) -> Ty
    ensures { result ≡ type_of_one (results_of given) }
{
    match given {
        CoreResult::One(ty) => ty,
        CoreResult::Several(_) => Ty::Whole,
    }
}

/// The walk begins a body: its parameters are bound and in scope, and nothing else is.
fn open_body(walk: &mut Walk, parameters: &[Ty]) -> Result<(), Memory>
    ensures { OnOk result (Opens walk.old walk.new parameters.now) }
{
    walk.bound = BoundVariables::new(walk.alloc);
    walk.cased = MarkedVariables::new(walk.alloc);
    walk.scope = Scope::new(walk.alloc);
    walk.others.clear();
    let mut number: u32 = 0;
    let mut left = parameters;
    'parameters: while let [ty, after @ ..] = left {
        if number == u32::MAX {
            return Err(AllocError);
        }
        let variable = Variable(number);
        walk.bound.push(Bound { variable, ty: *ty })?;
        enter(walk, variable)?;
        number += 1;
        left = after;
    }
    Ok(())
}

/// One body.
fn check_body(
    core: &IndexedCore,
    walk: &mut Walk,
    parameters: &[Ty],
    given: CoreResult,
    id: TermId,
) -> Result<(), LocFault>
    requires { id.0 < length core.now.terms }
    ensures passes { IfOk result (λ _. Pass (core_of core.now) walk.old.place walk.new.place (record { parameters = parameters.now; result = results_of given; term = term_of core.now.terms id.0 } ∷ [])) }
    ensures broken { IfErr result (Blame (core_of core.now) walk.old.place (record { parameters = parameters.now; result = results_of given; term = term_of core.now.terms id.0 } ∷ [])) }
{
    open_body(walk, parameters)?;
    let target = Target {
        destination: Destination::of_result(given),
        due: one_type(given),
        whole: false,
    };
    check_term(core, walk, target, id)
}

/// The bodies of functions, one after another.
fn check_functions(
    core: &IndexedCore,
    walk: &mut Walk,
    functions: &[CoreFunction],
) -> Result<(), LocFault>
    requires { AllByRecursion (IsFunctionInside (length core.now.terms)) functions.now }
    ensures passes { IfOk result (λ _. Pass (core_of core.now) walk.old.place walk.new.place (bodies_of (term_of core.now.terms) functions.now)) }
    ensures broken { IfErr result (Blame (core_of core.now) walk.old.place (bodies_of (term_of core.now.terms) functions.now)) }
{
    let mut left = functions;
    'functions: while let [function, after @ ..] = left {
        check_body(
            core,
            walk,
            &function.parameters,
            function.result,
            function.body,
        )?;
        left = after;
    }
    Ok(())
}

/// All bodies of a core.
pub fn check_bodies(alloc: Global, core: &IndexedCore) -> Result<(), LocFault>
    ensures unbroken { IfOk result (λ _. first_broken (core_of core.now) ≡ None) }
    ensures broken { IfErr result (λ e. Says e (first_broken (core_of core.now))) }
{
    let mut walk = Walk {
        alloc,
        bound: BoundVariables::new(alloc),
        cased: MarkedVariables::new(alloc),
        scope: Scope::new(alloc),
        others: Vec::new(alloc),
        calls: Vec::new(alloc),
        place: 0,
    };
    check_functions(core, &mut walk, core.functions())?;
    let main = core.main();
    let parameters = [main.parameter];
    let given = CoreResult::One(main.result);
    check_body(core, &mut walk, &parameters, given, main.body)
}

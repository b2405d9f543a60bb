//! The bodies of functions and of main.

ghost use Rattle.std.specs.Prelude.{◌≡◌, ◌<◌, length, map, IfOk};
ghost use Rattle.std.specs.List.{AllByRecursion};
ghost use Rattle.gib_core.specs.{Arena.{term_of}, Parts.{IsFunctionInside, function_term, main_term}};
ghost use Rattle.gib_access.specs.{Sources.{way_of}, Bodies.{ReachesFunction, ReachesFunctions, ReachesMain}};

use crate::source::Source;
use crate::walk::reach_term;
use crate::work::Work;
use gib_base::Memory;
use gib_core::{CoreFunction, CoreMain};

/// A function with the fields of all arms reached.
fn reach_function(
    source: &Source,
    work: &mut Work,
    function: CoreFunction,
) -> Result<CoreFunction, Memory>
    requires { function.body.0 < length source.now.terms.now }
    ensures { IfOk result (λ made. ReachesFunction (way_of source.now) work.old work.new made (function_term (term_of source.now.terms.now) function)) }
{
    let body = reach_term(source, work, function.body)?;
    Ok(CoreFunction {
        name: function.name,
        parameters: function.parameters,
        result: function.result,
        body,
    })
}

/// The functions but main, from the last one to the first.
pub fn reach_functions(
    source: &Source,
    work: &mut Work,
    mut functions: Vec<CoreFunction>,
) -> Result<Vec<CoreFunction>, Memory>
    requires { AllByRecursion (IsFunctionInside (length source.now.terms.now)) functions.items }
    ensures { IfOk result (λ made. ReachesFunctions (way_of source.now) work.old work.new made.items (map (function_term (term_of source.now.terms.now)) functions.items)) }
{
    let mut reversed = Vec::new(source.alloc);
    'functions: while let Some(function) = functions.pop() {
        let function = reach_function(source, work, function)?;
        reversed.push(function)?;
    }
    reversed.reverse();
    Ok(reversed)
}

/// Main with the fields of all arms reached.
pub fn reach_main(source: &Source, work: &mut Work, main: CoreMain) -> Result<CoreMain, Memory>
    requires { main.body.0 < length source.now.terms.now }
    ensures { IfOk result (λ made. ReachesMain (way_of source.now) work.old work.new made (main_term (term_of source.now.terms.now) main)) }
{
    let body = reach_term(source, work, main.body)?;
    Ok(CoreMain { body, ..main })
}

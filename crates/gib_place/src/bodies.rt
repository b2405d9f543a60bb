//! The bodies of functions and of main.

ghost use Rattle.std.specs.Prelude.{◌≡◌, ◌<◌, length, map, IfOk};
ghost use Rattle.std.specs.List.{AllByRecursion};
ghost use Rattle.gib_core.specs.{Arena.{term_of}, Parts.{IsFunctionInside, function_term, main_term}};
ghost use Rattle.gib_place.specs.{Numbering.{number_anew}, Placing.{place_body as body_placed}, Made.{MakesTerm, PlacesFunction, PlacesFunctions, PlacesMain}};

use crate::placing::{Placing, Scratch};
use crate::renumber::{copy_term, numbers_of};
use crate::walk::place_term;
use gib_base::Memory;
use gib_core::{CoreFunction, CoreMain, TermId, Terms, uses_of};
use std::alloc::Global;

/// A body with so many parameters: its fields are placed, and then its variables are numbered. What is placed stands in
/// terms of its own before it is numbered.
fn place_body(
    alloc: Global,
    terms: &Terms,
    made: &mut Terms,
    parameters: usize,
    id: TermId,
) -> Result<TermId, Memory>
    requires { id.0 < length terms.now }
    ensures { IfOk result (λ body. MakesTerm made.old made.new body (number_anew parameters (body_placed (term_of terms.now id.0)))) }
{
    let once = uses_of(alloc, terms, id)?;
    let mut scratch = Scratch::new(alloc);
    let placing = Placing {
        alloc,
        once: &once,
        terms,
    };
    let placed = place_term(&placing, &mut scratch, id)?;
    let numbers = numbers_of(alloc, &scratch.terms, parameters, placed)?;
    copy_term(alloc, &numbers, &scratch.terms, placed, made)
}

/// A function whose body is placed.
fn place_function(
    alloc: Global,
    terms: &Terms,
    made: &mut Terms,
    function: CoreFunction,
) -> Result<CoreFunction, Memory>
    requires { function.body.0 < length terms.now }
    ensures { IfOk result (λ placed. PlacesFunction made.old made.new placed (function_term (term_of terms.now) function)) }
{
    let parameters = function.parameters.len();
    let body = place_body(alloc, terms, made, parameters, function.body)?;
    Ok(CoreFunction {
        name: function.name,
        parameters: function.parameters,
        result: function.result,
        body,
    })
}

/// The functions but main, from the last one to the first.
pub fn place_functions(
    alloc: Global,
    terms: &Terms,
    made: &mut Terms,
    mut functions: Vec<CoreFunction>,
) -> Result<Vec<CoreFunction>, Memory>
    requires { AllByRecursion (IsFunctionInside (length terms.now)) functions.items }
    ensures { IfOk result (λ placed. PlacesFunctions made.old made.new placed.items (map (function_term (term_of terms.now)) functions.items)) }
{
    let mut reversed = Vec::new(alloc);
    'functions: while let Some(function) = functions.pop() {
        let function = place_function(alloc, terms, made, function)?;
        reversed.push(function)?;
    }
    reversed.reverse();
    Ok(reversed)
}

/// Main, whose body is placed.
pub fn place_main(
    alloc: Global,
    terms: &Terms,
    made: &mut Terms,
    main: CoreMain,
) -> Result<CoreMain, Memory>
    requires { main.body.0 < length terms.now }
    ensures { IfOk result (λ placed. PlacesMain made.old made.new placed (main_term (term_of terms.now) main)) }
{
    let body = place_body(alloc, terms, made, 1, main.body)?;
    Ok(CoreMain { body, ..main })
}

//! `plain`: prints what a program means on an input, by the plain evaluator.

ghost use Rattle.std.specs.Prelude.{◌≡◌, ◌≤◌, length, IfOk, IfErr, MatchResult, None};
ghost use Rattle.gib_types.specs.Tree.{Datum, HasType};
ghost use Rattle.gib_syntax.specs.{Parts.{program_of}, Declarations.{table_of_program, input_type}, Meaning.{run, Gives, Stops}};
ghost use Rattle.gib_app.specs.{Running.{text_line}, Jobs.{Means}, Kept.{EndsBy, file_of, names_in, tree_in}, Stops.{IsReady, IsRunStop}};

use crate::compile::Compiled;
use crate::made::{Made, Reason};
use crate::packed::read_packed;
use crate::printing::{no_value, only_prints, value_line};
use crate::request::Request;
use crate::stop::Stop;
use gib_base::Memory;
use gib_base::limits::FILE_BYTES;
use gib_plain::{Outcome, plain as evaluated};
use gib_syntax::law::results_are_typed;
use gib_value::Value;
use std::alloc::Global;

/// The text of the value that a program means, with a line feed, or why there is none.
fn evaluate(
    alloc: Global,
    compiled: &Compiled,
    value: Value,
    depth: u32,
) -> Result<Result<Vec<u8>, gib_types::Reason>, Memory>
    requires ready { IsReady (program_of compiled.now.typed) compiled.now.names }
    requires typed { HasType (table_of_program (program_of compiled.now.typed)) value (input_type (program_of compiled.now.typed)) }
    ensures { IfOk result (λ found. MatchResult found
        (λ output. (u : Datum) × (run (program_of compiled.now.typed) depth value ≡ Gives u)
        × (output.items ≡ text_line (program_of compiled.now.typed) compiled.now.names u))
        (λ why. run (program_of compiled.now.typed) depth value ≡ Stops why)) }
{
    let _program = compiled.typed.program();
    results_are_typed();
    let result = match evaluated(alloc, &compiled.typed, value, depth) {
        Ok(Outcome::Gives(result)) => result,
        Ok(Outcome::NoValue(why)) => return Ok(Err(why)),
        Err(memory) => return Err(memory),
    };
    match value_line(alloc, compiled, &result) {
        Ok(output) => Ok(Ok(output)),
        Err(memory) => Err(memory),
    }
}

/// What a program means on the bytes of an input, within the depth of the options.
///
/// # Errors
///
/// `Input` where the bytes are no packed file of a value of the type of main's parameter.
pub fn plain(alloc: Global, request: Request<'_>) -> Result<Made, Stop<'static>>
    requires ready { IsReady (tree_in request) (names_in request) }
    requires short { length request.input.now ≤ FILE_BYTES }
    ensures made { IfOk result (λ made. EndsBy (file_of made) made.end (Means
        (tree_in request.entry) (names_in request.entry) request.entry.options request.entry.input.now)) }
    ensures stop { IfErr result (IsRunStop (tree_in request.entry) (names_in request.entry) request.entry.input.now) }
    ensures alone { IfOk result (λ made. made.packed ≡ None) }
{
    let compiled = request.compiled;
    let value = match read_packed(alloc, &compiled.typed, &compiled.names, request.input) {
        Ok(value) => value,
        Err(stop) => return Err(stop),
    };
    match evaluate(alloc, compiled, value, request.options.depth) {
        Ok(Ok(text)) => Ok(only_prints(text)),
        Ok(Err(why)) => Ok(no_value(Reason::Meant(why))),
        Err(_) => Err(Stop::Memory),
    }
}

//! `show`: prints the value of a packed file, or of an image.

ghost use Rattle.std.specs.Prelude.{◌≡◌, ◌≤◌, length, IfOk, IfErr, None};
ghost use Rattle.gib_types.specs.Tree.{Datum};
ghost use Rattle.gib_syntax.specs.{Declarations.{table_of_program, input_type}, Parts.{program_of}};
ghost use Rattle.gib_app.specs.{InputFaults.{HasImageSign}, Jobs.{OnlyPrints}, Kept.{EndsBy, IsShownFor, StopsShow, file_of, names_in, tree_in}};
ghost use Rattle.gib_app.specs.{Running.{IsInput, text_line}, Stops.{IsReady, IsPackedStop}};

use crate::compile::Compiled;
use crate::image_file::{has_image_sign, read_image_of};
use crate::input_fault::{InputFault, PackedFault};
use crate::made::Made;
use crate::packed::{of_packed, survey_input};
use crate::printing::{only_prints, value_line};
use crate::request::Request;
use crate::stop::Stop;
use gib_base::limits::FILE_BYTES;
use gib_file::{HeadFault, has_magic, refused_header};
use gib_print::packed_text;
use std::alloc::Global;

/// The text of the value of an image, with a line feed.
fn image_line(alloc: Global, request: Request<'_>) -> Result<Vec<u8>, Stop<'static>>
    requires ready { IsReady (tree_in request) (names_in request) }
    requires sign { HasImageSign request.input.now }
    requires short { length request.input.now ≤ 268435480 }
    ensures output { IfOk result (λ output. IsShownFor request.entry output.items) }
    ensures stop { IfErr result (StopsShow request.entry) }
{
    let compiled = request.compiled;
    let value = match read_image_of(alloc, &compiled.typed, request.options, request.input) {
        Ok(value) => value,
        Err(stop) => return Err(stop),
    };
    match value_line(alloc, compiled, &value) {
        Ok(output) => Ok(output),
        Err(_) => Err(Stop::Memory),
    }
}

/// The text of the value of a packed file, with a line feed. It is made from the payload: no value is made of that.
fn packed_line(alloc: Global, compiled: &Compiled, file: &[u8]) -> Result<Vec<u8>, Stop<'static>>
    requires ready { IsReady (program_of compiled.now.typed) compiled.now.names }
    requires short { length file.now ≤ FILE_BYTES }
    ensures output { IfOk result (λ output. (v : Datum) × IsInput (program_of compiled.now.typed) compiled.now.names v file.now
        × (output.items ≡ text_line (program_of compiled.now.typed) compiled.now.names v)) }
    ensures refused { IfErr result (IsPackedStop (table_of_program (program_of compiled.now.typed)) compiled.now.names.long
        (input_type (program_of compiled.now.typed)) file.now) }
{
    let survey = match survey_input(alloc, &compiled.typed, &compiled.names, file) {
        Ok(survey) => survey,
        Err(stop) => return Err(stop),
    };
    let _packed = survey.payload();
    match packed_text(alloc, &survey, &compiled.names) {
        Ok(text) => Ok(text),
        Err(_) => Err(Stop::Memory),
    }
}

/// The text of the value of a file, with a line feed: the first four bytes tell whether it is an image.
///
/// # Errors
///
/// `Input` where the bytes are neither a packed file of a value of the type of main's parameter nor an image of one of the type
/// of its result.
fn show_file(alloc: Global, request: Request<'_>) -> Result<Vec<u8>, Stop<'static>>
    requires ready { IsReady (tree_in request) (names_in request) }
    requires short { length request.input.now ≤ 268435480 }
    ensures output { IfOk result (λ output. IsShownFor request.entry output.items) }
    ensures stop { IfErr result (StopsShow request.entry) }
{
    if has_image_sign(request.input) {
        return image_line(alloc, request);
    }
    refused_header();
    if !has_magic(request.input) {
        return Err(of_packed(PackedFault::Header(HeadFault::Magic)));
    }
    if request.input.len() as u64 > FILE_BYTES {
        return Err(Stop::Input(InputFault::Long(FILE_BYTES)));
    }
    match packed_line(alloc, request.compiled, request.input) {
        Ok(text) => Ok(text),
        Err(stop) => Err(stop),
    }
}

/// What is printed of the value of a file.
///
/// # Errors
///
/// `Input` where the bytes are neither a packed file of a value of the type of main's parameter nor an image of one of the type
/// of its result.
pub fn show(alloc: Global, request: Request<'_>) -> Result<Made, Stop<'static>>
    requires ready { IsReady (tree_in request) (names_in request) }
    requires short { length request.input.now ≤ 268435480 }
    ensures made { IfOk result (λ made. EndsBy (file_of made) made.end
        (OnlyPrints (IsShownFor request.entry))) }
    ensures stop { IfErr result (StopsShow request.entry) }
    ensures alone { IfOk result (λ made. made.packed ≡ None) }
{
    match show_file(alloc, request) {
        Ok(text) => Ok(only_prints(text)),
        Err(stop) => Err(stop),
    }
}

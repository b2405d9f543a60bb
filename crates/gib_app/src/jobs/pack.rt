//! `pack`: makes the packed file of a value that is given as text, or by a packed file.

ghost use Rattle.std.specs.Prelude.{◌≡◌, ◌≤◌, length, IfOk, IfErr, IfSome, None};
ghost use Rattle.gib_types.specs.Tree.{Datum, HasType};
ghost use Rattle.gib_value.specs.Reading.{IsTextOf};
ghost use Rattle.gib_syntax.specs.{Parts.{program_of}, Declarations.{table_of_program, input_type}};
ghost use Rattle.gib_app.specs.{Jobs.{Packs}, Kept.{EndsBy, StopsPack, file_of, names_in, tree_in}};
ghost use Rattle.gib_app.specs.{Packing.{IsFileOf, IsPackable, IsPackedBy, without_feed as feed_cut}, Stops.{IsReady}};

use crate::compile::Compiled;
use crate::input_fault::InputFault;
use crate::made::{End, Made};
use crate::packed::read_packed;
use crate::printing::ok_answer;
use crate::request::Request;
use crate::stop::Stop;
use gib_base::Memory;
use gib_base::limits::FILE_BYTES;
use gib_file::{one_file, pack as packed_file};
use gib_transcode::{transcode, transcode_first};
use gib_value::law::texts_differ;
use gib_value::{TextFault, Value, read_text};
use std::alloc::Global;

/// The bytes without the line feed at their end, where one stands there.
fn without_feed(bytes: &[u8]) -> &[u8]
    ensures { result.now ≡ feed_cut bytes.now }
{
    let Some((last, front)) = bytes.split_last() else {
        return bytes;
    };
    if *last == b'\n' { front } else { bytes }
}

/// The value of the type of main's parameter that is packed: of a text, at whose end one line feed may stand, or of a packed file.
///
/// # Errors
///
/// `Input` where the bytes are none of such a value.
fn value_of(alloc: Global, request: Request<'_>) -> Result<Value, Stop<'static>>
    requires ready { IsReady (tree_in request) (names_in request) }
    requires short { length request.input.now ≤ FILE_BYTES }
    ensures packable { IfOk result (λ v. IsPackable request.entry.options.repacks (tree_in request.entry) (names_in request.entry) v request.entry.input.now) }
    ensures stop { IfErr result (StopsPack request.entry) }
{
    let compiled = request.compiled;
    if request.options.repacks {
        return match read_packed(alloc, &compiled.typed, &compiled.names, request.input) {
            Ok(value) => Ok(value),
            Err(stop) => Err(stop),
        };
    }
    let types = compiled.typed.types();
    let ty = compiled.typed.input_type();
    let text = without_feed(request.input);
    match read_text(alloc, types, &compiled.names, ty, text) {
        Ok(value) => Ok(value),
        Err(TextFault::At(place)) => Err(Stop::Input(InputFault::Text(place))),
        Err(TextFault::Memory) => Err(Stop::Memory),
    }
}

/// The packed file of a value of the type of main's parameter: of version 1 or of version 2.
///
/// # Errors
///
/// Want of memory.
fn file_of_value(
    alloc: Global,
    compiled: &Compiled,
    first_version: bool,
    value: &Value,
) -> Result<Vec<u8>, Memory>
    requires typed { HasType (table_of_program (program_of compiled.now.typed)) value.now (input_type (program_of compiled.now.typed)) }
    ensures { IfOk result (λ file. IsFileOf first_version (program_of compiled.now.typed) compiled.now.names value.now file.items) }
{
    let types = compiled.typed.types();
    if first_version {
        return match packed_file(alloc, types, &compiled.names, value, 1) {
            Ok(file) => Ok(file),
            Err(memory) => Err(memory),
        };
    }
    match packed_file(alloc, types, &compiled.names, value, 2) {
        Ok(file) => Ok(file),
        Err(memory) => Err(memory),
    }
}

/// The packed file of the value of the type of main's parameter whose text this is, where one pass over the text finds one. None
/// says nothing of the text.
///
/// # Errors
///
/// Want of memory.
fn file_of_text(
    alloc: Global,
    compiled: &Compiled,
    first_version: bool,
    text: &[u8],
) -> Result<Option<Vec<u8>>, Memory>
    requires ready { IsReady (program_of compiled.now.typed) compiled.now.names }
    ensures { IfOk result (λ found. IfSome found (λ file. (v : Datum)
        × IsTextOf (table_of_program (program_of compiled.now.typed)) compiled.now.names.short (input_type (program_of compiled.now.typed)) v text.now
        × IsFileOf first_version (program_of compiled.now.typed) compiled.now.names v file.items)) }
{
    let types = compiled.typed.types();
    let ty = compiled.typed.input_type();
    if first_version {
        return transcode_first(alloc, types, &compiled.names, ty, text);
    }
    transcode(alloc, types, &compiled.names, ty, text)
}

/// The packed file of the value that is packed: of a text in one pass over it, where that finds it; else the value is made.
///
/// # Errors
///
/// `Input` where the bytes are none of such a value.
fn file_found(alloc: Global, request: Request<'_>) -> Result<Vec<u8>, Stop<'static>>
    requires ready { IsReady (tree_in request) (names_in request) }
    requires short { length request.input.now ≤ FILE_BYTES }
    ensures file { IfOk result (λ file. (v : Datum) × IsPackable request.entry.options.repacks
        (tree_in request.entry) (names_in request.entry) v request.entry.input.now
        × IsFileOf request.entry.options.first_version (tree_in request.entry) (names_in request.entry) v file.items) }
    ensures stop { IfErr result (StopsPack request.entry) }
{
    let compiled = request.compiled;
    let options = request.options;
    if !options.repacks {
        let text = without_feed(request.input);
        let Ok(found) = file_of_text(alloc, compiled, options.first_version, text) else {
            return Err(Stop::Memory);
        };
        if let Some(file) = found {
            return Ok(file);
        }
    }
    let value = match value_of(alloc, request) {
        Ok(value) => value,
        Err(stop) => return Err(stop),
    };
    match file_of_value(alloc, compiled, options.first_version, &value) {
        Ok(file) => Ok(file),
        Err(_) => Err(Stop::Memory),
    }
}

/// The packed file of the value that is packed.
///
/// # Errors
///
/// `Input` where the bytes are none of such a value, or the file would be too long.
fn file_made(alloc: Global, request: Request<'_>) -> Result<Vec<u8>, Stop<'static>>
    requires ready { IsReady (tree_in request) (names_in request) }
    requires short { length request.input.now ≤ FILE_BYTES }
    ensures file { IfOk result (λ file. IsPackedBy request.entry.options.repacks request.entry.options.first_version
        (tree_in request.entry) (names_in request.entry) request.entry.input.now file.items) }
    ensures stop { IfErr result (StopsPack request.entry) }
{
    one_file();
    texts_differ(request.compiled.typed.types(), &request.compiled.names);
    let file = match file_found(alloc, request) {
        Ok(file) => file,
        Err(stop) => return Err(stop),
    };
    if file.len() as u64 > FILE_BYTES {
        return Err(Stop::Input(InputFault::Long(FILE_BYTES)));
    }
    Ok(file)
}

/// The packed file of a text or of a packed file, and what is printed then. That is there before the file is written, so that
/// memory cannot run out after it.
///
/// # Errors
///
/// `Input` where the bytes are none of a value of the type of main's parameter, or the file would be too long.
pub fn pack(alloc: Global, request: Request<'_>) -> Result<Made, Stop<'static>>
    requires ready { IsReady (tree_in request) (names_in request) }
    requires short { length request.input.now ≤ FILE_BYTES }
    ensures made { IfOk result (λ made. EndsBy (file_of made) made.end (Packs
        (tree_in request.entry) (names_in request.entry) request.entry.options request.entry.input.now)) }
    ensures stop { IfErr result (StopsPack request.entry) }
    ensures alone { IfOk result (λ made. made.packed ≡ None) }
{
    let file = match file_made(alloc, request) {
        Ok(file) => file,
        Err(stop) => return Err(stop),
    };
    let Ok(answer) = ok_answer(alloc) else {
        return Err(Stop::Memory);
    };
    Ok(Made {
        file: Some(file),
        packed: None,
        end: End::Prints(answer),
    })
}

//! The bytes of a packed file, looked over, and their value.

ghost use Rattle.std.specs.Prelude.{◌≡◌, IfOk, IfErr};
ghost use Rattle.gib_types.specs.Tree.{Datum};
ghost use Rattle.gib_file.specs.{Framed.{File}, Packed.{Packed}};
ghost use Rattle.gib_syntax.specs.{Parts.{program_of}, Declarations.{table_of_program, input_type}};
ghost use Rattle.gib_app.specs.{Stops.{IsPackedStop}, PassFaults.{packed_stop, payload_stop, schema_stop}};

use crate::input_fault::{InputFault, PackedFault};
use crate::stop::Stop;
use gib_base::Texts;
use gib_check::Typed;
use gib_file::{
    PackFault, SchemaFault, Survey, agree, file_is_content, read_header, refused_description,
    refused_file, refused_header, survey, unpack,
};
use gib_types::{Ty, TypeTable};
use gib_value::Value;
use std::alloc::Global;

/// Why a call stops at a second file that is no packed file.
pub fn of_packed(fault: PackedFault) -> Stop<'static>
    ensures { result ≡ packed_stop fault }
{
    Stop::Input(InputFault::Packed(fault))
}

/// Why it stops at what a packed file says of its types.
fn of_schema(fault: SchemaFault) -> Stop<'static>
    ensures { result ≡ schema_stop fault }
{
    match fault {
        SchemaFault::Memory => Stop::Memory,
        SchemaFault::At(place) => of_packed(PackedFault::Types(place)),
    }
}

/// Why it stops at the payload of a packed file.
fn of_payload(fault: PackFault) -> Stop<'static>
    ensures { result ≡ payload_stop fault }
{
    match fault {
        PackFault::Memory => Stop::Memory,
        PackFault::Short(place) => of_packed(PackedFault::Short(place)),
        PackFault::Tag(place) => of_packed(PackedFault::Tag(place)),
        PackFault::Truth(place) => of_packed(PackedFault::Truth(place)),
        PackFault::Trailing(place) => of_packed(PackedFault::Trailing(place)),
    }
}

/// The payload of the packed file of a value of this type.
///
/// # Errors
///
/// `Input` with the first fault of the header, else of what it says of its types, else of the payload; `Memory`.
pub fn survey_typed<'a>(
    alloc: Global,
    types: &'a TypeTable,
    ty: Ty,
    names: &Texts,
    bytes: &'a [u8],
) -> Result<Survey<'a>, Stop<'static>>
    ensures table { IfOk result (λ s. s.table ≡ types.now) }
    ensures ty { IfOk result (λ s. s.ty ≡ ty) }
    ensures file { IfOk result (λ s. (v : Datum) → Packed s.table s.ty v s.bytes → File types.now names.now.long ty v bytes.now) }
    ensures refused { IfErr result (IsPackedStop types.now names.now.long ty bytes.now) }
{
    file_is_content();
    refused_header();
    refused_description();
    refused_file();
    let payload = match read_header(bytes) {
        Ok(payload) => payload,
        Err(fault) => return Err(of_packed(PackedFault::Header(fault))),
    };
    match agree(alloc, types, names, ty, &payload) {
        Ok(()) => {}
        Err(fault) => return Err(of_schema(fault)),
    }
    match survey(alloc, types, ty, payload) {
        Ok(survey) => Ok(survey),
        Err(fault) => Err(of_payload(fault)),
    }
}

/// The payload of the packed file of a value of the type of main's parameter.
///
/// # Errors
///
/// As `survey_typed`.
pub fn survey_input<'a>(
    alloc: Global,
    typed: &'a Typed,
    names: &Texts,
    bytes: &'a [u8],
) -> Result<Survey<'a>, Stop<'static>>
    ensures table { IfOk result (λ s. s.table ≡ table_of_program (program_of typed.now)) }
    ensures ty { IfOk result (λ s. s.ty ≡ input_type (program_of typed.now)) }
    ensures file { IfOk result (λ s. (v : Datum) → Packed s.table s.ty v s.bytes
        → File (table_of_program (program_of typed.now)) names.now.long (input_type (program_of typed.now)) v bytes.now) }
    ensures refused { IfErr result (IsPackedStop (table_of_program (program_of typed.now)) names.now.long (input_type (program_of typed.now)) bytes.now) }
{
    let types = typed.types();
    let ty = typed.input_type();
    match survey_typed(alloc, types, ty, names, bytes) {
        Ok(survey) => Ok(survey),
        Err(stop) => Err(stop),
    }
}

/// The value of which the bytes are the packed file.
///
/// # Errors
///
/// As `survey_input`.
pub fn read_packed(
    alloc: Global,
    typed: &Typed,
    names: &Texts,
    bytes: &[u8],
) -> Result<Value, Stop<'static>>
    ensures read { IfOk result (λ v. File (table_of_program (program_of typed.now)) names.now.long (input_type (program_of typed.now)) v bytes.now) }
    ensures refused { IfErr result (IsPackedStop (table_of_program (program_of typed.now)) names.now.long (input_type (program_of typed.now)) bytes.now) }
{
    let survey = match survey_input(alloc, typed, names, bytes) {
        Ok(survey) => survey,
        Err(stop) => return Err(stop),
    };
    match unpack(alloc, survey) {
        Ok(value) => Ok(value),
        Err(_) => Err(Stop::Memory),
    }
}

//! Programs from their sources, and what they give.

ghost use Rattle.std.specs.Prelude.{◌≤◌, IfSome};
ghost use Rattle.gib_types.specs.Tree.{HasType};
ghost use Rattle.gib_syntax.specs.{Spelling.{levels_program}, GenericParts.{generic_program_of}, Parts.{program_of}};
ghost use Rattle.gib_syntax.specs.Declarations.{table_of_program, input_type};
ghost use Rattle.gib_app.specs.Stops.{IsReady};

use gib_app::compile::{Compiled, compile as compile_bytes};
use gib_base::Names;
use gib_check::Typed;
use gib_file::{read_header, survey, unpack};
use gib_lex::lex;
use gib_parse::parse;
use gib_plain::{Outcome, plain};
use gib_syntax::GenericProgram;
use gib_syntax::law::results_are_typed;
use gib_types::Reason;
use gib_unit_tests::bytes::packed;
use gib_value::{Value, write_text};
use std::alloc::{AllocError, Global};

/// A program, and the names of its source.
#[derive(Drop)]
pub struct Parsed {
    pub program: GenericProgram,
    pub names: Names,
}

/// The program of a source, where it is one.
pub fn parse_source(alloc: Global, source: &str) -> Option<Parsed>
    ensures { IfSome result (λ p. levels_program (generic_program_of p.program) ≤ 200) }
{
    let Ok(tokens) = lex(alloc, source.as_bytes()) else {
        return None;
    };
    let Ok(program) = parse(alloc, &tokens) else {
        return None;
    };
    Some(Parsed {
        program,
        names: tokens.into_names(),
    })
}

/// The copy of the typed program of a source, where it is one.
pub fn compile(alloc: Global, source: &str) -> Option<Compiled>
    ensures { IfSome result (λ c. IsReady (program_of c.typed) c.names) }
{
    compile_bytes(alloc, source.as_bytes()).ok()
}

/// The value of a packed file, where it is one of the type of main's parameter.
pub fn read_value(alloc: Global, typed: &Typed, file: &[u8]) -> Option<Value>
    ensures { IfSome result (λ v. HasType (table_of_program (program_of typed.now)) v (input_type (program_of typed.now))) }
{
    let ty = typed.input_type();
    let Ok(payload) = read_header(file) else {
        return None;
    };
    let Ok(survey) = survey(alloc, typed.types(), ty, payload) else {
        return None;
    };
    unpack(alloc, survey).ok()
}

/// The text of what a program gives on a value; `deep` where its calls nest deeper than this, `trap` where it divides by 0.
pub fn run(
    alloc: Global,
    compiled: &Compiled,
    value: Value,
    depth: u32,
) -> Result<Vec<u8>, AllocError>
    requires ready { IsReady (program_of compiled.now.typed) compiled.now.names }
    requires typed { HasType (table_of_program (program_of compiled.now.typed)) value (input_type (program_of compiled.now.typed)) }
{
    let _program = compiled.typed.program();
    results_are_typed();
    let result = match plain(alloc, &compiled.typed, value, depth) {
        Ok(Outcome::Gives(result)) => result,
        Ok(Outcome::NoValue(Reason::Deep)) => return Vec::from_slice(alloc, b"deep"),
        Ok(Outcome::NoValue(Reason::Trap)) => return Vec::from_slice(alloc, b"trap"),
        Err(_) => return Err(AllocError),
    };
    let types = compiled.typed.types();
    match write_text(alloc, types, &compiled.names, &result) {
        Ok(text) => Ok(text),
        Err(_) => Err(AllocError),
    }
}

/// The text of what a program gives on a packed file; `deep` where its calls nest deeper than this, and nothing where
/// the file isn't read.
fn run_on(
    alloc: Global,
    compiled: &Compiled,
    file: &[u8],
    depth: u32,
) -> Result<Vec<u8>, AllocError>
    requires { IsReady (program_of compiled.now.typed) compiled.now.names }
{
    let Some(value) = read_value(alloc, &compiled.typed, file) else {
        return Ok(Vec::new(alloc));
    };
    run(alloc, compiled, value, depth)
}

/// The same, of a source and a packed payload; nothing also where the source is no typed program.
pub fn meaning(
    alloc: Global,
    source: &str,
    payload: &[u8],
    depth: u32,
) -> Result<Vec<u8>, AllocError> {
    let file = packed(alloc, payload)?;
    match compile(alloc, source) {
        Some(compiled) => run_on(alloc, &compiled, &file, depth),
        None => Ok(Vec::new(alloc)),
    }
}

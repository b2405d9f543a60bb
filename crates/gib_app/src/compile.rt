//! A source text to a typed program without type parameters.

ghost use Rattle.std.specs.Prelude.{◌≡◌, List, Ok, Err, length, IfOk, IfErr, MatchResult};
ghost use Rattle.std.specs.List.{AllByRecursion};
ghost use Rattle.gib_base.specs.{Lexed.{Lexed, IsLexed}, Texts.{TextsView}};
ghost use Rattle.gib_syntax.specs.{Tree.{ProgramTree}, GenericTree.{GenericProgramTree}, Parts.{program_of}, GenericParts.{generic_program_of}};
ghost use Rattle.gib_syntax.specs.{GenericFine.{HasGenericConstructor}, GenericTyping.{IsTypedGeneric}, Source.{Spells}};
ghost use Rattle.gib_mono.specs.{Walk.{Copy, copies_of}, Naming.{AreNamedBelow}};
ghost use Rattle.gib_app.specs.{Running.{IsProgram, IsCopy}, Stops.{IsReady, IsCompileStop, IsCopyStop}};
ghost use Rattle.gib_app.specs.PassFaults.{lex_stop, parse_stop, check_stop, copy_stop};

use crate::source_fault::SourceFault;
use crate::stop::Stop;
use gib_base::{Names, Texts};
use gib_check::laws::faults_are_exact;
use gib_check::{Generic, TypeFault, Typed, check};
use gib_lex::laws::{one_reading, one_refusal};
use gib_lex::{LexFault, Tokens, lex};
use gib_mono::{MonoFault, mono, texts};
use gib_parse::law::{one_blame, one_text};
use gib_parse::{ParseFault, parse};
use std::alloc::Global;

/// A typed program without type parameters, the copy of its source's, and the texts of its names.
#[derive(Drop)]
pub struct Compiled {
    pub typed: Typed,
    pub names: Texts,
}

/// Why a call stops at a text without tokens.
fn of_lexing(fault: LexFault) -> Stop<'static>
    ensures { result ≡ lex_stop fault }
{
    match fault {
        LexFault::Memory => Stop::Memory,
        LexFault::Long => Stop::Source(SourceFault::Long),
        LexFault::At(place) => Stop::Source(SourceFault::BadCharacter(place)),
        LexFault::Big(place) => Stop::Source(SourceFault::BigNumber(place)),
        LexFault::Many => Stop::Source(SourceFault::ManyNames),
    }
}

/// Why it stops at tokens that are no program.
fn of_parsing(fault: ParseFault) -> Stop<'static>
    ensures { result ≡ parse_stop fault }
{
    match fault {
        ParseFault::Memory => Stop::Memory,
        ParseFault::At(place) => Stop::Source(SourceFault::Syntax(place)),
        ParseFault::Nested(place) => Stop::Source(SourceFault::Nested(place)),
    }
}

/// Why it stops at a program that is not typed.
fn of_checking(fault: TypeFault) -> Stop<'static>
    ensures { result ≡ check_stop fault }
{
    match fault {
        TypeFault::Memory => Stop::Memory,
        TypeFault::Broken(fault) => {
            Stop::Source(SourceFault::Broken(fault.kind, fault.span.start))
        }
    }
}

/// Why it stops at a program that is not copied.
fn of_copying(fault: MonoFault) -> Stop<'static>
    ensures { result ≡ copy_stop fault }
{
    match fault {
        MonoFault::Memory => Stop::Memory,
        MonoFault::Limit(span) => Stop::Source(SourceFault::OverLimit(span.start)),
    }
}

/// The copy of a program, with the texts of its names.
///
/// # Errors
///
/// `Source` with the first use that is over a limit; `Memory`.
fn copied(alloc: Global, generic: Generic, names: Names) -> Result<Compiled, Stop<'static>>
    requires below { AreNamedBelow (length names) (generic_program_of generic) }
    requires typed { IsTypedGeneric (generic_program_of generic) }
    requires fine { AllByRecursion HasGenericConstructor (generic_program_of generic).datas }
    ensures copy { IfOk result (λ c. IsCopy (generic_program_of generic) names (program_of c.typed) c.names) }
    ensures refused { IfErr result (IsCopyStop (generic_program_of generic)) }
    ensures only { (found : List Copy) → copies_of (generic_program_of generic) ≡ Ok found → IfErr result (λ stop. stop ≡ Stop.Memory) }
{
    let mono = match mono(alloc, generic, names.len()) {
        Ok(mono) => mono,
        Err(fault) => return Err(of_copying(fault)),
    };
    match texts(alloc, names, &mono.copies) {
        Ok(names) => Ok(Compiled {
            typed: mono.typed,
            names,
        }),
        Err(_) => Err(Stop::Memory),
    }
}

/// The typed program that tokens spell.
///
/// # Errors
///
/// `Source` with the first fault, in the order of parsing and typing; `Memory`.
fn typed(alloc: Global, source: &[u8], tokens: &Tokens) -> Result<Generic, Stop<'static>>
    requires lexed { IsLexed source.now tokens.now }
    ensures spelled { IfOk result (λ g. Spells source.now tokens.now (generic_program_of g)) }
    ensures refused { IfErr result (IsCompileStop source.now) }
    ensures only { (l : Lexed) (g : GenericProgramTree) → Spells source.now l g → IsTypedGeneric g
        → MatchResult result (λ generic. generic_program_of generic ≡ g) (λ stop. stop ≡ Stop.Memory) }
{
    one_reading();
    one_text();
    one_blame();
    faults_are_exact();
    let _known = tokens.tokens();
    let program = match parse(alloc, tokens) {
        Ok(program) => program,
        Err(fault) => return Err(of_parsing(fault)),
    };
    match check(alloc, program) {
        Ok(generic) => Ok(generic),
        Err(fault) => Err(of_checking(fault)),
    }
}

/// The program that a source spells, as its copy.
///
/// # Errors
///
/// `Source` with the first fault, in the order of lexing, parsing, typing and copying; `Memory`.
pub fn compile(alloc: Global, source: &[u8]) -> Result<Compiled, Stop<'static>>
    ensures compiled { IfOk result (λ c. IsProgram source.now c.names (program_of c.typed)) }
    ensures ready { IfOk result (λ c. IsReady (program_of c.typed) c.names) }
    ensures refused { IfErr result (IsCompileStop source.now) }
    ensures only { (names : TextsView) (p : ProgramTree) → IsProgram source.now names p
        → MatchResult result (λ c. (program_of c.typed ≡ p) × (c.names ≡ names)) (λ stop. stop ≡ Stop.Memory) }
{
    one_reading();
    one_refusal();
    one_text();
    let tokens = match lex(alloc, source) {
        Ok(tokens) => tokens,
        Err(fault) => return Err(of_lexing(fault)),
    };
    let _known = tokens.tokens();
    let generic = match typed(alloc, source, &tokens) {
        Ok(generic) => generic,
        Err(stop) => return Err(stop),
    };
    let _typed = generic.program();
    match copied(alloc, generic, tokens.into_names()) {
        Ok(compiled) => Ok(compiled),
        Err(stop) => Err(stop),
    }
}

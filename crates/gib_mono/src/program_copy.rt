//! The copy of a program with type parameters.

ghost use Rattle.std.specs.Prelude.{◌≡◌, ℕ, List, length, Ok, Err, IfOk, IfErr, MatchResult};
ghost use Rattle.gib_base.specs.declared.Span.{Span as SpanOf};
ghost use Rattle.gib_syntax.specs.{GenericParts.{generic_program_of}, GenericTyping.{IsTypedGeneric}, Parts.{program_of}, Typing.{IsTypedProgram}};
ghost use Rattle.gib_mono.specs.{Walk.{Copy, copies_of, copied_program, plain_copies}, Naming.{entries, naming_of, AreNamedBelow}};
ghost use Rattle.gib_mono.specs.{Bare.{AreSingleTrees, IsPlainProgram, bare_program}, Entries.{items_of}, Sources.{globals_in}};
ghost use Rattle.gib_mono.specs.Declaring.{AreKeysInside, CopiesKeys, Finds, IsCopyOf};
ghost use Rattle.gib_mono.specs.Limits.{IsLimitOf, IsMemory, IsMemoryOr};

use crate::copier::Copier;
use crate::copy_names::CopyNames;
use crate::declaring::{Declarations, copy_all, copy_main};
use crate::find::{Asked, find_copies};
use crate::found::{CopyKey, MonoFault};
use crate::naming::name_copies;
use crate::plain::{bare_program, is_plain};
use crate::plain_names::plain_names;
use crate::scene::Scene;
use crate::source::Source;
use gib_base::Memory;
use gib_check::{Generic, Typed};
use gib_syntax::{Exprs, GenericProgram, MainDecl, Program};
use std::alloc::Global;

/// A program's copy, which is typed, and what its copies are called.
#[derive(Drop)]
pub struct MonoProgram {
    pub typed: Typed,
    pub copies: CopyNames,
}

/// What is copied of a program, beside its expressions.
#[derive(Drop)]
struct ProgramParts {
    declared: Declarations,
    main: MainDecl,
}

/// The copies of these keys and of main. The copier is owned by the caller, which has one way out by want of memory: each way
/// out that owns it would drop all of it.
fn copy_keys(copier: &mut Copier, source: &Source, keys: &[CopyKey]) -> Result<ProgramParts, Memory>
    requires { AreKeysInside (globals_in source.now) (length copier.old.scene.types) keys.now }
    ensures { IfOk result (λ c. CopiesKeys source.now copier.old copier.new keys.now c.declared.datas.items c.declared.functions.items c.main) }
{
    name_copies(copier, source, keys)?;
    let declared = copy_all(copier, source, keys)?;
    let main = copy_main(copier, source)?;
    Ok(ProgramParts { declared, main })
}

/// The copied program and what its copies are called, for copies that were found.
fn copy_program(
    alloc: Global,
    source: &Source,
    asked: Asked,
    base: u32,
) -> Result<(Program, CopyNames), Memory>
    requires finds { Finds source.now asked }
    requires below { AreNamedBelow base (generic_program_of source.now) }
    ensures { IfOk result (λ m. IsTypedProgram (program_of m.0) × IsCopyOf (generic_program_of source.now) base (program_of m.0) (items_of m.1)) }
{
    let _program = source.program();
    let scene = Scene::new(alloc, asked.context.into_types());
    let mut copier = Copier {
        alloc,
        scene,
        parts: Vec::new(alloc),
        base,
        exprs: Exprs::new(alloc),
    };
    let parts = copy_keys(&mut copier, source, asked.found.keys())?;
    let declared = parts.declared;
    let program = Program::new(copier.exprs, declared.datas, declared.functions, parts.main);
    let copies = copier.scene.into_copies();
    Ok((program, copies))
}

/// The copied program, typed, for copies that were found.
fn copy_asked(
    alloc: Global,
    source: &Source,
    asked: Asked,
    base: u32,
) -> Result<MonoProgram, Memory>
    requires finds { Finds source.now asked }
    requires below { AreNamedBelow base (generic_program_of source.now) }
    ensures { IfOk result (λ m. (found : List Copy) × (copies_of (generic_program_of source.now) ≡ Ok found)
        × (program_of m.typed ≡ copied_program (generic_program_of source.now) (naming_of base (entries found)) found) × (items_of m.copies ≡ entries found)) }
{
    let (program, copies) = copy_program(alloc, source, asked, base)?;
    let typed = Typed::of(alloc, program)?;
    Ok(MonoProgram { typed, copies })
}

/// The copied program where no declaration has type variables: it is the program as it stands.
fn copy_plain(alloc: Global, program: GenericProgram) -> Result<MonoProgram, Memory>
    requires typed { IsTypedGeneric (generic_program_of program) }
    requires plain { IsPlainProgram (generic_program_of program) }
    requires single { AreSingleTrees program.exprs }
    requires below { (base : ℕ) × AreNamedBelow base (generic_program_of program) }
    ensures { IfOk result (λ m. (program_of m.typed ≡ bare_program (generic_program_of program)) × (items_of m.copies ≡ entries (plain_copies (generic_program_of program)))) }
{
    let _inside = program.main();
    let copies = plain_names(alloc, &program)?;
    let program = bare_program(alloc, program)?;
    let typed = Typed::of(alloc, program)?;
    Ok(MonoProgram { typed, copies })
}

/// The copied program where some declaration has type variables.
fn copy_generic(alloc: Global, program: GenericProgram, base: u32) -> Result<MonoProgram, MonoFault>
    requires typed { IsTypedGeneric (generic_program_of program) }
    requires below { AreNamedBelow base (generic_program_of program) }
    ensures copied { IfOk result (λ m. (found : List Copy) × (copies_of (generic_program_of program) ≡ Ok found)
        × (program_of m.typed ≡ copied_program (generic_program_of program) (naming_of base (entries found)) found) × (items_of m.copies ≡ entries found)) }
    ensures limit { IfErr result (IsLimitOf (copies_of (generic_program_of program))) }
    ensures only { (found : List Copy) → copies_of (generic_program_of program) ≡ Ok found → IfErr result IsMemory }
    ensures told { (span : SpanOf) → copies_of (generic_program_of program) ≡ Err span → MatchResult result (λ _. ⊥) (IsMemoryOr span) }
{
    let Ok(source) = Source::make(alloc, program) else {
        return Err(MonoFault::Memory);
    };
    let asked = find_copies(alloc, &source)?;
    match copy_asked(alloc, &source, asked, base) {
        Ok(mono) => Ok(mono),
        Err(_) => Err(MonoFault::Memory),
    }
}

/// The copy of a program, whose names are below a number, for the types with which its declarations are used.
///
/// # Errors
///
/// At the first use over a limit; want of memory.
pub fn mono(alloc: Global, generic: Generic, base: u32) -> Result<MonoProgram, MonoFault>
    requires below { AreNamedBelow base (generic_program_of generic) }
    ensures copied { IfOk result (λ m. (found : List Copy) × (copies_of (generic_program_of generic) ≡ Ok found)
        × (program_of m.typed ≡ copied_program (generic_program_of generic) (naming_of base (entries found)) found) × (items_of m.copies ≡ entries found)) }
    ensures limit { IfErr result (IsLimitOf (copies_of (generic_program_of generic))) }
    // Where all uses are within the limits, want of memory alone refuses.
    ensures only { (found : List Copy) → copies_of (generic_program_of generic) ≡ Ok found → IfErr result IsMemory }
    // Where one is not, the first one is answered.
    ensures told { (span : SpanOf) → copies_of (generic_program_of generic) ≡ Err span → MatchResult result (λ _. ⊥) (IsMemoryOr span) }
{
    let program = generic.into_program();
    if !is_plain(&program) {
        return copy_generic(alloc, program, base);
    }
    match copy_plain(alloc, program) {
        Ok(mono) => Ok(mono),
        Err(_) => Err(MonoFault::Memory),
    }
}

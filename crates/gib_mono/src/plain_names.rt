//! The names of the copies of a program without type variables: its own names, each once.

ghost use Rattle.std.specs.Prelude.{◌≡◌, map, IfOk};
ghost use Rattle.gib_syntax.specs.{Forms.{NoForm}, GenericParts.{generic_program_of}};
ghost use Rattle.gib_mono.specs.{Bare.{IsPlainProgram, data_names, datas_names, function_names}, Declaring.{own_entry}, Entries.{items_of}};
ghost use Rattle.gib_mono.specs.{Naming.{entries, entry, with_entries, with_entry}, Scenes.{names_in}, Walk.{plain_copies}};

use crate::copy_names::CopyNames;
use crate::scene::Scene;
use gib_base::{Memory, Name};
use gib_syntax::{GenericConstructor, GenericData, GenericFunction, GenericProgram};
use gib_types::types::Types;
use std::alloc::Global;

/// A name is named, where it is none of those that are.
fn put_name(alloc: Global, names: &mut Scene, name: Name) -> Result<(), Memory>
    ensures { IfOk result (λ _. names_in names.new ≡ with_entry (names_in names.old) (entry name.0 NoForm)) }
{
    names.put_entry(name, Vec::new(alloc))
}

/// The constructors of a type are named.
fn put_constructors(
    alloc: Global,
    names: &mut Scene,
    constructors: &[GenericConstructor],
) -> Result<(), Memory>
    ensures { IfOk result (λ _. names_in names.new ≡ with_entries (names_in names.old) (map (own_entry NoForm) constructors.now)) }
{
    let mut rest = constructors;
    'constructors: while let [constructor, after @ ..] = rest {
        put_name(alloc, names, constructor.name.name)?;
        rest = after;
    }
    Ok(())
}

/// A declared type is named, with its constructors.
fn put_data(alloc: Global, names: &mut Scene, declaration: &GenericData) -> Result<(), Memory>
    ensures { IfOk result (λ _. names_in names.new ≡ with_entries (names_in names.old) (data_names declaration.now)) }
{
    put_name(alloc, names, declaration.name.name)?;
    put_constructors(alloc, names, &declaration.constructors)
}

/// All declared types are named.
fn put_datas(alloc: Global, names: &mut Scene, datas: &[GenericData]) -> Result<(), Memory>
    ensures { IfOk result (λ _. names_in names.new ≡ with_entries (names_in names.old) (datas_names datas.now)) }
{
    let mut rest = datas;
    'datas: while let [declaration, after @ ..] = rest {
        put_data(alloc, names, declaration)?;
        rest = after;
    }
    Ok(())
}

/// All functions are named.
fn put_functions(
    alloc: Global,
    names: &mut Scene,
    functions: &[GenericFunction],
) -> Result<(), Memory>
    ensures { IfOk result (λ _. names_in names.new ≡ with_entries (names_in names.old) (function_names functions.now)) }
{
    let mut rest = functions;
    'functions: while let [function, after @ ..] = rest {
        put_name(alloc, names, function.name.name)?;
        rest = after;
    }
    Ok(())
}

/// The names of the declarations of a program, none of which has type variables.
///
/// # Errors
///
/// Want of memory.
pub fn plain_names(alloc: Global, program: &GenericProgram) -> Result<CopyNames, Memory>
    requires { IsPlainProgram (generic_program_of program.now) }
    ensures { IfOk result (λ names. items_of names ≡ entries (plain_copies (generic_program_of program.now))) }
{
    let mut names = Scene::new(alloc, Types::new(alloc));
    put_datas(alloc, &mut names, program.datas())?;
    put_functions(alloc, &mut names, program.functions())?;
    Ok(names.into_copies())
}

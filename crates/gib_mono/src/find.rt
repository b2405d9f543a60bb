//! The first phase: all copies of a program, in the order in which they are first asked for.

ghost use Rattle.std.specs.Prelude.{◌≡◌, ◌<◌, List, [], ◌++◌, map, length, slice_get, Some, None, Ok, IfOk, IfErr};
ghost use Rattle.std.specs.List.{AllByRecursion};
ghost use Rattle.gib_types.specs.Types.{forms_at, AreBelow};
ghost use Rattle.gib_syntax.specs.GenericArena.{tree_of};
ghost use Rattle.gib_syntax.specs.GenericParts.{generic_program_of, constructor_in, parameter_in, results_in, IsParameterInside, AreResultsInside};
ghost use Rattle.gib_syntax.specs.{GenericTree.{GenericDataTree, GenericFunctionTree, GenericParameterTree}, Words.{type_in, IsTypeRun}};
ghost use Rattle.gib_mono.specs.{Contexts.{forms}, Found.{IsFound}, Limits.{IsLimitOf, IsMemory}, Closed.{IsGood}};
ghost use Rattle.gib_mono.specs.{Searching.{IsAt, IsOpen, Walked, Asks, AsksAll}, Sources.{globals_in}};
ghost use Rattle.gib_mono.specs.Walk.{Copy, DataOf, FunctionOf, copies_of, copy_asks, main_asks, copies_asks, constructor_asks, function_asks, results_asks, types_asks, plain_copies, plain_data, plain_function};

use crate::asks::ask_expression;
use crate::context::Context;
use crate::found::{CopyKey, Found, MonoFault};
use crate::search::{Search, add, ask_types};
use crate::source::Source;
use gib_base::Memory;
use gib_syntax::{ExprId, GenericConstructor, GenericParameter, ResultRuns, Run};
use gib_types::types::TypeId;
use std::alloc::Global;

/// All copies of a program, with the types that were met.
#[derive(Drop)]
pub struct Asked {
    pub context: Context,
    pub found: Found,
}

/// What the fields of constructors use is asked for.
fn ask_fields(
    search: &mut Search,
    source: &Source,
    constructors: &[GenericConstructor],
) -> Result<(), Memory>
    ensures { IfOk result (λ _. Asks (globals_in source.now) search.old search.new (λ m. constructor_asks m (map (constructor_in source.now.exprs.words) constructors.now))) }
{
    let mut rest = constructors;
    'constructors: while let [constructor, after @ ..] = rest {
        ask_types(search, source, source.words(constructor.fields))?;
        rest = after;
    }
    Ok(())
}

/// What the types of parameters use is asked for.
fn ask_parameters(
    search: &mut Search,
    source: &Source,
    parameters: &[GenericParameter],
) -> Result<(), Memory>
    requires { AllByRecursion (IsParameterInside source.now.exprs.words) parameters.now }
    ensures { IfOk result (λ _. Asks (globals_in source.now) search.old search.new (λ m. types_asks m (map (λ (q : GenericParameterTree). q.ty) (map (parameter_in source.now.exprs.words) parameters.now)))) }
{
    let mut rest = parameters;
    'parameters: while let [parameter, after @ ..] = rest {
        ask_types(search, source, source.words(parameter.ty))?;
        rest = after;
    }
    Ok(())
}

/// What the types of parts use is asked for.
fn ask_parts(search: &mut Search, source: &Source, runs: &[Run]) -> Result<(), Memory>
    requires { AllByRecursion (IsTypeRun source.now.exprs.words) runs.now }
    ensures { IfOk result (λ _. Asks (globals_in source.now) search.old search.new (λ m. types_asks m (map (type_in source.now.exprs.words) runs.now))) }
{
    let mut rest = runs;
    'runs: while let [run, after @ ..] = rest {
        ask_types(search, source, source.words(*run))?;
        rest = after;
    }
    Ok(())
}

/// What the type of a result uses, or those of the parts, is asked for.
fn ask_results(search: &mut Search, source: &Source, gives: &ResultRuns) -> Result<(), Memory>
    requires { AreResultsInside source.now.exprs.words gives.now }
    ensures { IfOk result (λ _. Asks (globals_in source.now) search.old search.new (λ m. results_asks m (results_in source.now.exprs.words gives.now))) }
{
    match gives {
        ResultRuns::One(run) => ask_types(search, source, source.words(*run)),
        ResultRuns::Several(runs) => ask_parts(search, source, runs),
    }
}

/// What parameters, what a function gives and a body use is asked for.
fn ask_function(
    search: &mut Search,
    source: &Source,
    parameters: &[GenericParameter],
    gives: &ResultRuns,
    body: ExprId,
) -> Result<(), Memory>
    requires parameters { AllByRecursion (IsParameterInside source.now.exprs.words) parameters.now }
    requires gives { AreResultsInside source.now.exprs.words gives.now }
    requires body { body.0 < length source.now.exprs.nodes }
    ensures { IfOk result (λ _. Asks (globals_in source.now) search.old search.new (λ m. function_asks (globals_in source.now).rows m (map (parameter_in source.now.exprs.words) parameters.now) (results_in source.now.exprs.words gives.now) (tree_of source.now.exprs body.0))) }
{
    ask_parameters(search, source, parameters)?;
    ask_results(search, source, gives)?;
    ask_expression(search, source, body)?;
    Ok(())
}

/// What the copy of a declared type uses is asked for.
fn ask_data_copy(
    search: &mut Search,
    source: &Source,
    place: u32,
    types: Vec<TypeId>,
) -> Result<(), Memory>
    requires place { place < length (globals_in source.now).datas }
    requires below { AreBelow (length search.old.context.types) types.items }
    ensures { (d : GenericDataTree) → slice_get (globals_in source.now).datas place ≡ Some d
        → IfOk result (λ _. AsksAll (globals_in source.now) search.old search.new (copy_asks (globals_in source.now).rows (DataOf d (forms_at (forms search.old.context) types.items)))) }
{
    let data = source.data_decl(place);
    let variables = Vec::from_slice(search.alloc, &data.variables)?;
    search.context.enter(variables, types);
    ask_fields(search, source, &data.constructors)?;
    Ok(())
}

/// What the copy of a function uses is asked for.
fn ask_function_copy(
    search: &mut Search,
    source: &Source,
    place: u32,
    types: Vec<TypeId>,
) -> Result<(), Memory>
    requires place { place < length (globals_in source.now).functions }
    requires below { AreBelow (length search.old.context.types) types.items }
    ensures { (f : GenericFunctionTree) → slice_get (globals_in source.now).functions place ≡ Some f
        → IfOk result (λ _. AsksAll (globals_in source.now) search.old search.new (copy_asks (globals_in source.now).rows (FunctionOf f (forms_at (forms search.old.context) types.items)))) }
{
    let function = source.function_decl(place);
    let variables = Vec::from_slice(search.alloc, &function.variables)?;
    search.context.enter(variables, types);
    ask_function(
        search,
        source,
        &function.parameters,
        &function.result,
        function.body,
    )?;
    Ok(())
}

/// What main uses is asked for.
fn ask_main(search: &mut Search, source: &Source) -> Result<(), Memory>
    ensures { IfOk result (λ _. AsksAll (globals_in source.now) search.old search.new (main_asks (generic_program_of source.now))) }
{
    let main = source.program().main();
    let alloc = search.alloc;
    search.context.enter(Vec::new(alloc), Vec::new(alloc));
    let parameters = [main.parameter];
    let gives = ResultRuns::One(main.result);
    ask_function(search, source, &parameters, &gives, main.body)?;
    Ok(())
}

/// What the copy of a place uses is asked for.
fn ask_copy(search: &mut Search, source: &Source, place: usize) -> Result<(), Memory>
    requires place { place < length search.old.found.keys }
    requires open { IsOpen (globals_in source.now) search.old }
    ensures { (found : List Copy) (c : Copy) → IsAt (globals_in source.now) search.old (Ok found) → slice_get found place ≡ Some c
        → IfOk result (λ _. AsksAll (globals_in source.now) search.old search.new (copy_asks (globals_in source.now).rows c)) }
{
    let key = search.found.copy_key(search.alloc, place)?;
    match key {
        CopyKey::Data(declared, types) => ask_data_copy(search, source, declared, types),
        CopyKey::Function(declared, types) => ask_function_copy(search, source, declared, types),
    }
}

/// A declared type without type variables is a copy of its own.
fn add_plain_type(search: &mut Search, source: &Source, place: u32) -> Result<(), Memory>
    requires place { place < length (globals_in source.now).datas }
    requires on { search.old.limit ≡ None }
    ensures { (d : GenericDataTree) (done rest : List Copy) → slice_get (globals_in source.now).datas place ≡ Some d → IsGood (globals_in source.now) (done ++ plain_data d d.variables rest) → IsAt (globals_in source.now) search.old (Ok done)
        → IfOk result (λ _. IsAt (globals_in source.now) search.new (Ok (done ++ plain_data d d.variables []))) }
{
    let data = source.data_decl(place);
    if !data.variables.is_empty() {
        return Ok(());
    }
    let key = CopyKey::Data(place, Vec::new(search.alloc));
    let constructors = source.constructors_of(place);
    let _typed = source.program();
    let _count = search.context.types().len();
    add(search, key, constructors, data.name.span)
}

/// A function without type variables is a copy of its own.
fn add_plain_function(search: &mut Search, source: &Source, place: u32) -> Result<(), Memory>
    requires place { place < length (globals_in source.now).functions }
    requires on { search.old.limit ≡ None }
    ensures { (f : GenericFunctionTree) (done rest : List Copy) → slice_get (globals_in source.now).functions place ≡ Some f → IsGood (globals_in source.now) (done ++ plain_function f f.variables rest) → IsAt (globals_in source.now) search.old (Ok done)
        → IfOk result (λ _. IsAt (globals_in source.now) search.new (Ok (done ++ plain_function f f.variables []))) }
{
    let function = source.function_decl(place);
    if !function.variables.is_empty() {
        return Ok(());
    }
    let key = CopyKey::Function(place, Vec::new(search.alloc));
    let _typed = source.program();
    let _count = search.context.types().len();
    add(search, key, 0, function.name.span)
}

/// The declarations without type variables are the first copies, the types before the functions.
fn add_plain(search: &mut Search, source: &Source) -> Result<(), Memory>
    requires { IsAt (globals_in source.now) search.old (Ok []) }
    ensures { IfOk result (λ _. IsAt (globals_in source.now) search.new (Ok (plain_copies (generic_program_of source.now)))) }
{
    let _typed = source.program();
    let types = source.type_count()?;
    let functions = source.function_count()?;
    let mut next = 0_u32;
    'each_type: while next < types {
        add_plain_type(search, source, next)?;
        next += 1;
    }
    let mut next = 0_u32;
    'each_function: while next < functions {
        add_plain_function(search, source, next)?;
        next += 1;
    }
    Ok(())
}

/// What a declared type without type variables uses is asked for.
fn ask_plain_type(search: &mut Search, source: &Source, place: u32) -> Result<(), Memory>
    requires { place < length (globals_in source.now).datas }
    ensures { (d : GenericDataTree) → slice_get (globals_in source.now).datas place ≡ Some d
        → IfOk result (λ _. AsksAll (globals_in source.now) search.old search.new (copies_asks (globals_in source.now).rows (plain_data d d.variables []))) }
{
    let data = source.data_decl(place);
    if !data.variables.is_empty() {
        return Ok(());
    }
    let types = Vec::new(search.alloc);
    ask_data_copy(search, source, place, types)
}

/// What a function without type variables uses is asked for.
fn ask_plain_function(search: &mut Search, source: &Source, place: u32) -> Result<(), Memory>
    requires { place < length (globals_in source.now).functions }
    ensures { (f : GenericFunctionTree) → slice_get (globals_in source.now).functions place ≡ Some f
        → IfOk result (λ _. AsksAll (globals_in source.now) search.old search.new (copies_asks (globals_in source.now).rows (plain_function f f.variables []))) }
{
    let function = source.function_decl(place);
    if !function.variables.is_empty() {
        return Ok(());
    }
    let types = Vec::new(search.alloc);
    ask_function_copy(search, source, place, types)
}

/// What the declarations without type variables use is asked for, then what main uses.
fn ask_plain(search: &mut Search, source: &Source) -> Result<(), Memory>
    ensures { IfOk result (λ _. AsksAll (globals_in source.now) search.old search.new (copies_asks (globals_in source.now).rows (plain_copies (generic_program_of source.now)) ++ main_asks (generic_program_of source.now))) }
{
    let types = source.type_count()?;
    let functions = source.function_count()?;
    let mut next = 0_u32;
    'each_type: while next < types {
        ask_plain_type(search, source, next)?;
        next += 1;
    }
    let mut next = 0_u32;
    'each_function: while next < functions {
        ask_plain_function(search, source, next)?;
        next += 1;
    }
    ask_main(search, source)
}

/// Copies are walked from a place on, the first found first, until none is left or a use is over a limit.
fn walk(search: &mut Search, source: &Source, from: usize) -> Result<(), Memory>
    requires { Walked (generic_program_of source.now) from search.old from }
    ensures { IfOk result (λ _. IsAt (globals_in source.now) search.new (copies_of (generic_program_of source.now))) }
{
    let _inside = source.program();
    let mut next = from;
    'copies: while next < search.found.len() {
        if search.limit.is_some() {
            return Ok(());
        }
        ask_copy(search, source, next)?;
        next += 1;
    }
    Ok(())
}

/// The search for all copies, the plain ones first.
fn search_copies(search: &mut Search, source: &Source) -> Result<(), Memory>
    requires { IsAt (globals_in source.now) search.old (Ok []) }
    ensures { IfOk result (λ _. IsAt (globals_in source.now) search.new (copies_of (generic_program_of source.now))) }
{
    add_plain(search, source)?;
    let plain = search.found.len();
    ask_plain(search, source)?;
    walk(search, source, plain)
}

/// All copies of a program, in the order in which they are first asked for.
///
/// # Errors
///
/// Want of memory, or the first use that is over a limit.
pub fn find_copies(alloc: Global, source: &Source) -> Result<Asked, MonoFault>
    ensures found { IfOk result (λ asked. (found : List Copy) × (copies_of (generic_program_of source.now) ≡ Ok found) × IsFound (globals_in source.now) (forms asked.context) asked.found found) }
    ensures limit { IfErr result (IsLimitOf (copies_of (generic_program_of source.now))) }
    ensures only { (found : List Copy) → copies_of (generic_program_of source.now) ≡ Ok found → IfErr result IsMemory }
{
    let mut search = Search {
        alloc,
        context: Context::new(alloc),
        found: Found::new(alloc),
        limit: None,
    };
    match search_copies(&mut search, source) {
        Ok(()) => {}
        Err(_) => return Err(MonoFault::Memory),
    }
    match search.limit {
        Some(span) => Err(MonoFault::Limit(span)),
        None => Ok(Asked {
            context: search.context,
            found: search.found,
        }),
    }
}

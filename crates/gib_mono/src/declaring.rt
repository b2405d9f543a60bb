//! The second phase, declarations: each is copied with types put for its type variables.

ghost use Rattle.std.specs.Prelude.{◌≡◌, ◌<◌, [], ◌∷◌, length, map, slice_get, Some, IfOk};
ghost use Rattle.gib_types.specs.Types.{forms_at, AreBelow};
ghost use Rattle.gib_syntax.specs.{Parts.{constructor_tree}, GenericArena.{tree_of as generic_of}};
ghost use Rattle.gib_syntax.specs.GenericParts.{constructor_in, generic_program_of, parameter_in, results_in};
ghost use Rattle.gib_syntax.specs.{GenericTree.{GenericDataTree, GenericFunctionTree}, Words.{first_type, stack_of, type_in}};
ghost use Rattle.gib_mono.specs.Copying.{copy_written};
ghost use Rattle.gib_mono.specs.Declaring.{first_span, named_forms, Writes, WritesAll, WritesResults, CopiesConstructors, CopiesData, CopiesParameters, CopiesParts, CopiesFunction, CopiesMain, Declares, IsKeyInside, AreKeysInside, copies_from};
ghost use Rattle.gib_mono.specs.{Made.{naming}, Reading.{listed}, Scenes.{forms, meaning}, Sources.{globals_in}};

use crate::copier::Copier;
use crate::copying::copy_expression;
use crate::found::CopyKey;
use crate::source::Source;
use gib_base::{Memory, Span};
use gib_check::Stack;
use gib_syntax::{
    ConstructorDecl, DataDecl, ExprId, FunctionDecl, GenericConstructor, GenericParameter,
    MainDecl, Parameter, ResultRuns, ResultTypes, Run, TypeName, Word,
};
use gib_types::types::TypeId;

/// A type as the copy writes it, with its number.
#[derive(Clone, Copy)]
pub struct Written {
    pub name: TypeName,
    pub ty: TypeId,
}

/// Copied parameters, a result and a body.
#[derive(Drop)]
pub struct CopiedParts {
    pub parameters: Vec<Parameter>,
    pub result: ResultTypes,
    pub body: ExprId,
}

/// The copied declarations, in the order of the list of copies.
#[derive(Drop)]
pub struct Declarations {
    pub datas: Vec<DataDecl>,
    pub functions: Vec<FunctionDecl>,
}

/// Types as the copy writes them, each where it is written.
fn type_names(copier: &Copier, places: &[Span], types: &[TypeId]) -> Result<Vec<TypeName>, Memory>
    requires { AreBelow (length copier.now.scene.types) types.now }
    ensures { IfOk result (λ names. names.items ≡ named_forms (naming copier.now) places.now (listed (forms copier.now.scene) types.now)) }
{
    let mut names = Vec::new(copier.alloc);
    let mut spans = places;
    let mut left = types;
    'places: while let [span, further_spans @ ..] = spans {
        let [ty, further_types @ ..] = left else {
            return Ok(names);
        };
        let name = copier.type_name(*span, *ty)?;
        names.push(name)?;
        spans = further_spans;
        left = further_types;
    }
    Ok(names)
}

/// The types that words spell here, as the copy writes them.
fn copy_types(copier: &mut Copier, words: &[Word]) -> Result<Vec<TypeName>, Memory>
    ensures { IfOk result (λ names. WritesAll copier.old copier.new names.items (map (copy_written (naming copier.old) (meaning copier.old.scene)) (stack_of words.now))) }
{
    let reading = copier.scene.read(copier.alloc, words)?;
    let types = reading.types.into_vec();
    let places = reading.places.into_vec();
    type_names(copier, &places, &types)
}

/// The first of places.
fn first_place(mut places: Stack<Span>) -> Span
    ensures { result ≡ first_span places }
{
    match places.pop() {
        Some(span) => span,
        None => Span { start: 0, end: 0 },
    }
}

/// The one type that words spell here, as the copy writes it, with its number.
fn copy_type(copier: &mut Copier, words: &[Word]) -> Result<Written, Memory>
    ensures { IfOk result (λ written. Writes copier.old copier.new written (first_type (stack_of words.now))) }
{
    let reading = copier.scene.read(copier.alloc, words)?;
    let span = first_place(reading.places);
    let ty = copier.first(reading.types)?;
    let name = copier.type_name(span, ty)?;
    Ok(Written { name, ty })
}

/// The copy of a constructor.
fn copy_constructor(
    copier: &mut Copier,
    source: &Source,
    constructor: &GenericConstructor,
    types: &[TypeId],
) -> Result<ConstructorDecl, Memory>
    requires { AreBelow (length copier.old.scene.types) types.now }
    ensures { IfOk result (λ c. CopiesConstructors copier.old copier.new (constructor_tree c ∷ []) (forms_at (forms copier.old.scene) types.now) (constructor_in source.now.exprs.words constructor.now ∷ [])) }
{
    let name = copier.name(constructor.name, types)?;
    let fields = copy_types(copier, source.words(constructor.fields))?;
    Ok(ConstructorDecl { name, fields })
}

/// The copies of constructors.
fn copy_constructors(
    copier: &mut Copier,
    source: &Source,
    constructors: &[GenericConstructor],
    types: &[TypeId],
) -> Result<Vec<ConstructorDecl>, Memory>
    requires { AreBelow (length copier.old.scene.types) types.now }
    ensures { IfOk result (λ cs. CopiesConstructors copier.old copier.new (map constructor_tree cs.items) (forms_at (forms copier.old.scene) types.now) (map (constructor_in source.now.exprs.words) constructors.now)) }
{
    let mut copied = Vec::new(copier.alloc);
    let mut rest = constructors;
    'constructors: while let [constructor, after @ ..] = rest {
        let copy = copy_constructor(copier, source, constructor, types)?;
        copied.push(copy)?;
        rest = after;
    }
    Ok(copied)
}

/// The copy of a declared type.
fn copy_data(
    copier: &mut Copier,
    source: &Source,
    place: u32,
    types: &[TypeId],
) -> Result<DataDecl, Memory>
    requires place { place < length (globals_in source.now).datas }
    requires below { AreBelow (length copier.old.scene.types) types.now }
    ensures { (d : GenericDataTree) → slice_get (globals_in source.now).datas place ≡ Some d → IfOk result (λ c. CopiesData copier.old copier.new c d (forms_at (forms copier.old.scene) types.now)) }
{
    let data = source.data_decl(place);
    let name = copier.name(data.name, types)?;
    let variables = Vec::from_slice(copier.alloc, &data.variables)?;
    let meant = Vec::from_slice(copier.alloc, types)?;
    copier.scene.enter(variables, meant);
    let constructors = copy_constructors(copier, source, &data.constructors, types)?;
    Ok(DataDecl { name, constructors })
}

/// The copies of parameters, which come into scope.
fn copy_parameters(
    copier: &mut Copier,
    source: &Source,
    parameters: &[GenericParameter],
) -> Result<Vec<Parameter>, Memory>
    ensures { IfOk result (λ ps. CopiesParameters copier.old copier.new ps.items (map (parameter_in source.now.exprs.words) parameters.now)) }
{
    let mut copied = Vec::new(copier.alloc);
    let mut rest = parameters;
    'parameters: while let [parameter, after @ ..] = rest {
        let written = copy_type(copier, source.words(parameter.ty))?;
        copier.bind(parameter.name, written.ty)?;
        copied.push(Parameter {
            name: parameter.name,
            ty: written.name,
        })?;
        rest = after;
    }
    Ok(copied)
}

/// The types of parts, as the copy writes them.
fn copy_part_types(
    copier: &mut Copier,
    source: &Source,
    runs: &[Run],
) -> Result<Vec<TypeName>, Memory>
    ensures { IfOk result (λ names. WritesAll copier.old copier.new names.items (map (copy_written (naming copier.old) (meaning copier.old.scene)) (map (type_in source.now.exprs.words) runs.now))) }
{
    let mut names = Vec::new(copier.alloc);
    let mut rest = runs;
    'runs: while let [run, after @ ..] = rest {
        let written = copy_type(copier, source.words(*run))?;
        names.push(written.name)?;
        rest = after;
    }
    Ok(names)
}

/// What a function gives, as the copy writes it.
fn copy_results(
    copier: &mut Copier,
    source: &Source,
    gives: &ResultRuns,
) -> Result<ResultTypes, Memory>
    ensures { IfOk result (λ types. WritesResults copier.old copier.new types (results_in source.now.exprs.words gives.now)) }
{
    match gives {
        ResultRuns::One(run) => {
            let written = copy_type(copier, source.words(*run))?;
            Ok(ResultTypes::One(written.name))
        }
        ResultRuns::Several(runs) => {
            let names = copy_part_types(copier, source, runs)?;
            Ok(ResultTypes::Several(names))
        }
    }
}

/// The copies of parameters, of what is given, and of a body.
fn copy_parts(
    copier: &mut Copier,
    source: &Source,
    parameters: &[GenericParameter],
    gives: &ResultRuns,
    body: ExprId,
) -> Result<CopiedParts, Memory>
    requires { body.0 < length source.now.exprs.nodes }
    ensures { IfOk result (λ parts. CopiesParts (globals_in source.now) copier.old copier.new parts (map (parameter_in source.now.exprs.words) parameters.now) (results_in source.now.exprs.words gives.now) (generic_of source.now.exprs body.0)) }
{
    let copied = copy_parameters(copier, source, parameters)?;
    let result = copy_results(copier, source, gives)?;
    let part = copy_expression(copier, source, body)?;
    Ok(CopiedParts {
        parameters: copied,
        result,
        body: part.expr,
    })
}

/// The copy of a function.
fn copy_function(
    copier: &mut Copier,
    source: &Source,
    place: u32,
    types: &[TypeId],
) -> Result<FunctionDecl, Memory>
    requires place { place < length (globals_in source.now).functions }
    requires below { AreBelow (length copier.old.scene.types) types.now }
    ensures { (f : GenericFunctionTree) → slice_get (globals_in source.now).functions place ≡ Some f → IfOk result (λ c. CopiesFunction (globals_in source.now) copier.old copier.new c f (forms_at (forms copier.old.scene) types.now)) }
{
    let function = source.function_decl(place);
    let name = copier.name(function.name, types)?;
    let variables = Vec::from_slice(copier.alloc, &function.variables)?;
    let meant = Vec::from_slice(copier.alloc, types)?;
    copier.scene.enter(variables, meant);
    let parts = copy_parts(
        copier,
        source,
        &function.parameters,
        &function.result,
        function.body,
    )?;
    Ok(FunctionDecl {
        name,
        parameters: parts.parameters,
        result: parts.result,
        body: parts.body,
    })
}

/// The copy of main.
///
/// # Errors
///
/// Want of memory.
pub fn copy_main(copier: &mut Copier, source: &Source) -> Result<MainDecl, Memory>
    ensures { IfOk result (λ c. CopiesMain (globals_in source.now) copier.old copier.new c (generic_program_of source.now).main) }
{
    let main = source.program().main();
    let alloc = copier.alloc;
    copier.scene.enter(Vec::new(alloc), Vec::new(alloc));
    let parameters = [main.parameter];
    let copied = copy_parameters(copier, source, &parameters)?;
    let written = copy_type(copier, source.words(main.result))?;
    let part = copy_expression(copier, source, main.body)?;
    let [parameter, ..] = copied.as_slice() else {
        unreachable!()
    };
    Ok(MainDecl {
        parameter: *parameter,
        result: written.name,
        body: part.expr,
    })
}

/// A copy is put behind the others.
fn copy_key(
    copier: &mut Copier,
    source: &Source,
    key: &CopyKey,
    declared: &mut Declarations,
) -> Result<(), Memory>
    requires { IsKeyInside (globals_in source.now) (length copier.old.scene.types) key.now }
    ensures { IfOk result (λ _. Declares (globals_in source.now) copier.old copier.new declared.old.datas.items declared.old.functions.items declared.new.datas.items declared.new.functions.items (copies_from (globals_in source.now) (forms copier.old.scene) (key.now ∷ []))) }
{
    match key {
        CopyKey::Data(place, types) => {
            let data = copy_data(copier, source, *place, types)?;
            declared.datas.push(data)?;
            Ok(())
        }
        CopyKey::Function(place, types) => {
            let function = copy_function(copier, source, *place, types)?;
            declared.functions.push(function)?;
            Ok(())
        }
    }
}

/// All copies, in their order.
///
/// # Errors
///
/// Want of memory.
pub fn copy_all(
    copier: &mut Copier,
    source: &Source,
    keys: &[CopyKey],
) -> Result<Declarations, Memory>
    requires { AreKeysInside (globals_in source.now) (length copier.old.scene.types) keys.now }
    ensures { IfOk result (λ d. Declares (globals_in source.now) copier.old copier.new [] [] d.datas.items d.functions.items (copies_from (globals_in source.now) (forms copier.old.scene) keys.now)) }
{
    let mut declared = Declarations {
        datas: Vec::new(copier.alloc),
        functions: Vec::new(copier.alloc),
    };
    let mut rest = keys;
    'keys: while let [key, after @ ..] = rest {
        copy_key(copier, source, key, &mut declared)?;
        rest = after;
    }
    Ok(declared)
}

//! The walk over the bodies of a program.

ghost use Rattle.std.specs.Prelude.{◌≡◌, ◌<◌, length, map, slice_get, Some, IfOk};
ghost use Rattle.gib_syntax.specs.{Tree.{FunctionTree}, Arena.{tree_of}, Parts.{program_of}, Meaning.{names_of as all_names}, Typing.{result_types}};
ghost use Rattle.gib_core.specs.{Parts.{results_of}, Inferring.{infer_body, infer_function, infer_program}};
ghost use Rattle.gib_infer.specs.{Made.{globals_in}, Bodies.{MakesBody, MakesFunction, MakesFunctions, MakesMain}};

use crate::fields::bind_fields;
use crate::parts::{part_types, types_named};
use crate::walk::line;
use crate::work::Work;
use gib_base::Memory;
use gib_check::{FunctionId, Typed};
use gib_core::{CoreFunction, CoreMain, CoreResult, TermId};
use gib_syntax::{ExprId, Ident, Parameter, ResultTypes};
use gib_types::Ty;
use std::alloc::Global;

/// A body whose parameters have these names and types: they are its first variables.
fn make_body(
    typed: &Typed,
    work: &mut Work,
    names: &[Ident],
    types: &[Ty],
    id: ExprId,
) -> Result<TermId, Memory>
    requires { id.0 < length typed.now.exprs }
    ensures { IfOk result (λ t. MakesBody work.old work.new t (infer_body (globals_in typed.now) names.now types.now (tree_of typed.now.exprs id.0))) }
{
    work.scope.clear();
    work.fresh = 0;
    bind_fields(work, names, types)?;
    let (term, _) = line(typed, work, id)?;
    Ok(term)
}

/// The names of parameters.
fn names_of(alloc: Global, parameters: &[Parameter]) -> Result<Vec<Ident>, Memory>
    ensures { IfOk result (λ v. v.items ≡ all_names parameters.now) }
{
    let mut names = Vec::new(alloc);
    let mut left = parameters;
    'parameters: while let [parameter, after @ ..] = left {
        names.push(parameter.name)?;
        left = after;
    }
    Ok(names)
}

/// What the function of a number gives.
fn core_result(alloc: Global, typed: &Typed, id: FunctionId) -> Result<CoreResult, Memory>
    requires { id.0 < length (program_of typed.now).functions }
    ensures { (f : FunctionTree) → slice_get (program_of typed.now).functions id.0 ≡ Some f → IfOk result (λ given. results_of given ≡ result_types (globals_in typed.now).table f) }
{
    match &typed.declaration(id).result {
        ResultTypes::One(name) => Ok(CoreResult::One(typed.type_named(*name))),
        ResultTypes::Several(names) => {
            let types = types_named(alloc, typed, names)?;
            let parts = part_types(&types)?;
            Ok(CoreResult::Several(parts))
        }
    }
}

/// The function of a number.
fn make_function(typed: &Typed, work: &mut Work, id: FunctionId) -> Result<CoreFunction, Memory>
    requires { id.0 < length (program_of typed.now).functions }
    ensures { (f : FunctionTree) → slice_get (program_of typed.now).functions id.0 ≡ Some f → IfOk result (λ made. MakesFunction work.old work.new made (infer_function (globals_in typed.now) f)) }
{
    let declaration = typed.declaration(id);
    let types = typed.parameter_types(id);
    let names = names_of(work.alloc, &declaration.parameters)?;
    let body = make_body(typed, work, &names, types, declaration.body)?;
    let parameters = types.to_vec(work.alloc)?;
    let result = core_result(work.alloc, typed, id)?;
    Ok(CoreFunction {
        name: declaration.name.name,
        parameters,
        result,
        body,
    })
}

/// The functions but main, in the order of the text.
pub fn make_functions(typed: &Typed, work: &mut Work) -> Result<Vec<CoreFunction>, Memory>
    ensures { IfOk result (λ made. MakesFunctions work.old work.new made.items (map (infer_function (globals_in typed.now)) (program_of typed.now).functions)) }
{
    let count = typed.program().functions().len() as u32;
    let mut functions = Vec::new(work.alloc);
    let mut next = 0;
    'functions: while next < count {
        let function = make_function(typed, work, FunctionId(next))?;
        functions.push(function)?;
        next += 1;
    }
    Ok(functions)
}

/// Main.
pub fn make_main(typed: &Typed, work: &mut Work) -> Result<CoreMain, Memory>
    ensures { IfOk result (λ made. MakesMain work.old work.new made (infer_program (program_of typed.now)).main) }
{
    let main = typed.program().main();
    let parameter = typed.input_type();
    let names = [main.parameter.name];
    let body = make_body(typed, work, &names, &[parameter], main.body)?;
    Ok(CoreMain {
        parameter,
        result: typed.output_type(),
        body,
    })
}

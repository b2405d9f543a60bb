//! Heads of functions, by their numbers.

ghost use Rattle.std.specs.Prelude.{◌≡◌, map, IfOk};
ghost use Rattle.gib_syntax.specs.{Declarations.{type_of_name}, Parts.{results_tree}, Results.{map_results}, Typing.{one_type}};
ghost use Rattle.gib_check.specs.Functions.{parameter_type, head_of, head_in};

use crate::declared::type_of_name;
use crate::names::NameList;
use gib_base::Memory;
use gib_syntax::{FunctionDecl, Parameter, ResultTypes};
use gib_types::Ty;
use std::alloc::Global;

/// The number of a function: its place among the functions but main, in the order of the text.
#[derive(Clone, Copy, PartialEq, Eq)]
pub struct FunctionId(pub u32);

/// The types of a function's parameters and of its result; of several parts, where it is not asked, `Int`.
#[derive(Drop)]
pub struct FunctionHead {
    pub parameters: Vec<Ty>,
    pub result: Ty,
}

/// The types of parameters.
fn parameter_types(
    alloc: Global,
    types: &NameList,
    parameters: &[Parameter],
) -> Result<Vec<Ty>, Memory>
    ensures { IfOk result (λ found. found.items ≡ map (parameter_type types.now) parameters.now) }
{
    let mut found = Vec::new(alloc);
    let mut rest = parameters;
    'parameters: while let [parameter, after @ ..] = rest {
        found.push(type_of_name(types, parameter.ty))?;
        rest = after;
    }
    Ok(found)
}

/// The type of the one thing that a function gives; of several parts, where it is not asked, `Int`.
fn result_type(types: &NameList, gives: &ResultTypes) -> Ty
    ensures { result ≡ one_type (map_results (type_of_name types.now) (results_tree gives.now)) }
{
    match gives {
        ResultTypes::One(written) => type_of_name(types, *written),
        ResultTypes::Several(_) => Ty::Whole,
    }
}

/// The head of a function.
fn head(alloc: Global, types: &NameList, function: &FunctionDecl) -> Result<FunctionHead, Memory>
    ensures { IfOk result (λ head. head_of head ≡ head_in types.now function.now) }
{
    let parameters = parameter_types(alloc, types, &function.parameters)?;
    let result = result_type(types, &function.result);
    Ok(FunctionHead { parameters, result })
}

/// The heads of functions.
pub fn list_heads(
    alloc: Global,
    types: &NameList,
    functions: &[FunctionDecl],
) -> Result<Vec<FunctionHead>, Memory>
    ensures { IfOk result (λ heads. map head_of heads.items ≡ map (head_in types.now) functions.now) }
{
    let mut heads = Vec::new(alloc);
    let mut rest = functions;
    'functions: while let [function, after @ ..] = rest {
        let head = head(alloc, types, function)?;
        heads.push(head)?;
        rest = after;
    }
    Ok(heads)
}

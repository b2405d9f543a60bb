//! Heads of the functions of a text: names, parameters, results; and all its declarations.

ghost use Rattle.std.specs.Prelude.{[], map, length, IfOk};
ghost use Rattle.std.specs.List.{AllByRecursion};
ghost use Rattle.gib_syntax.specs.Results as results;
ghost use Rattle.gib_syntax.specs.Plain.{written_of, generic_of, generic_parameter, generic_function};
ghost use Rattle.gib_check.specs.Answers.{Gives};
ghost use Rattle.gib_check.specs.FirstFault as rule;
ghost use Rattle.gib_local.specs.{Building.{declared, head}, Knowing.{datas_of, HasFew}};
ghost use Rattle.gib_local_parse.specs.{LineArena.{tree_of}, TextParts.{text_of, function_text}};

use crate::datas::{check_datas, check_fields};
use crate::known::Known;
use gib_base::limits::{FUNCTIONS, VARIABLES};
use gib_check::{NameList, TypeFault, fewer, new_name};
use gib_local_parse::FunctionLines;
use gib_syntax::{Parameter, TypeName};
use std::alloc::Global;

/// Parameters: the name of each, then its type.
fn check_parameters(alloc: Global, known: &Known, parameters: &[Parameter]) -> Result<(), TypeFault>
    ensures { Gives (λ _. tt {0}) result (rule.check_parameters (datas_of known.now) [] [] (map generic_parameter parameters.now)) }
{
    let mut names = NameList::new(alloc);
    let mut rest = parameters;
    'parameters: while let [parameter, after @ ..] = rest {
        new_name(&names, parameter.name)?;
        fewer(VARIABLES, &names, parameter.name)?;
        known.type_named(parameter.ty)?;
        names.push(parameter.name.name)?;
        rest = after;
    }
    Ok(())
}

/// The parameters and the result of a function, or of main.
fn check_head(
    alloc: Global,
    known: &Known,
    parameters: &[Parameter],
    result_type: TypeName,
) -> Result<(), TypeFault>
    ensures { Gives (λ _. tt {0}) result (rule.check_head (datas_of known.now) [] (map generic_parameter parameters.now) (results.One (written_of result_type))) }
{
    check_parameters(alloc, known, parameters)?;
    known.type_named(result_type)
}

/// Heads of functions, in the order of the text.
fn check_heads(alloc: Global, known: &Known, functions: &[FunctionLines]) -> Result<(), TypeFault>
    ensures { Gives (λ _. tt {0}) result (rule.check_heads (datas_of known.now) [] (map generic_function (map head (map (function_text (tree_of known.now.lines)) functions.now)))) }
{
    let mut names = NameList::new(alloc);
    let mut rest = functions;
    'functions: while let [function, after @ ..] = rest {
        fewer(FUNCTIONS, &names, function.name)?;
        new_name(&names, function.name)?;
        check_head(alloc, known, &function.parameters, function.result)?;
        names.push(function.name.name)?;
        rest = after;
    }
    Ok(())
}

/// Types and constructors, field types, and heads of functions.
pub fn check_declarations(alloc: Global, known: &Known) -> Result<(), TypeFault>
    ensures checked { Gives (λ _. tt {0}) result (rule.check_declarations (generic_of (declared (text_of known.now)))) }
    // Then each function has few parameters.
    ensures few { IfOk result (λ _. AllByRecursion HasFew known.now.functions) }
{
    let text = known.text();
    let datas = text.datas();
    check_datas(alloc, datas)?;
    check_fields(known, datas)?;
    check_heads(alloc, known, text.functions())?;
    let main = text.main();
    check_head(alloc, known, &[main.parameter], main.result)
}

//! Heads of functions: names, type variables, parameters, results.

ghost use Rattle.std.specs.Prelude.{[], map};
ghost use Rattle.std.specs.List.{AllByRecursion};
ghost use Rattle.gib_syntax.specs.GenericParts.{parameter_in, results_in, function_in, IsParameterInside, AreResultsInside, IsFunctionInside};
ghost use Rattle.gib_syntax.specs.{GenericTyping.{variable_numbers}, Words.{IsTypeRun, type_in}};
ghost use Rattle.gib_check.specs.{Answers.{Gives}, NameViews.{generic_globals}};
ghost use Rattle.gib_check.specs.FirstFault as rule;

use crate::datas::{check_variables, fewer, new_name};
use crate::fault::{Kind, TypeFault};
use crate::known::known;
use crate::named::Named;
use crate::names::NameList;
use crate::reading::type_place;
use crate::rules::broken;
use gib_base::limits::{FUNCTIONS, PARTS, VARIABLES};
use gib_syntax::{GenericFunction, GenericParameter, Ident, ResultRuns, Run};

/// Parameters: the name of each, then its type.
fn check_parameters(
    named: &Named,
    variables: &[Ident],
    parameters: &[GenericParameter],
) -> Result<(), TypeFault>
    requires { AllByRecursion (IsParameterInside named.now.exprs.words) parameters.now }
    ensures { Gives (λ _. tt {0}) result (rule.check_parameters (generic_globals named.now).datas (variable_numbers variables.now) [] (map (parameter_in named.now.exprs.words) parameters.now)) }
{
    let mut names = NameList::new(named.alloc());
    let mut rest = parameters;
    'parameters: while let [parameter, after @ ..] = rest {
        new_name(&names, parameter.name)?;
        fewer(VARIABLES, &names, parameter.name)?;
        known(named, variables, parameter.ty)?;
        names.push(parameter.name.name)?;
        rest = after;
    }
    Ok(())
}

/// The types of parts: each is none past the eighth, then known.
fn check_parts(named: &Named, variables: &[Ident], runs: &[Run]) -> Result<(), TypeFault>
    requires { AllByRecursion (IsTypeRun named.now.exprs.words) runs.now }
    ensures { Gives (λ _. tt {0}) result (rule.check_parts (generic_globals named.now).datas (variable_numbers variables.now) 0 (map (type_in named.now.exprs.words) runs.now)) }
{
    let mut behind = 0_u32;
    let mut rest = runs;
    'parts: while let [run, after @ ..] = rest {
        if behind >= PARTS {
            let place = type_place(named.alloc(), named.words(*run))?;
            return Err(broken(Kind::Limit, place));
        }
        known(named, variables, *run)?;
        behind += 1;
        rest = after;
    }
    Ok(())
}

/// What a function gives: its type, or those of the parts.
fn check_results(named: &Named, variables: &[Ident], gives: &ResultRuns) -> Result<(), TypeFault>
    requires { AreResultsInside named.now.exprs.words gives.now }
    ensures { Gives (λ _. tt {0}) result (rule.check_results (generic_globals named.now).datas (variable_numbers variables.now) (results_in named.now.exprs.words gives.now)) }
{
    match gives {
        ResultRuns::One(run) => known(named, variables, *run),
        ResultRuns::Several(runs) => check_parts(named, variables, runs),
    }
}

/// The type variables and the parameters of a function, or of main, and what it gives.
pub fn check_head(
    named: &Named,
    variables: &[Ident],
    parameters: &[GenericParameter],
    gives: &ResultRuns,
) -> Result<(), TypeFault>
    requires parameters { AllByRecursion (IsParameterInside named.now.exprs.words) parameters.now }
    requires result { AreResultsInside named.now.exprs.words gives.now }
    ensures { Gives (λ _. tt {0}) result (rule.check_head (generic_globals named.now).datas variables.now (map (parameter_in named.now.exprs.words) parameters.now) (results_in named.now.exprs.words gives.now)) }
{
    check_variables(named.alloc(), variables)?;
    check_parameters(named, variables, parameters)?;
    check_results(named, variables, gives)
}

/// Heads of functions, in the order of the text.
pub fn check_heads(named: &Named, functions: &[GenericFunction]) -> Result<(), TypeFault>
    requires { AllByRecursion (IsFunctionInside named.now.exprs) functions.now }
    ensures { Gives (λ _. tt {0}) result (rule.check_heads (generic_globals named.now).datas [] (map (function_in named.now.exprs) functions.now)) }
{
    let mut names = NameList::new(named.alloc());
    let mut rest = functions;
    'functions: while let [function, after @ ..] = rest {
        fewer(FUNCTIONS, &names, function.name)?;
        new_name(&names, function.name)?;
        check_head(
            named,
            &function.variables,
            &function.parameters,
            &function.result,
        )?;
        names.push(function.name.name)?;
        rest = after;
    }
    Ok(())
}

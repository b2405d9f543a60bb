//! Data declarations: names, type variables, counts of fields, field types.

ghost use Rattle.std.specs.Prelude.{[], map};
ghost use Rattle.std.specs.List.{AllByRecursion};
ghost use Rattle.gib_syntax.specs.{GenericParts.{data_in, constructor_in, IsDataInside, IsConstructorInside}, GenericTyping.{variable_numbers}};
ghost use Rattle.gib_syntax.specs.Words.{stack_of};
ghost use Rattle.gib_check.specs.{Answers.{Gives}, NameViews.{generic_globals}};
ghost use Rattle.gib_check.specs.FirstFault as rule;

use crate::fault::{Kind, TypeFault};
use crate::known::all_known;
use crate::named::Named;
use crate::names::NameList;
use crate::reading::type_places;
use crate::rules::broken;
use gib_base::limits::{CONSTRUCTORS, FIELDS, TYPE_PARAMETERS};
use gib_syntax::{GenericConstructor, GenericData, GenericExprs, Ident, Word};
use std::alloc::Global;

/// A name that is none of the names before it.
pub fn new_name(names: &NameList, x: Ident) -> Result<(), TypeFault>
    ensures { Gives (λ _. tt {0}) result (rule.new_name names.now x) }
{
    match names.place(x.name) {
        Some(_) => Err(broken(Kind::Twice, x.span)),
        None => Ok(()),
    }
}

/// Fewer than so many names stand before this one.
pub fn fewer(most: u32, names: &NameList, x: Ident) -> Result<(), TypeFault>
    ensures { Gives (λ _. tt {0}) result (rule.fewer most names.now x) }
{
    if names.len() < most {
        Ok(())
    } else {
        Err(broken(Kind::Limit, x.span))
    }
}

/// The type variables of a declaration.
pub fn check_variables(alloc: Global, variables: &[Ident]) -> Result<(), TypeFault>
    ensures { Gives (λ _. tt {0}) result (rule.check_variables [] variables.now) }
{
    let mut names = NameList::new(alloc);
    let mut rest = variables;
    'variables: while let [variable, after @ ..] = rest {
        new_name(&names, *variable)?;
        fewer(TYPE_PARAMETERS, &names, *variable)?;
        names.push(variable.name)?;
        rest = after;
    }
    Ok(())
}

/// At most eight fields.
fn few_fields(alloc: Global, fields: &[Word]) -> Result<(), TypeFault>
    ensures { Gives (λ _. tt {0}) result (rule.few_fields (stack_of fields.now)) }
{
    let places = type_places(alloc, fields)?;
    match places.get(FIELDS as usize) {
        Some(ninth) => Err(broken(Kind::Limit, *ninth)),
        None => Ok(()),
    }
}

/// The constructors of a type, behind those of these names.
fn check_constructors(
    alloc: Global,
    exprs: &GenericExprs,
    names: &mut NameList,
    constructors: &[GenericConstructor],
) -> Result<(), TypeFault>
    ensures { Gives (λ _. names.new) result (rule.check_constructors names.old (map (constructor_in exprs.now.words) constructors.now)) }
{
    let mut rest = constructors;
    'constructors: while let [constructor, after @ ..] = rest {
        fewer(CONSTRUCTORS, names, constructor.name)?;
        new_name(names, constructor.name)?;
        few_fields(alloc, exprs.words(constructor.fields))?;
        names.push(constructor.name.name)?;
        rest = after;
    }
    Ok(())
}

/// Types, their variables and constructors.
pub fn check_datas(
    alloc: Global,
    exprs: &GenericExprs,
    datas: &[GenericData],
) -> Result<(), TypeFault>
    ensures { Gives (λ _. tt {0}) result (rule.check_datas [] [] (map (data_in exprs.now.words) datas.now)) }
{
    let mut types = NameList::new(alloc);
    let mut constructors = NameList::new(alloc);
    let mut rest = datas;
    'datas: while let [declaration, after @ ..] = rest {
        new_name(&types, declaration.name)?;
        check_variables(alloc, &declaration.variables)?;
        check_constructors(alloc, exprs, &mut constructors, &declaration.constructors)?;
        types.push(declaration.name.name)?;
        rest = after;
    }
    Ok(())
}

/// Field types of constructors.
fn check_constructor_fields(
    named: &Named,
    variables: &[Ident],
    constructors: &[GenericConstructor],
) -> Result<(), TypeFault>
    requires { AllByRecursion (IsConstructorInside named.now.exprs.words) constructors.now }
    ensures { Gives (λ _. tt {0}) result (rule.check_constructor_fields (generic_globals named.now).datas (variable_numbers variables.now) (map (constructor_in named.now.exprs.words) constructors.now)) }
{
    let mut rest = constructors;
    'constructors: while let [constructor, after @ ..] = rest {
        all_known(named, variables, constructor.fields)?;
        rest = after;
    }
    Ok(())
}

/// Field types, in the order of the text.
pub fn check_fields(named: &Named, datas: &[GenericData]) -> Result<(), TypeFault>
    requires { AllByRecursion (IsDataInside named.now.exprs.words) datas.now }
    ensures { Gives (λ _. tt {0}) result (rule.check_fields (generic_globals named.now).datas (map (data_in named.now.exprs.words) datas.now)) }
{
    let mut rest = datas;
    'datas: while let [declaration, after @ ..] = rest {
        check_constructor_fields(named, &declaration.variables, &declaration.constructors)?;
        rest = after;
    }
    Ok(())
}

//! Data declarations of a text: names, counts of fields, field types.

ghost use Rattle.std.specs.Prelude.{◌≡◌, [], map};
ghost use Rattle.gib_syntax.specs.{Forms.{written_place}, Parts.{constructor_tree, data_tree}, Plain.{written_of, generic_constructor, generic_data}};
ghost use Rattle.gib_check.specs.Answers.{Gives};
ghost use Rattle.gib_check.specs.FirstFault as rule;
ghost use Rattle.gib_local.specs.Knowing.{datas_of};

use crate::known::{Known, broken};
use gib_base::Span;
use gib_base::limits::{CONSTRUCTORS, FIELDS};
use gib_check::{Kind, NameList, TypeFault, fewer, new_name};
use gib_syntax::{ConstructorDecl, DataDecl, TypeName};
use std::alloc::Global;

/// Where a type is written.
fn place_of(ty: TypeName) -> Span
    ensures { result ≡ written_place (written_of ty) }
{
    match ty {
        TypeName::Whole(place) => place,
        TypeName::Truth(place) => place,
        TypeName::Declared(x) => x.span,
    }
}

/// At most eight fields.
fn few_fields(fields: &[TypeName]) -> Result<(), TypeFault>
    ensures { Gives (λ _. tt {0}) result (rule.few_fields (map written_of fields.now)) }
{
    match fields.get(FIELDS as usize) {
        Some(ninth) => Err(broken(Kind::Limit, place_of(*ninth))),
        None => Ok(()),
    }
}

/// The constructors of a type, behind those of these names.
fn check_constructors(
    names: &mut NameList,
    constructors: &[ConstructorDecl],
) -> Result<(), TypeFault>
    ensures { Gives (λ _. names.new) result (rule.check_constructors names.old (map generic_constructor (map constructor_tree constructors.now))) }
{
    let mut rest = constructors;
    'constructors: while let [constructor, after @ ..] = rest {
        fewer(CONSTRUCTORS, names, constructor.name)?;
        new_name(names, constructor.name)?;
        few_fields(&constructor.fields)?;
        names.push(constructor.name.name)?;
        rest = after;
    }
    Ok(())
}

/// Types and their constructors.
pub fn check_datas(alloc: Global, datas: &[DataDecl]) -> Result<(), TypeFault>
    ensures { Gives (λ _. tt {0}) result (rule.check_datas [] [] (map generic_data (map data_tree datas.now))) }
{
    let mut types = NameList::new(alloc);
    let mut constructors = NameList::new(alloc);
    let mut rest = datas;
    'datas: while let [data, after @ ..] = rest {
        new_name(&types, data.name)?;
        check_constructors(&mut constructors, &data.constructors)?;
        types.push(data.name.name)?;
        rest = after;
    }
    Ok(())
}

/// Types that are written one after another.
fn check_types(known: &Known, fields: &[TypeName]) -> Result<(), TypeFault>
    ensures { Gives (λ _. tt {0}) result (rule.check_types (datas_of known.now) [] (map written_of fields.now)) }
{
    let mut rest = fields;
    'fields: while let [field, after @ ..] = rest {
        known.type_named(*field)?;
        rest = after;
    }
    Ok(())
}

/// Field types of constructors.
fn check_constructor_fields(
    known: &Known,
    constructors: &[ConstructorDecl],
) -> Result<(), TypeFault>
    ensures { Gives (λ _. tt {0}) result (rule.check_constructor_fields (datas_of known.now) [] (map generic_constructor (map constructor_tree constructors.now))) }
{
    let mut rest = constructors;
    'constructors: while let [constructor, after @ ..] = rest {
        check_types(known, &constructor.fields)?;
        rest = after;
    }
    Ok(())
}

/// Field types, in the order of the text.
pub fn check_fields(known: &Known, datas: &[DataDecl]) -> Result<(), TypeFault>
    ensures { Gives (λ _. tt {0}) result (rule.check_fields (datas_of known.now) (map generic_data (map data_tree datas.now))) }
{
    let mut rest = datas;
    'datas: while let [data, after @ ..] = rest {
        check_constructor_fields(known, &data.constructors)?;
        rest = after;
    }
    Ok(())
}

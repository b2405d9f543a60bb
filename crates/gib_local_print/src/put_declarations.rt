//! The declarations of a printed text, as tokens that are put before others.

ghost use Rattle.std.specs.Prelude.{◌≡◌, ◌≤◌, ◌<◌, ◌+◌, length, map, OnOk};
ghost use Rattle.gib_types.specs.Table.{numbers_from};
ghost use Rattle.gib_local_print.specs.{Printing.{named, type_text, con_text, parameters_text}, LocatedText.{given, constructor_of, data_of, datas_of}};
ghost use Rattle.gib_local_parse.specs.Texts.{spell_list, spell_type, spell_con, spell_constructor, spell_alternative, spell_constructors, spell_data, spell_offsets, spell_parameter};

use crate::put::{put_constructor, put_type};
use crate::spelled::{Spelled, put_sign, put_variable};
use gib_base::Memory;
use gib_base::token::{Sign, Token};
use gib_core::Variable;
use gib_types::{ConId, Ty, TyId, TypeTable};
use std::alloc::AllocError;

fn put_types(types: &TypeTable, fields: &[Ty], out: &mut Spelled) -> Result<(), Memory>
    ensures { OnOk result (out.new ≡ spell_list spell_type (map (type_text types.now) fields.now) out.old) }
{
    let mut i = fields.len();
    'fields: while i > 0 {
        i -= 1;
        put_type(types, fields[i], out)?;
    }
    Ok(())
}

/// A constructor with the types of its fields.
fn put_declared(types: &TypeTable, number: u32, out: &mut Spelled) -> Result<(), Memory>
    ensures { OnOk result (out.new ≡ spell_constructor (constructor_of types.now number) out.old) }
{
    let constructor = ConId(number);
    put_types(types, types.fields(constructor), out)?;
    put_constructor(types, constructor, out)
}

/// So many constructors from a number on, each behind a bar.
fn put_alternatives(
    types: &TypeTable,
    first: u32,
    count: u32,
    out: &mut Spelled,
) -> Result<(), Memory>
    requires { first + count ≤ 200 }
    ensures { OnOk result (out.new ≡ spell_list spell_alternative (map (constructor_of types.now) (numbers_from first count)) out.old) }
{
    let mut left = count;
    'alternatives: while left > 0 {
        left -= 1;
        put_declared(types, first + left, out)?;
        put_sign(Sign::Bar, out)?;
    }
    Ok(())
}

/// So many constructors from a number on.
fn put_all(types: &TypeTable, first: u32, count: u32, out: &mut Spelled) -> Result<(), Memory>
    requires { first + count ≤ 200 }
    ensures { OnOk result (out.new ≡ spell_constructors (map (constructor_of types.now) (numbers_from first count)) out.old) }
{
    if count == 0 {
        return Ok(());
    }
    put_alternatives(types, first + 1, count - 1, out)?;
    put_declared(types, first, out)
}

/// The declaration of a type.
fn put_data(types: &TypeTable, ty: TyId, out: &mut Spelled) -> Result<(), Memory>
    requires { ty.0 < length types.now.types }
    ensures { OnOk result (out.new ≡ spell_data (data_of types.now ty.0) out.old) }
{
    let (first, count) = types.constructors_of(ty);
    put_sign(Sign::Semicolon, out)?;
    put_all(types, first, count, out)?;
    put_sign(Sign::Equals, out)?;
    out.put(Token::Constructor(types.type_name(ty)))?;
    put_sign(Sign::Data, out)
}

/// The declarations of all types.
pub(crate) fn put_datas(types: &TypeTable, out: &mut Spelled) -> Result<(), Memory>
    ensures { OnOk result (out.new ≡ spell_list spell_data (datas_of types.now) out.old) }
{
    let mut i = types.type_count();
    'types: while i > 0 {
        i -= 1;
        put_data(types, TyId(i), out)?;
    }
    Ok(())
}

/// Constructors, one behind another.
fn put_constructors(types: &TypeTable, list: &[ConId], out: &mut Spelled) -> Result<(), Memory>
    ensures { OnOk result (out.new ≡ spell_list spell_con (map (con_text types.now) list.now) out.old) }
{
    let mut i = list.len();
    'constructors: while i > 0 {
        i -= 1;
        put_constructor(types, list[i], out)?;
    }
    Ok(())
}

/// The constructors whose heads store offsets.
pub(crate) fn put_offsets(
    types: &TypeTable,
    offsets: &[ConId],
    out: &mut Spelled,
) -> Result<(), Memory>
    ensures { OnOk result (out.new ≡ spell_offsets (map (con_text types.now) offsets.now) out.old) }
{
    match offsets {
        [] => Ok(()),
        [first, more @ ..] => {
            put_sign(Sign::Semicolon, out)?;
            put_constructors(types, more, out)?;
            put_constructor(types, *first, out)?;
            put_sign(Sign::Offsets, out)
        }
    }
}

/// The parameter of a number.
pub(crate) fn put_parameter(
    types: &TypeTable,
    variable: Variable,
    ty: Ty,
    out: &mut Spelled,
) -> Result<(), Memory>
    ensures { OnOk result (out.new ≡ spell_parameter (record { name = named given variable; ty = type_text types.now ty }) out.old) }
{
    put_sign(Sign::Close, out)?;
    put_type(types, ty, out)?;
    put_sign(Sign::Colon, out)?;
    put_variable(variable, out)?;
    put_sign(Sign::Open, out)
}

/// The parameters of a function.
pub(crate) fn put_parameters(
    types: &TypeTable,
    parameters: &[Ty],
    out: &mut Spelled,
) -> Result<(), Memory>
    ensures { OnOk result (out.new ≡ spell_list spell_parameter (parameters_text given types.now 0 parameters.now) out.old) }
{
    let mut i = parameters.len();
    'parameters: while i > 0 {
        i -= 1;
        let Ok(number) = u32::try_from(i) else {
            return Err(AllocError);
        };
        put_parameter(types, Variable(number), parameters[i], out)?;
    }
    Ok(())
}

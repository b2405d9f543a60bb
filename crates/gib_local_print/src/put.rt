//! What a printed text says of a core's atoms, types, locations and declarations, as tokens that are put before others.

ghost use Rattle.std.specs.Prelude.{◌≡◌, ◌∷◌, ◌++◌, map, take, drop, get_or, IfOk, OnOk};
ghost use Rattle.gib_types.specs.Table.{merge};
ghost use Rattle.gib_core.specs.{Erasing.{literal_of}, Met.{Nowhere}, Parts.{results_of}};
ghost use Rattle.gib_local_parse.specs.{Tree.{NewPlace}, declared.tree.Location.TheVariants.{After}};
ghost use Rattle.gib_local_parse.specs.Grammar.{lower, upper, spell_mark, spell_option, operand_word, spell_operands, type_word, operator_word, spell_way, spell_names};
ghost use Rattle.gib_local_print.specs.Printing.{ident, no_name, mark, atom_name, operand, type_text, result_text, con_text, way, named, last_of, side_mark, call_mark, result_mark, results_mark, side_number, place_number};
ghost use Rattle.gib_local_print.specs.{LocatedText.{given}, LineTokens.{put_in, put_before, put_field}};
ghost use Rattle.gib_local.specs.Builds.{destination_of};

use crate::spelled::{FIRST_GIVEN, Spelled, put_location, put_region, put_sign, put_variable};
use gib_base::token::{Sign, Token};
use gib_base::{Memory, Name};
use gib_core::{Access, Atom, CoreResult, Kind, Variable};
use gib_loccheck::Destination;
use gib_syntax::sign_of;
use gib_types::{ConId, Operator, Ty, TyId, TypeTable};
use std::alloc::Global;

/// An `@` with the name of the location of a number.
pub(crate) fn put_mark(number: u32, out: &mut Spelled) -> Result<(), Memory>
    ensures { OnOk result (out.new ≡ spell_mark (mark given number) out.old) }
{
    put_location(number, out)?;
    put_sign(Sign::At, out)
}

/// The number of a literal; of one that is no literal of a source, 0.
fn literal(value: i64) -> u64
    ensures { result ≡ literal_of value }
{
    if value < 0 { 0 } else { value as u64 }
}

fn put_bit(value: bool, out: &mut Spelled) -> Result<(), Memory>
    ensures { OnOk result (out.new ≡ operand_word (operand given (Atom.Truth value)) ∷ out.old) }
{
    if value {
        put_sign(Sign::True, out)
    } else {
        put_sign(Sign::False, out)
    }
}

/// A variable or a literal.
pub(crate) fn put_operand(atom: Atom, out: &mut Spelled) -> Result<(), Memory>
    ensures { OnOk result (out.new ≡ operand_word (operand given atom) ∷ out.old) }
{
    match atom {
        Atom::Variable(variable) => put_variable(variable, out),
        Atom::Whole(value) => out.put(Token::Number(literal(value))),
        Atom::Truth(value) => put_bit(value, out),
    }
}

/// A variable or a literal that is given.
pub(crate) fn put_give(atom: Atom, out: &mut Spelled) -> Result<(), Memory>
    ensures { OnOk result (out.new ≡ Token.Sign Sign.Give ∷ operand_word (operand given atom) ∷ out.old) }
{
    put_operand(atom, out)?;
    put_sign(Sign::Give, out)
}

/// Variables and literals.
pub(crate) fn put_operands(atoms: &[Atom], out: &mut Spelled) -> Result<(), Memory>
    ensures { OnOk result (out.new ≡ spell_operands (map (operand given) atoms.now) out.old) }
{
    let mut i = atoms.len();
    'atoms: while i > 0 {
        i -= 1;
        put_operand(atoms[i], out)?;
    }
    Ok(())
}

/// What points to a variable at a mark.
pub(crate) fn put_point(atom: Atom, at: u32, out: &mut Spelled) -> Result<(), Memory>
    ensures { OnOk result (out.new ≡ Token.Sign Sign.Point ∷ lower (atom_name given atom) ∷ spell_mark (mark given at) out.old) }
{
    put_mark(at, out)?;
    put_name(atom, out)?;
    put_sign(Sign::Point, out)
}

/// The variable that an atom is; of a literal, which no packed value is, the first name.
pub(crate) fn put_name(atom: Atom, out: &mut Spelled) -> Result<(), Memory>
    ensures { OnOk result (out.new ≡ lower (atom_name given atom) ∷ out.old) }
{
    match atom {
        Atom::Variable(variable) => put_variable(variable, out),
        Atom::Whole(_) => out.put(Token::Variable(Name(0))),
        Atom::Truth(_) => out.put(Token::Variable(Name(0))),
    }
}

pub(crate) fn put_variables(variables: &[Variable], out: &mut Spelled) -> Result<(), Memory>
    ensures { OnOk result (out.new ≡ spell_names (map (named given) variables.now) out.old) }
{
    let mut i = variables.len();
    'variables: while i > 0 {
        i -= 1;
        put_variable(variables[i], out)?;
    }
    Ok(())
}

/// The name of a declared type; of a number that no type has, the first name.
fn type_name(types: &TypeTable, ty: TyId) -> Name
    ensures { result.0 ≡ get_or types.now.types ty.0 0 }
{
    if ty.0 < types.type_count() {
        types.type_name(ty)
    } else {
        Name(0)
    }
}

pub(crate) fn put_type(types: &TypeTable, ty: Ty, out: &mut Spelled) -> Result<(), Memory>
    ensures { OnOk result (out.new ≡ type_word (type_text types.now ty) ∷ out.old) }
{
    match ty {
        Ty::Whole => put_sign(Sign::Int, out),
        Ty::Truth => put_sign(Sign::Bool, out),
        Ty::Tree(id) => out.put(Token::Constructor(type_name(types, id))),
    }
}

/// The name that is none, where several parts have no text.
pub(crate) fn put_no_name(out: &mut Spelled) -> Result<(), Memory>
    ensures { OnOk result (out.new ≡ upper no_name ∷ out.old) }
{
    out.put(Token::Constructor(Name(FIRST_GIVEN)))
}

/// The type of what a function gives.
pub(crate) fn put_result(
    types: &TypeTable,
    gives: CoreResult,
    out: &mut Spelled,
) -> Result<(), Memory>
    ensures { OnOk result (out.new ≡ type_word (result_text types.now (results_of gives)) ∷ out.old) }
{
    match gives {
        CoreResult::One(ty) => put_type(types, ty, out),
        CoreResult::Several(_) => put_no_name(out),
    }
}

pub(crate) fn put_constructor(
    types: &TypeTable,
    constructor: ConId,
    out: &mut Spelled,
) -> Result<(), Memory>
    ensures { OnOk result (out.new ≡ upper (con_text types.now constructor) ∷ out.old) }
{
    out.put(Token::Constructor(types.name_of(constructor)))
}

pub(crate) fn put_operator(operator: Operator, out: &mut Spelled) -> Result<(), Memory>
    ensures { OnOk result (out.new ≡ operator_word operator ∷ out.old) }
{
    put_sign(sign_of(operator), out)
}

/// How a field is reached.
pub(crate) fn put_way(access: Access, out: &mut Spelled) -> Result<(), Memory>
    ensures { OnOk result (out.new ≡ spell_way (way given access) out.old) }
{
    match access {
        Access::Offset => put_sign(Sign::Offset, out),
        Access::Skip(field) => {
            put_variable(field, out)?;
            put_sign(Sign::Skip, out)
        }
        Access::End(field) => {
            put_variable(field, out)?;
            put_sign(Sign::End, out)
        }
    }
}

/// The `@` of a side.
pub(crate) fn put_side_mark(kind: Kind, number: u32, out: &mut Spelled) -> Result<(), Memory>
    ensures { OnOk result (out.new ≡ spell_option (side_mark given kind number) out.old) }
{
    match kind {
        Kind::Here => put_mark(number, out),
        Kind::Region => put_mark(number, out),
        Kind::Scalar => Ok(()),
    }
}

/// The `@` of a call.
pub(crate) fn put_call_mark(
    destination: &Destination,
    number: u32,
    out: &mut Spelled,
) -> Result<(), Memory>
    ensures { OnOk result (out.new ≡ spell_option (call_mark given (destination_of destination.now) number) out.old) }
{
    match destination {
        Destination::Nowhere => Ok(()),
        Destination::Empty => put_mark(number, out),
        Destination::Open { .. } => put_mark(number, out),
        Destination::InParts(_) => put_mark(number, out),
    }
}

/// The `@` of a result.
fn put_result_mark(ty: Ty, out: &mut Spelled) -> Result<(), Memory>
    ensures { OnOk result (out.new ≡ spell_option (result_mark given ty) out.old) }
{
    match ty {
        Ty::Whole => Ok(()),
        Ty::Truth => Ok(()),
        Ty::Tree(_) => put_mark(0, out),
    }
}

/// The `@` of what a function gives.
pub(crate) fn put_results_mark(gives: CoreResult, out: &mut Spelled) -> Result<(), Memory>
    ensures { OnOk result (out.new ≡ spell_option (results_mark given (results_of gives)) out.old) }
{
    match gives {
        CoreResult::One(ty) => put_result_mark(ty, out),
        CoreResult::Several(_) => Ok(()),
    }
}

/// The first of some atoms goes behind others; the rest of them.
fn push_first<'x>(found: &mut Vec<Atom>, atoms: &'x [Atom]) -> Result<&'x [Atom], Memory>
    ensures first { OnOk result (found.new.items ≡ found.old.items ++ take 1 atoms.now) }
    ensures rest { IfOk result (λ rest. rest.now ≡ drop 1 atoms.now) }
{
    match atoms {
        [] => Ok(atoms),
        [first, rest @ ..] => {
            found.push(*first)?;
            Ok(rest)
        }
    }
}

/// The fields of a constructor in their declared order.
pub(crate) fn merged(
    alloc: Global,
    fields: &[Ty],
    scalars: &[Atom],
    packed: &[Atom],
) -> Result<Vec<Atom>, Memory>
    ensures { IfOk result (λ found. found.items ≡ merge fields.now scalars.now packed.now) }
{
    let mut found = Vec::new(alloc);
    let mut left = fields;
    let mut flat = scalars;
    let mut trees = packed;
    'fields: while let [ty, after @ ..] = left {
        if ty.is_scalar() {
            flat = push_first(&mut found, flat)?;
        } else {
            trees = push_first(&mut found, trees)?;
        }
        left = after;
    }
    Ok(found)
}

/// The last of a variable and some more.
fn last_of(first: Variable, more: &[Variable]) -> Variable
    ensures { result ≡ last_of first more.now }
{
    let mut last = first;
    let mut rest = more;
    'more: while let [next, after @ ..] = rest {
        last = *next;
        rest = after;
    }
    last
}

/// The name of a location behind a variable's value, before the rest of its line.
fn put_after(number: u32, last: Variable, out: &mut Spelled) -> Result<(), Memory>
    ensures { OnOk result (out.new ≡ put_in (NewPlace (ident (given.location number)) (After (named given last))) out.old) }
{
    put_sign(Sign::In, out)?;
    put_variable(last, out)?;
    put_sign(Sign::After, out)?;
    put_sign(Sign::Equals, out)?;
    put_location(number, out)?;
    put_sign(Sign::LetLocation, out)
}

/// The name of the location of a field that is not the first.
fn put_field(destination: &Destination, x: Variable, out: &mut Spelled) -> Result<(), Memory>
    ensures { OnOk result (out.new ≡ put_field given (destination_of destination.now) x.0 out.old) }
{
    match destination {
        Destination::Nowhere => Ok(()),
        Destination::Empty => Ok(()),
        Destination::Open { standing, .. } => match standing.as_slice() {
            [] => Ok(()),
            [first, more @ ..] => put_after(x.0, last_of(*first, more), out),
        },
        Destination::InParts(_) => Ok(()),
    }
}

/// A new region and the name of its start, before the rest of their line.
fn put_new_region(number: u32, out: &mut Spelled) -> Result<(), Memory>
    ensures { OnOk result (out.new ≡ put_before given Nowhere Kind.Region number out.old) }
{
    put_sign(Sign::In, out)?;
    put_region(number, out)?;
    put_sign(Sign::Start, out)?;
    put_sign(Sign::Equals, out)?;
    put_location(number, out)?;
    put_sign(Sign::LetLocation, out)?;
    put_sign(Sign::In, out)?;
    put_region(number, out)?;
    put_sign(Sign::LetRegion, out)
}

/// What stands before a variable's binding.
pub(crate) fn put_before(
    destination: &Destination,
    kind: Kind,
    x: Variable,
    out: &mut Spelled,
) -> Result<(), Memory>
    ensures { OnOk result (out.new ≡ put_before given (destination_of destination.now) kind x.0 out.old) }
{
    match kind {
        Kind::Here => put_field(destination, x, out),
        Kind::Region => put_new_region(x.0, out),
        Kind::Scalar => Ok(()),
    }
}

/// By which variable the location of the next field is named.
fn place_number(destination: &Destination, x: Variable) -> u32
    ensures { result ≡ place_number (destination_of destination.now) x.0 }
{
    match destination {
        Destination::Nowhere => x.0,
        Destination::Empty => x.0,
        Destination::Open { head, standing, .. } => match standing.as_slice() {
            [] => head.0,
            [_, ..] => x.0,
        },
        Destination::InParts(_) => x.0,
    }
}

/// The number by which a side's location is named.
pub(crate) fn side_number(destination: &Destination, kind: Kind, x: Variable) -> u32
    ensures { result ≡ side_number (destination_of destination.now) kind x.0 }
{
    match kind {
        Kind::Here => place_number(destination, x),
        Kind::Region => x.0,
        Kind::Scalar => x.0,
    }
}

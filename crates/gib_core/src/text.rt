//! Pieces as text.

ghost use Rattle.std.specs.Prelude.{◌≡◌, ◌++◌, [], ◌∷◌, unwrap_or, slice_get, codes, IfOk, OnOk};
ghost use Rattle.std.specs.List.{flat_map};
ghost use Rattle.std.specs.Fmt.{decimal, signed_decimal};
ghost use Rattle.gib_core.specs.CoreText.{keyword_text, operator_text, indent, variable_text, atom_text, type_text, piece_text};

use crate::atom::{Atom, Variable};
use crate::piece::{Keyword, Piece};
use gib_base::{Memory, Name, Texts, push_decimal, push_signed};
use gib_code::names::{push_behind_space, push_name, push_name_behind_space};
use gib_types::{Operator, Ty, TyId, TypeTable};
use std::alloc::Global;

/// How a word is written.
fn keyword_text(keyword: Keyword) -> &'static [u8]
    ensures { result.now ≡ keyword_text keyword }
{
    match keyword {
        Keyword::Fun => b"fun",
        Keyword::Main => b"main",
        Keyword::Case => b"case",
        Keyword::If => b"if",
        Keyword::Else => b"else",
        Keyword::Past => b"past",
        Keyword::Write => b"write",
        Keyword::Point => b"point",
        Keyword::Give => b"give",
        Keyword::Call => b"call",
        Keyword::Here => b"here",
        Keyword::Region => b"region",
        Keyword::Scalar => b"scalar",
        Keyword::Prim => b"prim",
        Keyword::Par => b"par",
        Keyword::Reach => b"reach",
        Keyword::Several => b"several",
        Keyword::Tuple => b"tuple",
        Keyword::To => b"to",
    }
}

/// How an operator is written.
fn operator_text(operator: Operator) -> &'static [u8]
    ensures { result.now ≡ operator_text operator }
{
    match operator {
        Operator::Add => b"+",
        Operator::Subtract => b"-",
        Operator::Multiply => b"*",
        Operator::Equal => b"==",
        Operator::Less => b"<",
        Operator::Quotient => b"quot",
        Operator::Remainder => b"rem",
    }
}

/// The name of a declared type; of a number that no type has, the first name.
fn type_name(types: &TypeTable, ty: TyId) -> Name
    ensures { result.0 ≡ unwrap_or (slice_get types.now.types ty.0) 0 }
{
    if ty.0 < types.type_count() {
        types.type_name(ty)
    } else {
        Name(0)
    }
}

/// Writes a type.
fn push_type(out: &mut Vec<u8>, names: &Texts, types: &TypeTable, ty: Ty) -> Result<(), Memory>
    ensures { OnOk result (out.new.items ≡ out.old.items ++ type_text names.now.long types.now ty) }
{
    match ty {
        Ty::Whole => out.extend_from_slice(b"Int")?,
        Ty::Truth => out.extend_from_slice(b"Bool")?,
        Ty::Tree(id) => push_name(out, names, type_name(types, id))?,
    }
    Ok(())
}

/// Writes the spaces of a level.
fn push_indent(out: &mut Vec<u8>, level: u64) -> Result<(), Memory>
    ensures { OnOk result (out.new.items ≡ out.old.items ++ indent level) }
{
    let mut left = level;
    'levels: while left > 0 {
        out.extend_from_slice(b"  ")?;
        left -= 1;
    }
    Ok(())
}

/// Writes what a line begins with, on its level.
fn push_indented(out: &mut Vec<u8>, level: u64, bytes: &[u8]) -> Result<(), Memory>
    ensures { OnOk result (out.new.items ≡ out.old.items ++ (indent level ++ bytes.now)) }
{
    push_indent(out, level)?;
    out.extend_from_slice(bytes)?;
    Ok(())
}

/// Writes a variable.
fn push_variable(alloc: Global, out: &mut Vec<u8>, variable: Variable) -> Result<(), Memory>
    ensures { OnOk result (out.new.items ≡ out.old.items ++ variable_text variable) }
{
    out.push(b'%')?;
    push_decimal(alloc, out, u64::from(variable.0))
}

/// Writes a variable behind what stands before it.
fn push_variable_behind(
    alloc: Global,
    out: &mut Vec<u8>,
    before: &[u8],
    variable: Variable,
) -> Result<(), Memory>
    ensures { OnOk result (out.new.items ≡ out.old.items ++ (before.now ++ variable_text variable)) }
{
    out.extend_from_slice(before)?;
    push_variable(alloc, out, variable)
}

/// Writes an atom.
fn push_atom(alloc: Global, out: &mut Vec<u8>, atom: Atom) -> Result<(), Memory>
    ensures { OnOk result (out.new.items ≡ out.old.items ++ atom_text atom) }
{
    match atom {
        Atom::Variable(variable) => push_variable(alloc, out, variable),
        Atom::Whole(value) => push_signed(alloc, out, value),
        Atom::Truth(value) => {
            out.extend_from_slice(if value { b"True" } else { b"False" })?;
            Ok(())
        }
    }
}

/// Writes a variable between a space and a colon.
fn push_declared(alloc: Global, out: &mut Vec<u8>, variable: Variable) -> Result<(), Memory>
    ensures { OnOk result (out.new.items ≡ out.old.items ++ 32 ∷ (variable_text variable ++ 58 ∷ [])) }
{
    out.push(b' ')?;
    push_variable(alloc, out, variable)?;
    out.push(b':')?;
    Ok(())
}

/// Writes a type behind what stands before it.
fn push_type_behind(
    out: &mut Vec<u8>,
    before: &[u8],
    names: &Texts,
    types: &TypeTable,
    ty: Ty,
) -> Result<(), Memory>
    ensures { OnOk result (out.new.items ≡ out.old.items ++ (before.now ++ type_text names.now.long types.now ty)) }
{
    out.extend_from_slice(before)?;
    push_type(out, names, types, ty)
}

/// Writes a piece.
fn push_piece(
    alloc: Global,
    out: &mut Vec<u8>,
    names: &Texts,
    types: &TypeTable,
    piece: Piece,
) -> Result<(), Memory>
    ensures { OnOk result (out.new.items ≡ out.old.items ++ piece_text names.now.long types.now piece) }
{
    match piece {
        Piece::Line(level, keyword) => push_indented(out, level, keyword_text(keyword)),
        Piece::Arm(level, con) => {
            push_indent(out, level)?;
            push_name(out, names, types.name_of(con))
        }
        Piece::Function(name) => push_name_behind_space(out, names, name),
        Piece::Constructor(con) => push_name_behind_space(out, names, types.name_of(con)),
        Piece::Variable(variable) => push_variable_behind(alloc, out, b" ", variable),
        Piece::Atom(atom) => {
            out.push(b' ')?;
            push_atom(alloc, out, atom)
        }
        Piece::Parameter(variable, ty) => {
            push_declared(alloc, out, variable)?;
            push_type(out, names, types, ty)
        }
        Piece::Result(ty) => push_type_behind(out, b" : ", names, types, ty),
        Piece::FirstPart(ty) => push_type_behind(out, b" : (", names, types, ty),
        Piece::FurtherPart(ty) => push_type_behind(out, b", ", names, types, ty),
        Piece::PartsEnd => {
            out.extend_from_slice(b")")?;
            Ok(())
        }
        Piece::Operator(operator) => push_behind_space(out, operator_text(operator)),
        Piece::Equals => push_behind_space(out, b"="),
        Piece::Fork => push_behind_space(out, b"fork"),
        Piece::ByOffset => push_behind_space(out, b"by offset"),
        Piece::BySkip(variable) => push_variable_behind(alloc, out, b" by skip ", variable),
        Piece::ByEnd(variable) => push_variable_behind(alloc, out, b" by end ", variable),
        Piece::Ends => push_behind_space(out, b"ends"),
        Piece::End => {
            out.push(b'\n')?;
            Ok(())
        }
    }
}

/// Pieces one after another.
pub(crate) fn text_of(
    alloc: Global,
    pieces: &[Piece],
    types: &TypeTable,
    names: &Texts,
) -> Result<Vec<u8>, Memory>
    ensures { IfOk result (λ out. out.items ≡ flat_map (piece_text names.now.long types.now) pieces.now) }
{
    let mut out = Vec::new(alloc);
    let mut rest = pieces;
    'pieces: while let [piece, after @ ..] = rest {
        push_piece(alloc, &mut out, names, types, *piece)?;
        rest = after;
    }
    Ok(out)
}

//! Values at the front of a text, whose bytes are put.

ghost use Rattle.std.specs.Prelude.{◌≡◌, ◌≤◌, ◌<◌, ◌+◌, ◌++◌, ◌∷◌, [], ℕ, List, length, IfOk, IfSome, IsTrue, OnOk};
ghost use Rattle.gib_file.specs.Packed.{number as number_bytes, bit};
ghost use Rattle.gib_types.specs.{Table.{Table, fields_at}, declared.table.Ty.TheVariants.{Whole, Truth, Tree}};
ghost use Rattle.gib_value.specs.Text.{AreHeld};
ghost use Rattle.gib_transcode.specs.{Fronts.{Reads, Enters}, Rooms.{room, over}};

use crate::front::{named, number, truth};
use gib_base::{Memory, Texts};
use gib_types::{ConId, Ty, TyId, TypeTable};

/// Puts zeros where the scalars among fields of these types come later.
#[inline(always)]
fn leave_room(out: &mut Vec<u8>, fields: &[Ty]) -> Result<(), Memory>
    ensures { OnOk result (out.new.items ≡ out.old.items ++ room fields.now) }
{
    let mut rest = fields;
    'fields: while let [field, behind @ ..] = rest {
        match *field {
            Ty::Whole => out.extend_from_slice(&[0; 8])?,
            Ty::Truth => out.push(0)?,
            Ty::Tree(_) => {}
        }
        rest = behind;
    }
    Ok(())
}

/// Writes bytes over those from a place on.
fn write_over(out: &mut [u8], place: usize, bytes: &[u8])
    requires { place + length bytes.now ≤ length out.old }
    ensures { out.new ≡ over place bytes.now out.old }
{
    out[place..place + bytes.len()].copy_from_slice(bytes);
}

/// Puts bytes over those from a place on.
fn put_over(out: &mut Vec<u8>, place: usize, bytes: &[u8])
    requires { place + length bytes.now ≤ length out.old.items }
    ensures { out.new.items ≡ over place bytes.now out.old.items }
{
    write_over(out, place, bytes);
}

/// Puts a number's bytes over those from a place on.
fn put_number(out: &mut Vec<u8>, place: usize, z: i64)
    requires { place + 8 ≤ length out.old.items }
    ensures { out.new.items ≡ over place (number_bytes z) out.old.items }
{
    put_over(out, place, &z.cast_unsigned().to_le_bytes());
}

/// Puts a truth value's byte over that at a place.
fn put_bit(out: &mut Vec<u8>, place: usize, b: bool)
    requires { place + 1 ≤ length out.old.items }
    ensures { out.new.items ≡ over place (bit b ∷ []) out.old.items }
{
    put_over(out, place, if b { &[1] } else { &[0] });
}

/// Reads a number, and puts its bytes at a place; answers the place behind them, and what stands behind the number.
fn take_whole<'a>(out: &mut Vec<u8>, place: usize, text: &'a [u8]) -> Option<(usize, &'a [u8])>
    ensures { (table : Table) (names : List (List ℕ))
        → IfSome result (λ took. Reads table names Whole place text.entry.now took.1.now out.old.items out.new.items took.0) }
{
    let Some((z, later)) = number(text) else {
        return None;
    };
    if out.len() < 8 || place > out.len() - 8 {
        return None;
    }
    put_number(out, place, z);
    Some((place + 8, later))
}

/// Reads a truth value, and puts its byte at a place; answers the place behind it, and what stands behind the value.
fn take_truth<'a>(out: &mut Vec<u8>, place: usize, text: &'a [u8]) -> Option<(usize, &'a [u8])>
    ensures { (table : Table) (names : List (List ℕ))
        → IfSome result (λ took. Reads table names Truth place text.entry.now took.1.now out.old.items out.new.items took.0) }
{
    let Some((b, later)) = truth(text) else {
        return None;
    };
    if out.is_empty() || place > out.len() - 1 {
        return None;
    }
    put_bit(out, place, b);
    Some((place + 1, later))
}

/// Whether a constructor has no fields.
fn is_bare(types: &TypeTable, con: ConId) -> bool
    ensures { IsTrue result → length (fields_at types.now con.0) ≡ 0 }
{
    types.fields(con).is_empty()
}

/// Reads a constructor without fields, and puts its tag; answers what stands behind it.
fn take_bare<'a>(
    types: &TypeTable,
    names: &Texts,
    of: TyId,
    out: &mut Vec<u8>,
    text: &'a [u8],
) -> Result<Option<&'a [u8]>, Memory>
    requires { AreHeld types.now names.now.short }
    ensures { (place : ℕ) → IfOk result (λ took. IfSome took (λ later.
        Reads types.now names.now.short (Tree of) place text.entry.now later.now out.old.items out.new.items place)) }
{
    let Some((con, later)) = named(types, names, of, text) else {
        return Ok(None);
    };
    if !is_bare(types, con) {
        return Ok(None);
    }
    out.push(types.tag_of(con))?;
    Ok(Some(later))
}

/// Reads a value that is one token, and puts its bytes, a scalar's at a place; answers the place of the next scalar, and what stands
/// behind the value.
pub(crate) fn take_token<'a>(
    types: &TypeTable,
    names: &Texts,
    ty: Ty,
    out: &mut Vec<u8>,
    place: usize,
    text: &'a [u8],
) -> Result<Option<(usize, &'a [u8])>, Memory>
    requires { AreHeld types.now names.now.short }
    ensures { IfOk result (λ took. IfSome took (λ t.
        Reads types.now names.now.short ty place text.entry.now t.1.now out.old.items out.new.items t.0)) }
{
    match ty {
        Ty::Whole => Ok(take_whole(out, place, text)),
        Ty::Truth => Ok(take_truth(out, place, text)),
        Ty::Tree(of) => {
            let took = take_bare(types, names, of, out, text)?;
            let Some(later) = took else {
                return Ok(None);
            };
            Ok(Some((place, later)))
        }
    }
}

/// Reads the name of a constructor with fields, behind the parenthesis that opens it, and puts its tag and room for its scalars;
/// answers it, and what stands behind its name.
#[inline(always)]
pub(crate) fn enter<'a>(
    types: &TypeTable,
    names: &Texts,
    ty: Ty,
    out: &mut Vec<u8>,
    text: &'a [u8],
) -> Result<Option<(ConId, &'a [u8])>, Memory>
    requires { AreHeld types.now names.now.short }
    ensures { IfOk result (λ entered. IfSome entered (λ found.
        Enters types.now names.now.short ty found.0.0 text.entry.now found.1.now out.old.items out.new.items)) }
{
    let Ty::Tree(of) = ty else {
        return Ok(None);
    };
    let Some((con, later)) = named(types, names, of, text) else {
        return Ok(None);
    };
    let fields = types.fields(con);
    if fields.is_empty() {
        return Ok(None);
    }
    out.push(types.tag_of(con))?;
    leave_room(out, fields)?;
    Ok(Some((con, later)))
}

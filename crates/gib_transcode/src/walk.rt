//! The pass over a text that makes a payload.

ghost use Rattle.std.specs.Prelude.{◌≡◌, ◌<◌, ◌≤◌, ◌∷◌, ℕ, List, length, IfOk, IfSome};
ghost use Rattle.gib_file.specs.Packed.{packed};
ghost use Rattle.gib_transcode.specs.Going.{Walks};
ghost use Rattle.gib_types.specs.{declared.table.Ty.{Ty as Types}, Table.{fields_at}, Tree.{Datum}};
ghost use Rattle.gib_value.specs.{Reading.{IsTextOf}, Text.{AreHeld}};

use crate::front::{behind_byte, is_over};
use crate::opened::Open;
use crate::put::{enter, take_token};
use gib_base::{Memory, Texts};
use gib_types::{Ty, TypeTable};
use std::alloc::Global;

/// What is made of a text: the bytes, and the constructors that are open round the innermost one.
#[derive(Drop)]
struct Making {
    out: Vec<u8>,
    outer: Vec<Open>,
}

impl Making {
    /// Reads the next field of the innermost constructor, behind its space, up to its end, or up to its name where it has fields
    /// itself; answers what is the innermost one then, and what stands behind that.
    fn field<'a>(
        &mut self,
        types: &TypeTable,
        names: &Texts,
        top: Open,
        later: &'a [u8],
    ) -> Result<Option<(Open, &'a [u8])>, Memory>
        requires names { AreHeld types.now names.now.short }
        requires next { top.next < length (fields_at types.now top.con.0) }
        ensures goes { (ty : Types) (all : List ℕ)
            → Walks types.now names.now.short ty all top self.old.outer.items (32 ∷ later.entry.now) self.old.out.items
            → IfOk result (λ took. IfSome took (λ t. Walks types.now names.now.short ty all t.0 self.new.outer.items t.1.now self.new.out.items)) }
        ensures shorter { IfOk result (λ took. IfSome took (λ t. length t.1.now ≤ length later.entry.now)) }
    {
        let due = types.fields(top.con)[top.next];
        let next = top.next + 1;
        let Some(inner) = behind_byte(later, b'(') else {
            let took = take_token(types, names, due, &mut self.out, top.place, later)?;
            let Some((place, rest)) = took else {
                return Ok(None);
            };
            let behind = Open {
                con: top.con,
                next,
                place,
            };
            return Ok(Some((behind, rest)));
        };
        let place = self.out.len() + 1;
        let entered = enter(types, names, due, &mut self.out, inner)?;
        let Some((con, rest)) = entered else {
            return Ok(None);
        };
        self.outer.push(Open {
            con: top.con,
            next,
            place: top.place,
        })?;
        let inside = Open {
            con,
            next: 0,
            place,
        };
        Ok(Some((inside, rest)))
    }
}

/// Begins with the constructor that a text opens; answers it, and what stands behind its name.
fn begin<'a>(
    alloc: Global,
    types: &TypeTable,
    names: &Texts,
    ty: Ty,
    text: &'a [u8],
) -> Result<Option<(Making, Open, &'a [u8])>, Memory>
    requires { AreHeld types.now names.now.short }
    ensures { IfOk result (λ begun. IfSome begun (λ b. Walks types.now names.now.short ty text.entry.now b.1 b.0.outer.items b.2.now b.0.out.items)) }
{
    let Some(inner) = behind_byte(text, b'(') else {
        return Ok(None);
    };
    let mut out = Vec::new(alloc);
    let entered = enter(types, names, ty, &mut out, inner)?;
    let Some((con, rest)) = entered else {
        return Ok(None);
    };
    let making = Making {
        out,
        outer: Vec::new(alloc),
    };
    let top = Open {
        con,
        next: 0,
        place: 1,
    };
    Ok(Some((making, top, rest)))
}

/// The bytes of the value whose text this is. None, where this finds no value, which says nothing of the text: it is not found
/// where the value has no field.
///
/// # Errors
///
/// Want of memory.
pub(crate) fn payload_of(
    alloc: Global,
    types: &TypeTable,
    names: &Texts,
    ty: Ty,
    text: &[u8],
) -> Result<Option<Vec<u8>>, Memory>
    requires { AreHeld types.now names.now.short }
    ensures { IfOk result (λ found. IfSome found (λ payload. (v : Datum) × IsTextOf types.now names.now.short ty v text.now
        × (payload.items ≡ packed v))) }
{
    let begun = begin(alloc, types, names, ty, text)?;
    let Some((mut making, mut top, mut rest)) = begun else {
        return Ok(None);
    };
    'bytes: while !rest.is_empty() {
        if top.next < types.fields(top.con).len() {
            let Some(later) = behind_byte(rest, b' ') else {
                return Ok(None);
            };
            let took = making.field(types, names, top, later)?;
            let Some((inside, behind)) = took else {
                return Ok(None);
            };
            top = inside;
            rest = behind;
        } else {
            let Some(later) = behind_byte(rest, b')') else {
                return Ok(None);
            };
            let Some(below) = making.outer.pop() else {
                if !is_over(later) {
                    return Ok(None);
                }
                return Ok(Some(making.out));
            };
            top = below;
            rest = later;
        }
    }
    Ok(None)
}

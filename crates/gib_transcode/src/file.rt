//! The packed file of a value that is given as text.

ghost use Rattle.std.specs.Prelude.{◌≡◌, IfOk, IfSome};
ghost use Rattle.gib_file.specs.Framed.{Framed1, File1, File2};
ghost use Rattle.gib_types.specs.Tree.{Datum};
ghost use Rattle.gib_value.specs.{Reading.{IsTextOf}, Text.{AreHeld}};

use crate::walk::payload_of;
use gib_base::{Memory, Texts};
use gib_file::{describe, frame};
use gib_types::{Ty, TypeTable};
use std::alloc::Global;

/// The file of version 1 of a payload.
fn frame_first(alloc: Global, payload: &[u8]) -> Result<Vec<u8>, Memory>
    ensures { IfOk result (λ file. Framed1 payload.now file.items) }
{
    let mut file = Vec::from_slice(alloc, b"GIBP\x01\0\0\0")?;
    file.extend_from_slice(&(payload.len() as u64).to_le_bytes())?;
    file.extend_from_slice(payload)?;
    Ok(file)
}

/// The packed file of version 1 of the value of the type whose text this is, made in one pass over the text. None, where this
/// finds no value: whoever asks reads the text then, for there may be one.
///
/// # Errors
///
/// Want of memory.
pub fn transcode_first(
    alloc: Global,
    types: &TypeTable,
    names: &Texts,
    ty: Ty,
    text: &[u8],
) -> Result<Option<Vec<u8>>, Memory>
    requires names { AreHeld types.now names.now.short }
    ensures { IfOk result (λ found. IfSome found (λ file. (v : Datum) × IsTextOf types.now names.now.short ty v text.now × File1 types.now ty v file.items)) }
{
    let found = payload_of(alloc, types, names, ty, text)?;
    let Some(payload) = found else {
        return Ok(None);
    };
    let file = frame_first(alloc, &payload)?;
    Ok(Some(file))
}

/// The same of version 2.
///
/// # Errors
///
/// Want of memory.
pub fn transcode(
    alloc: Global,
    types: &TypeTable,
    names: &Texts,
    ty: Ty,
    text: &[u8],
) -> Result<Option<Vec<u8>>, Memory>
    requires names { AreHeld types.now names.now.short }
    ensures { IfOk result (λ found. IfSome found (λ file. (v : Datum) × IsTextOf types.now names.now.short ty v text.now
        × File2 types.now names.now.long ty v file.items)) }
{
    let found = payload_of(alloc, types, names, ty, text)?;
    let Some(payload) = found else {
        return Ok(None);
    };
    let description = describe(alloc, types, names, ty)?;
    let file = frame(alloc, &description, &payload)?;
    Ok(Some(file))
}

//! The text of a packed value, made from its payload.

ghost use Rattle.std.specs.Prelude.{◌≡◌, ◌++◌, ◌∷◌, [], IfOk};
ghost use Rattle.gib_file.specs.Packed.{Packed};
ghost use Rattle.gib_print.specs.InPlace.{cells_of, packed_layout};
ghost use Rattle.gib_types.specs.Tree.{Datum};
ghost use Rattle.gib_value.specs.Text.{text, AreHeld};

use crate::item::Printing;
use crate::kept::Kept;
use crate::packed_mem::PackedMem;
use crate::print::{keep_text, truth_word};
use gib_base::{Memory, Texts};
use gib_file::Survey;
use gib_mem::Mem;
use gib_packed::{truth_at, whole_at};
use gib_types::{Layouts, Ty};
use itoa::Buffer;
use std::alloc::{AllocError, Global};

/// A word and a line feed.
pub(crate) fn line_of(alloc: Global, word: &[u8]) -> Result<Vec<u8>, Memory>
    ensures { IfOk result (λ line. line.items ≡ word.now ++ 10 ∷ []) }
{
    let mut line = Vec::from_slice(alloc, word)?;
    line.push(b'\n')?;
    Ok(line)
}

/// The text of a value whose payload lies in a memory from address 0 on, and a line feed.
fn text_in<M: Mem>(
    alloc: Global,
    mem: &mut M,
    survey: &Survey<'_>,
    names: &Texts,
    layouts: &Layouts,
) -> Result<Vec<u8>, Memory>
    requires cells { (M.view mem.old).cells ≡ cells_of survey.now.bytes }
    requires names { AreHeld survey.now.table names.now.short }
    requires layouts { layouts.now ≡ packed_layout survey.now.table }
    ensures { IfOk result (λ line. (v : Datum) → Packed survey.now.table survey.now.ty v survey.now.bytes
        → line.items ≡ text survey.now.table names.now.short v ++ 10 ∷ []) }
{
    let _packed = survey.payload();
    layouts.rules();
    match survey.ty() {
        Ty::Whole => line_of(alloc, Buffer::new().format(whole_at(mem, 0)).as_bytes()),
        Ty::Truth => line_of(alloc, truth_word(truth_at(mem, 0))),
        Ty::Tree(_) => {
            let printing = Printing {
                alloc,
                layouts,
                names,
            };
            match keep_text(mem, printing, 0, Kept::all(alloc)) {
                Some(text) => Ok(text),
                None => Err(AllocError),
            }
        }
    }
}

/// The text of the value whose packed form was surveyed, and a line feed. The payload is read where it lies: beside the text
/// this takes what the nesting of the value needs.
///
/// # Errors
///
/// Want of memory.
pub fn packed_text(alloc: Global, survey: &Survey<'_>, names: &Texts) -> Result<Vec<u8>, Memory>
    requires names { AreHeld survey.now.table names.now.short }
    ensures { IfOk result (λ line. (v : Datum) → Packed survey.now.table survey.now.ty v survey.now.bytes
        → line.items ≡ text survey.now.table names.now.short v ++ 10 ∷ []) }
{
    let layouts = Layouts::make(alloc, survey.types(), &[])?;
    let mut mem = match PackedMem::over(survey.payload()) {
        Some(mem) => mem,
        None => return Err(AllocError),
    };
    text_in(alloc, &mut mem, survey, names, &layouts)
}

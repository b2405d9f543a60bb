//! All names of a text.

ghost use Rattle.std.specs.Prelude.{◌≡◌, map, IfOk};
ghost use Rattle.std.specs.List.{AllByRecursion};
ghost use Rattle.gib_types.specs.Table.{IsTable};
ghost use Rattle.gib_syntax.specs.{Declarations.{table_of_program}, Fine.{HasConstructor}, Parts.{data_tree}};
ghost use Rattle.gib_check.specs.Answers.{Gives};
ghost use Rattle.gib_local.specs.{Building.{declared}, Naming.{check_text}};
ghost use Rattle.gib_local_parse.specs.TextParts.{text_of};

use crate::heads::check_declarations;
use crate::known::Known;
use crate::naming::{bodies, body};
use gib_check::TypeFault;
use gib_local_parse::LocalText;
use std::alloc::Global;

/// The rules of names, counts and limits, in their order.
fn check_all(alloc: Global, known: &Known) -> Result<(), TypeFault>
    ensures { Gives (λ _. tt {0}) result (check_text (text_of known.now)) }
{
    check_declarations(alloc, known)?;
    known.offsets()?;
    let text = known.text();
    bodies(alloc, known, text.functions())?;
    let main = text.main();
    body(alloc, known, &[main.parameter], main.place, main.body)
}

/// Checks the names, counts and limits of a text: its declarations, the constructors that are said to have offsets, the
/// bodies in the order of the text. Gives the text with the places of its names.
///
/// # Errors
///
/// The first broken rule, and want of memory.
pub fn check_names(alloc: Global, text: LocalText) -> Result<Known, TypeFault>
    ensures same { IfOk result (λ known. known ≡ text) }
    ensures checked { Gives (λ _. tt {0}) result (check_text (text_of text)) }
    // Where each data declaration has a constructor, they make a table.
    ensures table { IfOk result (λ _. AllByRecursion HasConstructor (map data_tree text.datas) → IsTable (table_of_program (declared (text_of text)))) }
{
    let known = Known::make(alloc, text)?;
    check_all(alloc, &known)?;
    Ok(known)
}
